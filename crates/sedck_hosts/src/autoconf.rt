//! Sources of Autoconf: shell text with macros of M4, whose brackets are quotes. The text of the file is read, and each argument of a macro as a
//! text by itself. A macro is a hole.

use crate::host::Host;
use crate::parts::{Part, is, is_word_of};
use sedck_origin::{Result, Unit, begins_with, is_name_byte};
use std::alloc::Global;
use std::collections::BTreeMap;

/// Macros with a name as those of shells, where a parenthesis follows.
const CALLED: &str = "define undefine ifdef ifelse include pushdef popdef divert changequote";

/// Macros whose first argument is the name of a macro that they define.
const DEFINING: &str = "AC_DEFUN AC_DEFUN_ONCE AU_DEFUN AU_ALIAS m4_define m4_define_default \
    m4_defun m4_defun_once m4_pushdef define pushdef m4_for m4_foreach m4_foreach_w";

/// A text that is read: that of the file, or an argument.
#[derive(Drop)]
struct Reading {
    /// Where the name of the macro is whose arguments are read.
    call: Option<Unit>,
    units: Vec<Unit>,
    /// How many brackets are open in it.
    brackets: usize,
    /// How many parentheses are open in an argument outside of brackets.
    parentheses: usize,
    /// Whether it is the name of a macro that is defined.
    is_name: bool,
}

/// The state of reading a source of Autoconf.
#[derive(Drop)]
struct Autoconf<'a> {
    alloc: Global,
    host: Host,
    /// What is read ..
    top: Reading,
    /// .. and what is around that.
    outer: Vec<Reading>,
    /// The names of macros that the file defines.
    defined: BTreeMap<Vec<u8>, ()>,
    /// Whether a comment is read, in which M4 replaces nothing.
    is_comment: bool,
    /// Whether `changequote` made brackets bytes as others.
    is_plain: bool,
    /// What isn't read yet.
    rest: Part<'a>,
}

/// The shell text of a source of Autoconf.
pub(crate) fn host_of_autoconf(alloc: Global, file: &[u8]) -> Result<Host> {
    let mut source = Autoconf {
        alloc,
        host: Host::new(alloc),
        top: Reading::new(alloc, None),
        outer: Vec::new(alloc),
        defined: BTreeMap::new(alloc),
        is_comment: false,
        is_plain: false,
        rest: Part::whole(file),
    };
    source.read_all(file.len())?;
    Ok(source.host)
}

impl Reading {
    fn new(alloc: Global, call: Option<Unit>) -> Reading {
        Reading {
            call,
            units: Vec::new(alloc),
            brackets: 0,
            parentheses: 0,
            is_name: false,
        }
    }

    /// How many brackets around the text are left out with it as a text: those of an argument.
    fn level(&self) -> usize {
        usize::from(self.call.is_some())
    }
}

impl Autoconf<'_> {
    /// Reads the whole file, which ends at this offset.
    fn read_all(&mut self, end: usize) -> Result<()> {
        for _ in 0..end {
            let here = self.rest;
            let Some(byte) = here.first() else { break };
            self.rest = here.skip(1);
            self.read(here, byte)?;
        }
        for _ in 0..self.outer.len() {
            self.end_call()?;
        }
        let units = std::mem::replace(&mut self.top.units, Vec::new(self.alloc));
        self.host.add(units)
    }

    /// Reads the byte that begins this part.
    fn read(&mut self, here: Part<'_>, byte: u8) -> Result<()> {
        let is_argument = self.top.call.is_some();
        match byte {
            b'[' => return self.open_bracket(here),
            b']' => return self.close_bracket(here),
            b'\n' => self.is_comment = false,
            _ if self.is_comment || self.is_quoted() => {}
            b'(' | b')' | b',' if is_argument && self.top.brackets == 0 => {
                return self.read_sign(here, byte);
            }
            b'#' => self.is_comment = true,
            b'@' if begins_quadrigraph(here) => return self.add_hole(here, 4),
            b'$' if is_argument && here.skip(1).begins_with_any("0123456789@*#") => {
                return self.add_hole(here, 2);
            }
            _ if is_name_byte(byte) => return self.read_name(here),
            _ => {}
        }
        self.add(Unit::Byte(byte, here.start))
    }

    fn add(&mut self, unit: Unit) -> Result<()> {
        Ok(self.top.units.push(unit)?)
    }

    /// Adds a hole in place of so many bytes.
    fn add_hole(&mut self, here: Part<'_>, count: usize) -> Result<()> {
        let end = here.skip(count).start.min(here.end);
        self.rest = self.rest.from(end);
        self.add(Unit::made(here.start, end))
    }

    /// Whether what is read is between brackets by which M4 replaces nothing in it.
    fn is_quoted(&self) -> bool {
        self.top.brackets > self.top.level() && !self.is_plain
    }

    /// Whether a bracket is a byte as others: in a comment, or after `changequote`. In arguments it was counted before.
    fn is_unread(&self) -> bool {
        let level = self.top.level();
        (self.is_comment || self.is_plain) && self.top.brackets >= level
    }

    /// Reads `[`: those around an argument, and around what is quoted in a text, are left out.
    fn open_bracket(&mut self, here: Part<'_>) -> Result<()> {
        let is_kept = self.is_unread() || self.top.brackets > self.top.level();
        if self.top.call.is_some() || !self.is_unread() {
            self.top.brackets = self.top.brackets.saturating_add(1);
        }
        if is_kept {
            return self.add(Unit::Byte(b'[', here.start));
        }
        Ok(())
    }

    /// Reads `]`. Where it closes a bracket around a call, the call ends before it.
    fn close_bracket(&mut self, here: Part<'_>) -> Result<()> {
        for _ in 0..self.outer.len() {
            if self.top.brackets > 0 || self.top.call.is_none() {
                break;
            }
            self.end_call()?;
        }
        let level = self.top.level();
        let is_byte = self.top.call.is_none() && self.is_unread();
        if is_byte || self.top.brackets == 0 {
            return self.add(Unit::Byte(b']', here.start));
        }
        let is_outer = self.top.brackets == level;
        let is_kept = self.top.brackets > level.saturating_add(1)
            || (self.is_unread() && !is_outer);
        self.top.brackets = self.top.brackets.saturating_sub(1);
        self.is_comment &= !is_outer;
        if is_kept {
            return self.add(Unit::Byte(b']', here.start));
        }
        Ok(())
    }

    /// Reads a sign between the arguments of a call.
    fn read_sign(&mut self, here: Part<'_>, byte: u8) -> Result<()> {
        let count = self.top.parentheses;
        match byte {
            b'(' => self.top.parentheses = count.saturating_add(1),
            b')' if count == 0 => return self.end_call(),
            b')' => self.top.parentheses = count.saturating_sub(1),
            _ if count == 0 => return self.end_argument(),
            _ => {}
        }
        self.add(Unit::Byte(byte, here.start))
    }

    /// Ends an argument, and adds it if it may have a call of sed. Names and prose have none.
    fn end_argument(&mut self) -> Result<()> {
        let units = std::mem::replace(&mut self.top.units, Vec::new(self.alloc));
        if self.top.is_name {
            self.top.is_name = false;
            self.defined.insert(name_of(self.alloc, &units)?, ())?;
            return Ok(());
        }
        if has_sed(&units) && !is_prose(&units) {
            self.host.add(units)?;
        }
        Ok(())
    }

    /// Ends a call, in whose place its name is a hole.
    fn end_call(&mut self) -> Result<()> {
        self.end_argument()?;
        let Some(outer) = self.outer.pop() else {
            return Ok(());
        };
        let inner = std::mem::replace(&mut self.top, outer);
        match inner.call {
            Some(unit) => self.add(unit),
            None => Ok(()),
        }
    }

    /// Reads a name. One that a parenthesis follows begins a call.
    fn read_name(&mut self, here: Part<'_>) -> Result<()> {
        let behind = here.after_name();
        let name = here.before(behind);
        self.rest = self.rest.from(behind.start);
        if is(name, "dnl") {
            return self.pass_line(behind);
        }
        let is_call = behind.starts_with("(") && !behind.starts_with("()");
        if is_call && is_word_of(name, "changequote m4_changequote") {
            let end = behind.from_any(")");
            self.is_plain = !behind.before(end).contains(&b'[');
            return self.add_hole(here, end.start.saturating_sub(here.start).saturating_add(1));
        }
        let is_known = is_macro(name) || self.defined.get(name).is_some();
        if is_call && (is_known || is_word_of(name, CALLED) || name.contains(&b'_')) {
            self.rest = self.rest.from(behind.skip(1).start);
            let unit = Unit::made(here.start, behind.start);
            let mut call = Reading::new(self.alloc, Some(unit));
            call.is_name = is_word_of(name, DEFINING);
            let outer = std::mem::replace(&mut self.top, call);
            return Ok(self.outer.push(outer)?);
        }
        let is_variable = matches!(self.top.units.last(), Some(Unit::Byte(b'$' | b'{', _)));
        if is_known && !is_variable && !behind.begins_with(b'=') {
            return self.add(Unit::made(here.start, behind.start));
        }
        here.to(behind.start).push(&mut self.top.units)
    }

    /// Passes the comment of M4 that is after `dnl`. Its newline goes with it, which joins two lines, but is kept after a macro.
    fn pass_line(&mut self, behind: Part<'_>) -> Result<()> {
        let end = behind.from_any("\n").start;
        let is_joined = matches!(self.top.units.last(), Some(Unit::Byte(_, _)));
        self.rest = self.rest.from(end.saturating_add(usize::from(is_joined)));
        Ok(())
    }
}

/// The name that the text is, without blanks.
fn name_of(alloc: Global, units: &[Unit]) -> Result<Vec<u8>> {
    let mut name = Vec::new(alloc);
    for unit in units {
        if let Some(byte) = unit.byte().filter(|byte| is_name_byte(*byte)) {
            name.push(byte)?;
        }
    }
    Ok(name)
}

/// Whether Autoconf writes another byte in place of those that begin the part, as `@<:@`.
fn begins_quadrigraph(part: Part) -> bool {
    let bytes = part.bytes();
    matches!(
        bytes,
        [b'@', b'<' | b'{' | b':' | b'%' | b'S' | b'&', _, b'@', ..]
    )
}

/// Whether it is a name of a macro: of Autoconf, Automake, Libtool, pkg-config or M4.
fn is_macro(name: &[u8]) -> bool {
    match name {
        [b'_', b'A', b'A'..=b'Z', b'_', ..] | [b'A', b'A'..=b'Z', b'_', ..] => true,
        [b'm', b'4', b'_', ..] | [b'P', b'K', b'G', b'_', ..] => true,
        [b'L', b'T', b'_', ..] | [b'_', b'L', b'T', b'_', ..] => true,
        _ => false,
    }
}

/// Whether the name of a sed may be in the text.
fn has_sed(units: &[Unit]) -> bool {
    for index in 0..units.len() {
        let rest = units.get(index..).unwrap_or(&[]);
        if begins_with(rest, "sed") || begins_with(rest, "SED") {
            return true;
        }
    }
    false
}

/// Whether the text has letters, digits, and signs of prose alone: names or a message.
fn is_prose(units: &[Unit]) -> bool {
    for unit in units {
        let is_sign = matches!(unit.byte(), Some(b' ' | b'\t' | b'\n' | b',' | b'.' | b'-'));
        if !is_sign && !unit.byte().is_some_and(is_name_byte) {
            return false;
        }
    }
    true
}
