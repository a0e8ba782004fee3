//! What make does to a part of a makefile before the shell sees it: references are replaced, `$$` is a dollar sign, and lines are joined.

use crate::parts::{Brackets, Part, is_in, reference_end};
use sedck_origin::{Result, Unit};
use std::alloc::Global;

/// What a part of a makefile is.
#[derive(Clone, Copy)]
pub(crate) enum Reading {
    /// A line of a recipe: a backslash before a newline stays.
    Recipe,
    /// Another line, or the value of an assignment: continued lines are joined by a space, and a comment ends it.
    Value,
    /// The argument of `$(shell ..)`: continued lines are joined by a space.
    Argument,
    /// A line between `define` and `endef`: continued lines are joined by a space.
    Defined,
}

/// A reference that isn't closed.
#[derive(Clone, Copy)]
struct Open {
    /// The offset of its dollar sign.
    start: usize,
    brackets: Brackets,
    /// Where the argument of `$(shell ..)` begins that is read as a text by itself.
    argument: Option<usize>,
}

/// A part of a makefile, which is read.
#[derive(Drop)]
pub(crate) struct MakeText<'a> {
    /// The part as the shell sees it.
    pub units: Vec<Unit>,
    /// The arguments of `$(shell ..)` in it.
    pub arguments: Vec<Part<'a>>,
    whole: Part<'a>,
    reading: Reading,
    opens: Vec<Open>,
    /// Whether one of them, or around the part, is `$(shell ..)`, so that the argument of another one isn't read by itself.
    is_in_shell: bool,
    /// The offset where brackets end after `$$`, in which make joins the lines of a recipe.
    joined_to: usize,
    /// Whether a quote was read, within which a tab isn't the same as make's space.
    has_quotes: bool,
    /// What hasn't been read yet.
    rest: Part<'a>,
}

/// Reads a part of a makefile.
pub(crate) fn read_make_text<'a>(
    alloc: Global,
    whole: Part<'a>,
    reading: Reading,
) -> Result<MakeText<'a>> {
    let mut text = MakeText {
        units: Vec::new(alloc),
        arguments: Vec::new(alloc),
        whole,
        reading,
        opens: Vec::new(alloc),
        is_in_shell: matches!(reading, Reading::Argument),
        joined_to: 0,
        has_quotes: false,
        rest: whole,
    };
    text.read_all()?;
    Ok(text)
}

impl<'a> MakeText<'a> {
    /// Reads the whole part, at whose end a reference may be open.
    fn read_all(&mut self) -> Result<()> {
        for _ in 0..self.whole.len() {
            let here = self.rest;
            let Some(byte) = here.first() else { break };
            self.rest = here.skip(1);
            self.read(here, byte)?;
        }
        if let Some(open) = self.opens.first().copied() {
            self.units.push(Unit::made(open.start, self.whole.end))?;
        }
        Ok(())
    }

    /// Reads the byte that begins this part.
    fn read(&mut self, here: Part<'a>, byte: u8) -> Result<()> {
        match byte {
            b'$' => self.read_dollar(here),
            _ if !self.opens.is_empty() => self.count(here, byte),
            b'\\' => self.read_backslash(here),
            b'#' if matches!(self.reading, Reading::Value) => Ok(self.end_text()),
            _ => self.add(Unit::Byte(byte, here.start)),
        }
    }

    /// Leaves the rest of the part.
    fn end_text(&mut self) {
        self.rest = self.whole.from(self.whole.end);
    }

    /// Adds a unit, unless it is within a reference.
    fn add(&mut self, unit: Unit) -> Result<()> {
        if self.opens.is_empty() {
            self.has_quotes |= matches!(unit.byte(), Some(b'\'' | b'"' | b'\\'));
            self.units.push(unit)?;
        }
        Ok(())
    }

    /// Adds the unit in place of the bytes before the rest.
    fn add_before(&mut self, rest: Part<'a>, unit: Unit) -> Result<()> {
        self.rest = rest;
        self.add(unit)
    }

    /// Reads a reference, or `$$`. A backslash and a newline after the sign are nothing.
    fn read_dollar(&mut self, here: Part<'a>) -> Result<()> {
        let (next, after) = (here.skip(1), here.skip(2));
        match next.first() {
            None => self.add(Unit::made(here.start, next.start)),
            Some(b'$') => self.read_dollars(here),
            Some(byte @ (b'(' | b'{')) => self.open(here, Brackets::new(byte)),
            Some(b'\\') if !matches!(self.reading, Reading::Recipe) && after.starts_with("\n") => {
                let line = after.skip(1);
                let rest = after_conditionals(line).after_blanks();
                self.add_before(rest, Unit::made(here.start, line.start))
            }
            Some(_) => self.add_before(after, Unit::made(here.start, after.start)),
        }
    }

    /// Adds the dollar sign for `$$`. GNU make takes brackets after it for those of a reference where it looks for lines to join. Between
    /// `define` and `endef` four signs are for a text that is expanded twice: with what follows they are a hole.
    fn read_dollars(&mut self, here: Part<'a>) -> Result<()> {
        let (next, after) = (here.skip(1), here.skip(2));
        if matches!(self.reading, Reading::Defined) && after.starts_with("$$") {
            let behind = here.after_any("$");
            let end = match behind.begins_with_any("({") {
                true => reference_end(here.from(behind.start.saturating_sub(1))),
                false => behind.after_name().start,
            };
            return self.add_before(here.from(end), Unit::made(here.start, end));
        }
        if after.begins_with_any("({") && here.start >= self.joined_to {
            self.joined_to = reference_end(next);
        }
        self.add_before(after, Unit::Byte(b'$', next.start))
    }

    /// Begins a reference with a bracket.
    fn open(&mut self, here: Part<'a>, brackets: Brackets) -> Result<()> {
        let name = here.skip(2);
        let behind = name.skip(5);
        self.rest = name;
        let mut open = Open {
            start: here.start,
            brackets,
            argument: None,
        };
        let is_shell = name.starts_with("shell") && behind.begins_with_any(" \t\n\\");
        if is_shell && !self.is_in_shell {
            self.is_in_shell = true;
            open.argument = Some(behind.after_blanks().start);
        }
        Ok(self.opens.push(open)?)
    }

    /// Reads a byte within a reference, which may close it: make counts brackets of the reference's own sort.
    fn count(&mut self, here: Part<'a>, byte: u8) -> Result<()> {
        let Some(open) = self.opens.pop() else {
            return Ok(());
        };
        match open.brackets.after(byte) {
            Some(brackets) => Ok(self.opens.push(Open { brackets, ..open })?),
            None => self.close(open, here),
        }
    }

    /// Closes a reference, whose bracket begins this part.
    fn close(&mut self, open: Open, here: Part<'a>) -> Result<()> {
        if let Some(start) = open.argument {
            self.is_in_shell = false;
            self.arguments.push(self.whole.between(start, here.start))?;
        }
        self.add(Unit::made(open.start, here.skip(1).start))
    }

    /// Reads a backslash outside of references. One before a newline stays in a recipe, where a tab that begins the next line is left out, but
    /// not in brackets after `$$`.
    fn read_backslash(&mut self, here: Part<'a>) -> Result<()> {
        let has_newline = here.starts_with("\\\n");
        match self.reading {
            Reading::Recipe if has_newline && here.start >= self.joined_to => {
                let after = here.skip(2);
                let line = after_conditionals(after);
                self.rest = line.skip(usize::from(line.first() == Some(b'\t')));
                here.to(after.start).push(&mut self.units)
            }
            _ if has_newline => self.join_lines(here),
            Reading::Value | Reading::Defined => self.read_backslashes(here),
            _ => self.add(Unit::Byte(b'\\', here.start)),
        }
    }

    /// Reads backslashes in lines that are joined: before a newline each two are one, and one more joins the lines. So it is before `#` in a
    /// value, where one more makes that a `#`, which begins a comment otherwise.
    fn read_backslashes(&mut self, here: Part<'a>) -> Result<()> {
        let behind = here.after_any("\\");
        let count = here.before(behind).len();
        let half = here.to(here.skip(count / 2).start);
        self.has_quotes = true;
        if behind.first() == Some(b'\n') {
            // The last one is read with the newline.
            self.rest = here.skip(count.saturating_sub(1));
            return half.push(&mut self.units);
        }
        self.rest = behind;
        if behind.first() != Some(b'#') || !matches!(self.reading, Reading::Value) {
            return here.to(behind.start).push(&mut self.units);
        }
        half.push(&mut self.units)?;
        if count % 2 == 0 {
            return Ok(self.end_text());
        }
        self.add_before(behind.skip(1), Unit::Byte(b'#', behind.start))
    }

    /// Joins lines by a space: one of those in the file beside the backslash, since a unit has its place there, or a tab. Where there is none the
    /// space is a hole.
    fn join_lines(&mut self, here: Part<'a>) -> Result<()> {
        let start = self.take_blanks(here.start);
        let mut rest = here;
        for _ in 0..here.len() {
            if !rest.starts_with("\\\n") {
                break;
            }
            rest = after_conditionals(rest.skip(2)).after_blanks();
        }
        self.rest = rest;
        if self.units.is_empty() {
            return Ok(());
        }
        let joint = here.between(start, rest.start);
        let (space, tab) = (joint.from_any(" "), joint.from_any("\t"));
        self.add(match (space.first(), tab.first()) {
            (Some(byte), _) => Unit::Byte(byte, space.start),
            (None, Some(byte)) if !self.has_quotes => Unit::Byte(byte, tab.start),
            _ => Unit::made(start, rest.start),
        })
    }

    /// Takes the blanks at the end away, and answers where the first of them is; this offset if there is none.
    fn take_blanks(&mut self, end: usize) -> usize {
        let mut start = end;
        for _ in 0..self.units.len() {
            let Some(Unit::Byte(b' ' | b'\t', offset)) = self.units.last().copied() else {
                break;
            };
            self.units.pop();
            start = offset;
        }
        start
    }
}

/// The part without what Automake writes before the lines of a conditional, as `@NAME_TRUE@`.
pub(crate) fn after_conditionals(whole: Part) -> Part<'_> {
    let mut rest = whole;
    for _ in 0..8 {
        let name = rest.skip(1);
        let behind = name.after_name();
        let bytes = name.before(behind);
        let is_name = bytes.ends_with(b"_TRUE") || bytes.ends_with(b"_FALSE");
        if !rest.begins_with(b'@') || !is_name {
            break;
        }
        rest = behind.skip(1);
    }
    rest
}

/// The part from the first of these bytes on that stands outside of references and after no backslash.
pub(crate) fn until<'a>(part: Part<'a>, wanted: &str) -> Part<'a> {
    let mut rest = part;
    for _ in 0..part.len() {
        rest = match rest.first() {
            Some(b'$') => rest.from(reference_end(rest)),
            Some(b'\\') => rest.skip(2),
            Some(byte) if !is_in(byte, wanted) => rest.skip(1),
            _ => break,
        };
    }
    part.from(rest.start.min(part.end))
}
