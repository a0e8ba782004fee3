//! The state of reading, and what each byte does by its quoting.

use crate::command::Pattern;
use crate::documents::Pending;
use crate::frame::{Enclosure, Frame, Quote};
use crate::output::{Output, is_lost};
use sedck_origin::{Cursor, Unit, Way, is_name_byte};
use std::alloc::Global;

/// How a text is read.
#[derive(Clone, Copy, PartialEq, Eq)]
pub struct Form {
    /// Whether what is written `@NAME@` is replaced before the text runs.
    pub is_template: bool,
    /// Whether the shell reads `$'..'`, `[[` and `&>`, as bash does and dash doesn't.
    pub has_dollar_quotes: bool,
}

/// The most enclosures around a byte.
const DEPTH: usize = 100;

/// The state of reading.
#[derive(Drop)]
pub(crate) struct Reader<'a, 'o> {
    pub alloc: Global,
    pub form: Form,
    /// What begins with the unit that is read, and what is after that and isn't read yet.
    pub here: Cursor<'a>,
    pub rest: Cursor<'a>,
    pub top: Frame,
    /// What encloses it, from the outermost on.
    pub frames: Vec<Frame>,
    /// Here-documents that begin at the next newline.
    pub pending: Vec<Pending>,
    /// What begins with the outermost quote or expansion, and how many commands and texts had been read before it.
    pub opened: Cursor<'a>,
    pub mark: (usize, usize),
    pub output: &'o mut Output,
}

impl<'a> Reader<'a, '_> {
    /// Reads the units that are left.
    fn read_all(&mut self) {
        for _ in 0..self.rest.len() {
            let Some((unit, rest)) = self.rest.split_first() else {
                break;
            };
            self.here = self.rest;
            self.rest = rest;
            self.read(unit);
        }
    }

    /// The offset in the file after the unit after so many more; 0 where the text ends before.
    pub fn end_after(&self, count: usize) -> usize {
        self.here.get(count).map_or(0, Unit::end)
    }

    /// Passes so many units more.
    pub fn pass(&mut self, count: usize) {
        self.rest = self.here.skip(count.saturating_add(1));
    }

    /// Reads a unit by the quoting around it.
    fn read(&mut self, unit: Unit) {
        match self.top.quote {
            Quote::None if self.top.is_bracketed() => self.read_within(unit),
            Quote::None => self.read_in_commands(unit),
            Quote::Single if unit.byte() == Some(b'\'') => self.top.quote = Quote::None,
            Quote::Single | Quote::Verbatim => {
                self.note_joint(unit);
                self.add_byte(unit);
            }
            Quote::Double | Quote::Body => self.read_double(unit),
            Quote::Dollar => self.read_dollar(unit),
            Quote::Comment if unit.byte() == Some(b'\n') => {
                self.top.quote = Quote::None;
                self.end_line();
            }
            Quote::Comment => self.note_joint(unit),
        }
    }

    /// Notes a backslash and a newline in single quotes or a comment of a command in a here-document: bash joins the lines first, and dash
    /// doesn't.
    fn note_joint(&mut self, unit: Unit) {
        if unit.byte() == Some(b'\\')
            && self.rest.peek() == Some(b'\n')
            && let Some(outermost) = self.frames.first()
        {
            let is_in_body = outermost.quote == Quote::Body;
            self.output.note_if(is_in_body, unit.start());
        }
    }

    /// Reads a unit between commands, or in one.
    fn read_in_commands(&mut self, unit: Unit) {
        let Some(byte) = unit.byte() else {
            return self.add(unit);
        };
        match byte {
            b' ' | b'\t' => self.end_word(),
            b'\n' => self.end_line(),
            b'\'' => self.open_quote(unit, Quote::Single),
            b'"' => self.open_quote(unit, Quote::Double),
            b'\\' => self.read_backslash(unit),
            b'$' => self.read_expansion(unit),
            b'`' => self.read_backquote(unit),
            b'#' if !self.top.has_word => self.top.quote = Quote::Comment,
            b'~' if self.begins_tilde() => {
                self.add_hole_over(self.rest.name_length(), Way::Quoted)
            }
            b'{' | b'}' | b',' | b'.' => self.read_brace(unit, byte),
            b'*' | b'?' | b'[' => self.read_pattern(unit),
            _ if is_in(Some(byte), ";&|<>()") => self.read_operator(unit, byte),
            _ => self.add_byte(unit),
        }
    }

    /// Reads a byte that makes the word a pattern, outside of quotes.
    fn read_pattern(&mut self, unit: Unit) {
        let word = &mut self.top.word;
        if word.units.is_empty() {
            word.pattern = Pattern::First;
        } else if word.pattern == Pattern::None {
            word.pattern = Pattern::Inside;
        }
        self.add(unit);
    }

    /// Reads a byte of braces outside of quotes. What is written `{a,b}` or `{1..9}` is a hole, since some shells make several words of it.
    fn read_brace(&mut self, unit: Unit, byte: u8) {
        let is_pair = byte == b',' || (byte == b'.' && self.rest.peek() == Some(b'.'));
        let count = self.top.word.units.len();
        let brace = self.top.brace;
        match brace {
            None if byte == b'{' => self.top.brace = Some((count, false)),
            Some((from, true)) if byte == b'}' => return self.close_brace(unit, from),
            Some((from, _)) if is_pair => self.top.brace = Some((from, true)),
            _ => {}
        }
        self.add(unit);
    }

    /// Makes a hole of the braces that begin with this unit of the word and end here.
    fn close_brace(&mut self, unit: Unit, from: usize) {
        let first = self.top.word.units.get(from).copied().unwrap_or(unit);
        self.top.word.units.truncate(from);
        self.top.brace = None;
        self.add_hole(first.start(), unit.end(), Way::Several);
    }

    /// Whether a tilde here may stand for a folder: at the beginning of a word or of a value (XCU 2.6.1).
    fn begins_tilde(&self) -> bool {
        let last = self.top.word.units.last();
        !self.top.has_word || matches!(last, Some(Unit::Byte(b'=' | b':', _)))
    }

    /// Adds a unit to the word, or the name with `@` around it that begins there.
    pub fn add_byte(&mut self, unit: Unit) {
        if self.form.is_template
            && unit.byte() == Some(b'@')
            && self.rest.peek().is_some_and(begins_name)
        {
            let length = self.rest.name_length();
            if self.rest.byte(length) == Some(b'@') {
                return self.add_hole_over(length.saturating_add(1), self.made_way());
            }
        }
        self.add(unit);
    }

    /// Opens what encloses the units after so many more, and may be a hole of the word.
    pub fn open(&mut self, count: usize, enclosure: Enclosure, hole: Option<Way>) {
        let is_group = enclosure == Enclosure::Group;
        if !is_group {
            self.note_opening();
        }
        self.pass(count);
        if self.frames.len() >= DEPTH {
            return self.give_up_line();
        }
        let mut frame = Frame::new(self.alloc, Quote::None);
        frame.enclosure = enclosure;
        frame.hole = hole;
        frame.is_plain = self.top.is_plain && self.top.quote == Quote::None && is_group;
        frame.opened = self.here.start();
        frame.is_in_double = enclosure == Enclosure::Parameter
            && (self.top.is_in_double
                || self.top.enclosure == Enclosure::Arithmetic
                || matches!(self.top.quote, Quote::Double | Quote::Body));
        let outer = std::mem::replace(&mut self.top, frame);
        self.output.is_lost |= is_lost(&mut self.frames, outer);
    }

    /// Keeps what begins with the unit that is read, where nothing is open but groups.
    pub fn note_opening(&mut self) {
        if self.top.is_plain && self.top.quote == Quote::None {
            self.opened = self.here;
            self.mark = (self.output.commands.len(), self.output.jobs.len());
        }
    }

    /// Leaves all that is open, and goes on at the next line.
    fn give_up_line(&mut self) {
        self.output.note(self.here.start());
        self.top = Frame::new(self.alloc, Quote::Comment);
        self.frames.clear();
    }

    /// Closes what encloses, before the byte of this offset in the file.
    pub fn close(&mut self, end: usize) {
        self.end_command();
        let Some(outer) = self.frames.pop() else {
            return;
        };
        let inner = std::mem::replace(&mut self.top, outer);
        if let Some(way) = inner.hole {
            self.add_hole(inner.opened, end, way);
        }
    }

    /// Reads the here-document of this number to its end. All that encloses there is left, and its units are lost.
    pub fn read_body(&mut self, number: usize) {
        self.read_all();
        self.frames.truncate(1);
        if let Some(outermost) = self.frames.pop() {
            self.output.note(self.top.opened);
            self.top = outermost;
        }
        if let Some(body) = self.output.bodies.get_mut(number) {
            *body = Some(std::mem::replace(&mut self.top.word.units, Vec::new(self.alloc)));
        }
    }

    /// Reads a text to its end. Where a quote or an expansion isn't closed, what was read from there on is forgotten, and the answer is what
    /// is after the line.
    pub fn read_text(&mut self) -> Option<Cursor<'a>> {
        self.read_all();
        if self.top.is_plain && matches!(self.top.quote, Quote::None | Quote::Comment) {
            self.end_command();
            self.output
                .note_if(!self.frames.is_empty(), self.opened.start());
            return None;
        }
        self.output.note(self.opened.start());
        self.output.commands.truncate(self.mark.0);
        self.output.jobs.truncate(self.mark.1);
        self.opened.behind(b'\n')
    }

    /// Reports a backslash and a newline after the unit and so many letters of a name, which a shell leaves out, where the byte after them
    /// may belong to the operator or the expansion that begins with the unit.
    pub fn note_joined(&mut self, unit: Unit, length: usize) {
        let rest = self.rest.skip(length);
        if rest.byte(0) != Some(b'\\') || rest.byte(1) != Some(b'\n') {
            return;
        }
        let behind = rest.byte(2);
        let is_part = match unit.byte() {
            Some(b'$') if length > 0 => behind.is_some_and(is_name_byte),
            Some(b'$') => !is_in(behind, " \t"),
            _ => is_in(behind, ";&|<>("),
        };
        self.output.note_if(is_part, unit.start());
    }
}

/// How many of the next units are such bytes, before others.
pub(crate) fn length_of(text: Cursor, bytes: &str) -> usize {
    let mut rest = text;
    for count in 0..text.len() {
        if !is_in(rest.peek(), bytes) {
            return count;
        }
        rest = rest.skip(1);
    }
    text.len()
}

/// Whether there is a byte, and it is one of these.
pub(crate) fn is_in(byte: Option<u8>, bytes: &str) -> bool {
    matches!(byte, Some(byte) if bytes.as_bytes().contains(&byte))
}

/// Whether a name of a variable may begin with the byte.
pub(crate) fn begins_name(byte: u8) -> bool {
    byte.is_ascii_alphabetic() || byte == b'_'
}
