//! Operators: ends of commands, parentheses and redirections (XCU 2.7, 2.9).

use crate::frame::{Awaited, Enclosure};
use crate::reader::{Reader, begins_name, is_in, length_of};
use crate::words::begins_with;
use sedck_origin::{Cursor, Unit, Way, byte_at, name_length};

impl Reader<'_, '_> {
    /// Reads an operator that begins with this byte.
    pub fn read_operator(&mut self, unit: Unit, byte: u8) {
        if self.top.is_test && byte != b';' {
            return self.read_in_test(unit, byte);
        }
        self.note_joined(unit, 0);
        let second = self.rest.peek();
        match byte {
            b'(' => self.open_parenthesis(),
            b')' => self.close_parenthesis(unit),
            b';' => self.read_semicolon(second),
            b'&' if second == Some(b'>') => self.read_both(),
            // Some shells have `|&`.
            b'&' | b'|' => {
                self.end_command();
                self.pass(usize::from(second == Some(byte) || second == Some(b'&')));
            }
            _ => self.read_redirection(byte),
        }
    }

    /// Reads an operator between `[[` and `]]`: `&&` and `||` are between two tests, and all others are parts of one.
    fn read_in_test(&mut self, unit: Unit, byte: u8) {
        if !is_in(Some(byte), "&|") || self.rest.peek() != Some(byte) {
            return self.add(unit);
        }
        self.end_word();
        self.top.command.words.clear();
        self.pass(1);
    }

    /// Reads `;`, or `;;` and `;&`, after which a pattern follows.
    fn read_semicolon(&mut self, second: Option<u8>) {
        self.end_command();
        if is_in(second, ";&") {
            self.pass(1);
            self.top.is_pattern = self.top.cases > 0;
        }
    }

    /// Reads `&>` or `&>>` of some shells: the output goes to a file.
    fn read_both(&mut self) {
        self.end_word();
        let is_appended = self.rest.byte(1) == Some(b'>');
        self.top.is_parted = !self.form.has_dollar_quotes;
        self.begin_redirection(b'1');
        self.top.awaited = Awaited::Target {
            is_emptied: !is_appended,
        };
        self.pass(if is_appended { 2 } else { 1 });
    }

    /// Reads `(`: a group, the parentheses of a function, a list after `name=`, or a part of a pattern.
    fn open_parenthesis(&mut self) {
        if self.top.is_pattern {
            let count = usize::from(self.top.has_word);
            self.top.parentheses = self.top.parentheses.saturating_add(count);
            return;
        }
        if self.opens_words() {
            return self.open(0, Enclosure::Array, Some(self.way()));
        }
        let blanks = length_of(self.rest, " \t");
        if self.rest.byte(blanks) == Some(b')') {
            self.pass(blanks.saturating_add(1));
            let _ = self.take_command();
            return;
        }
        self.end_word();
        let words = &self.top.command.words;
        let count = usize::from(begins_with(words, "for"));
        let is_first = words.len() == count;
        if is_first && self.rest.peek() == Some(b'(') && self.is_expression(1) {
            return self.open(1, Enclosure::Arithmetic, None);
        }
        self.open_group();
    }

    /// Opens a group. After words of a command it is reported, unless it is the body of a function; but values of make's may be nothing.
    fn open_group(&mut self) {
        let words = &self.top.command.words;
        let is_known = matches!(words.first(), Some(word) if byte_at(&word.units, 0).is_some());
        if begins_with(words, "function") {
            self.end_command();
        } else if is_known && !begins_with(words, "[[") {
            self.output.note(self.here.start());
        }
        self.open(0, Enclosure::Group, None);
    }

    /// Whether the word before `(` makes it the beginning of words of an array, or of a part of a pattern of some shells.
    fn opens_words(&self) -> bool {
        let units = &self.top.word.units;
        match units.last() {
            _ if !self.top.has_word => false,
            Some(Unit::Byte(b'!', _)) => units.len() > 1 || !self.top.command.words.is_empty(),
            Some(Unit::Byte(byte, _)) => is_in(Some(*byte), "=@?*+"),
            _ => false,
        }
    }

    /// Reads `)`: the end of a pattern of `case`, or of what encloses.
    fn close_parenthesis(&mut self, unit: Unit) {
        if self.top.is_pattern && self.top.parentheses > 0 {
            self.top.parentheses = self.top.parentheses.saturating_sub(1);
            return;
        }
        self.end_word();
        if self.top.is_pattern {
            self.end_command();
            self.top.is_pattern = false;
            return;
        }
        self.output.note_if(self.frames.is_empty(), unit.start());
        self.close(unit.end());
    }

    /// Reads the operator of a redirection, or the beginning of `<( )`.
    fn read_redirection(&mut self, byte: u8) {
        let second = self.rest.peek();
        if second == Some(b'(') {
            return self.open(1, Enclosure::Substitution, Some(Way::Quoted));
        }
        let descriptor = self.take_descriptor(byte);
        self.begin_redirection(descriptor);
        let (awaited, more) = match (byte, second, self.rest.byte(1)) {
            (b'<', Some(b'<'), Some(b'<')) => (Awaited::HereString, 2),
            (b'<', Some(b'<'), Some(b'-')) => (Awaited::Delimiter { is_stripped: true }, 2),
            (b'<', Some(b'<'), _) => (Awaited::Delimiter { is_stripped: false }, 1),
            (_, Some(b'&'), _) => (Awaited::Skipped, 1),
            (b'<', Some(b'>'), _) => (Awaited::Source, 1),
            (b'<', _, _) => (Awaited::Source, 0),
            (_, Some(b'>'), _) => (Awaited::Target { is_emptied: false }, 1),
            (_, Some(b'|'), _) => (Awaited::Target { is_emptied: true }, 1),
            _ => (Awaited::Target { is_emptied: true }, 0),
        };
        self.pass(more);
        self.top.awaited = awaited;
    }

    /// Begins a redirection of this descriptor. The last one counts, but each one that empties a file does so.
    fn begin_redirection(&mut self, descriptor: u8) {
        self.top.descriptor = descriptor;
        if descriptor == b'0' {
            self.top.here = None;
            self.top.command.source = None;
            self.top.command.here_string = None;
        } else if descriptor == b'1' {
            for target in &mut self.top.command.targets {
                target.is_output = false;
            }
        }
    }

    /// Ends the word before an operator with this byte, and answers which descriptor it is for: that of the word, if it is one. To a plain shell
    /// only a digit is.
    fn take_descriptor(&mut self, byte: u8) -> u8 {
        if !self.top.has_word || self.top.word.is_quoted || !is_descriptor(&self.top.word.units) {
            self.end_word();
            return if byte == b'<' { b'0' } else { b'1' };
        }
        let word = self.take_word();
        let is_word = word.units.len() > 1
            && !self.form.has_dollar_quotes
            && !begins_with(&self.top.command.words, "exec");
        self.output.note_if(is_word, word.start);
        match *word.units {
            [Unit::Byte(digit, _)] => digit,
            _ => 0,
        }
    }
}

/// Whether the units are digits, or `{name}`.
fn is_descriptor(units: &[Unit]) -> bool {
    match units {
        [Unit::Byte(b'{', _), name @ .., Unit::Byte(b'}', _)] => {
            let begins = byte_at(name, 0);
            begins.is_some_and(begins_name) && name_length(name) == name.len()
        }
        _ => length_of(Cursor::Units(units), "0123456789") == units.len(),
    }
}
