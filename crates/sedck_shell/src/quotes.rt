//! Quoting (XCU 2.2).

use crate::expansions::quotable;
use crate::frame::{Enclosure, Quote};
use crate::reader::{Reader, is_in, length_of};
use sedck_origin::{Unit, Way, escape_byte};

/// What is after an escape sequence with `x`, `u`, `U` or a digit.
const DIGITS: &str = "0123456789abcdefABCDEF{}";

impl Reader<'_, '_> {
    /// Begins a quoted part.
    pub fn open_quote(&mut self, unit: Unit, quote: Quote) {
        self.note_opening();
        self.begin_word(unit.start());
        self.top.word.is_quoted = true;
        self.top.quote = quote;
    }

    /// Begins what is between `$'` and `'`. A plain shell needn't know this, so that it is unknown. In `${..}` between double quotes shells
    /// differ.
    pub fn open_dollar_quote(&mut self, unit: Unit) {
        self.output.note_if(self.top.is_in_double, unit.start());
        self.pass(1);
        if !self.form.has_dollar_quotes {
            self.top.unknown = Some((unit.start(), self.top.word.units.len()));
        }
        self.open_quote(unit, Quote::Dollar);
    }

    /// Ends a quote, in place of which there is a hole if its text is unknown.
    fn close_quote(&mut self, unit: Unit, way: Way) {
        self.top.quote = Quote::None;
        if let Some((start, count)) = self.top.unknown.take() {
            self.top.word.units.truncate(count);
            self.add_hole(start, unit.end(), way);
        }
    }

    /// Reads a backslash that isn't quoted, and what it quotes: a newline after it is left out with it. One at the end of a text is itself,
    /// but bash leaves it out at the end of a file.
    pub fn read_backslash(&mut self, unit: Unit) {
        self.output.note_if(self.rest.len() == 0, unit.start());
        let quoted = self.rest.get(0).unwrap_or(unit);
        self.pass(1);
        if quoted.byte() == Some(b'\n') {
            return;
        }
        self.begin_word(unit.start());
        self.top.word.is_quoted = true;
        self.add(quoted);
    }

    /// Reads a unit between double quotes (XCU 2.2.3), or of a here-document (XCU 2.7.4). A text after `$"` is unknown: some shells put a
    /// translation in its place, and others keep the sign. Since it may have commands of the script, it may be anything.
    pub fn read_double(&mut self, unit: Unit) {
        match unit.byte() {
            Some(b'"') if self.top.quote == Quote::Double => {
                self.close_quote(unit, Way::Several)
            }
            Some(b'\\') => self.read_backslash_in_double(unit),
            Some(b'$') => self.read_expansion(unit),
            Some(b'`') => self.read_backquote(unit),
            _ => self.add_byte(unit),
        }
    }

    /// Reads a backslash between double quotes or in a here-document: it quotes a dollar sign, a backquote, a backslash and a newline, and
    /// between double quotes a double quote.
    fn read_backslash_in_double(&mut self, unit: Unit) {
        let byte = self.rest.peek();
        let next = self.rest.get(0).unwrap_or(unit);
        if byte == Some(b'\n') {
            return self.pass(1);
        }
        if !is_in(byte, quotable(self.top.quote == Quote::Double)) {
            return self.add(unit);
        }
        self.pass(1);
        self.add(next);
    }

    /// Reads a unit between `$'` and `'` (XCU 2.2.4). Shells that don't know this find another end at a quote after a backslash.
    pub fn read_dollar(&mut self, unit: Unit) {
        match unit {
            Unit::Byte(b'\'', _) => self.close_quote(unit, Way::Quoted),
            Unit::Byte(b'\\', offset) if self.form.has_dollar_quotes => self.read_escape(offset),
            Unit::Byte(b'\\', offset) => {
                self.output.note_if(self.rest.peek() == Some(b'\''), offset);
                self.pass(1);
            }
            _ => self.add_byte(unit),
        }
    }

    /// Reads an escape sequence. One that doesn't stand for one byte by its letter alone is a hole.
    fn read_escape(&mut self, offset: usize) {
        let next = self.rest.get(0);
        self.pass(1);
        let Some(Unit::Byte(letter, after)) = next else {
            return self.add_hole(offset, offset.saturating_add(1), Way::Quoted);
        };
        // Between backquotes there may be another backslash between the two.
        let is_beside = after == offset.saturating_add(1);
        match escape_byte(letter) {
            Some(byte) if is_beside => self.add(Unit::Escape(byte, offset)),
            _ => self.add_escape(offset, letter),
        }
    }

    /// Adds a hole for the escape sequence with this letter. One that may be a byte 0 ends the text for bash, so that it may be anything.
    fn add_escape(&mut self, offset: usize, letter: u8) {
        let digits = length_of(self.rest, DIGITS);
        let is_zero = length_of(self.rest.take(2), "0") == digits.min(2);
        let has_brace = self.rest.peek() == Some(b'{');
        let (length, may_end) = match letter {
            b'0'..=b'7' | b'x' | b'u' | b'U' => (digits, is_zero || has_brace),
            // After it shells differ in what a backslash quotes.
            b'c' if self.rest.peek() == Some(b'\\') => (2, true),
            b'c' => (usize::from(self.rest.peek() != Some(b'\'')), true),
            _ => (0, false),
        };
        let count = length.saturating_add(1);
        self.pass(count);
        let way = if may_end { Way::Several } else { Way::Quoted };
        self.add_hole(offset, self.end_after(count), way);
    }
}
