//! A cursor over the units of a text.

use crate::hole::is_name_byte;
use crate::unit::{Text, Unit};

/// The units of a text that haven't been read yet.
#[derive(Clone, Copy)]
pub enum Cursor<'a> {
    /// Bytes of a file, and the offset of the first.
    File(&'a [u8], usize),
    Units(&'a [Unit]),
}

impl<'a> Cursor<'a> {
    /// The beginning of the text.
    pub fn new(text: Text<'a>) -> Cursor<'a> {
        match text {
            Text::Whole(file) => Cursor::File(file, 0),
            Text::Units(units) => Cursor::Units(units),
        }
    }

    /// How many units are left.
    pub fn len(self) -> usize {
        match self {
            Cursor::File(bytes, _) => bytes.len(),
            Cursor::Units(units) => units.len(),
        }
    }

    /// The unit after so many.
    pub fn get(self, count: usize) -> Option<Unit> {
        match self {
            Cursor::File(bytes, offset) => match bytes.get(count) {
                Some(byte) => Some(Unit::Byte(*byte, offset.saturating_add(count))),
                None => None,
            },
            Cursor::Units(units) => units.get(count).copied(),
        }
    }

    /// The byte of the unit after so many; none where it is a hole, or no more are left.
    pub fn byte(self, count: usize) -> Option<u8> {
        self.get(count)?.byte()
    }

    /// The byte of the next unit.
    pub fn peek(self) -> Option<u8> {
        self.byte(0)
    }

    /// The cursor so many units on.
    pub fn skip(self, count: usize) -> Cursor<'a> {
        match self {
            Cursor::File(bytes, offset) => {
                let rest = bytes.get(count..).unwrap_or(&[]);
                Cursor::File(rest, offset.saturating_add(count))
            }
            Cursor::Units(units) => Cursor::Units(units.get(count..).unwrap_or(&[])),
        }
    }

    /// The cursor before so many of the next units alone.
    pub fn take(self, count: usize) -> Cursor<'a> {
        match self {
            Cursor::File(bytes, offset) => {
                Cursor::File(bytes.get(..count).unwrap_or(bytes), offset)
            }
            Cursor::Units(units) => Cursor::Units(units.get(..count).unwrap_or(units)),
        }
    }

    /// The next unit, and the cursor behind it.
    pub fn split_first(self) -> Option<(Unit, Cursor<'a>)> {
        Some((self.get(0)?, self.skip(1)))
    }

    /// The cursor behind the next byte of this value; none where no unit is one.
    pub fn behind(self, byte: u8) -> Option<Cursor<'a>> {
        let mut rest = self;
        for _ in 0..self.len() {
            let is_found = rest.peek() == Some(byte);
            rest = rest.skip(1);
            if is_found {
                return Some(rest);
            }
        }
        None
    }

    /// The cursor before what is left of it.
    pub fn before(self, rest: Cursor) -> Cursor<'a> {
        self.take(self.len().saturating_sub(rest.len()))
    }

    /// The next line without its newline, and the cursor behind that.
    pub fn split_line(self) -> (Cursor<'a>, Cursor<'a>) {
        match self.behind(b'\n') {
            Some(rest) => (self.take(self.before(rest).len().saturating_sub(1)), rest),
            None => (self, self.skip(self.len())),
        }
    }

    /// Whether what is left are these bytes.
    pub fn is(self, bytes: &[u8]) -> bool {
        let mut rest = self;
        for byte in bytes {
            if rest.peek() != Some(*byte) {
                return false;
            }
            rest = rest.skip(1);
        }
        rest.len() == 0
    }

    /// How many of the next units are letters, digits and underscores, before others.
    pub fn name_length(self) -> usize {
        let mut rest = self;
        for count in 0..self.len() {
            if !rest.peek().is_some_and(is_name_byte) {
                return count;
            }
            rest = rest.skip(1);
        }
        self.len()
    }

    /// The offset in the file where the next unit begins; 0 where none is left.
    pub fn start(self) -> usize {
        self.get(0).map_or(0, Unit::start)
    }
}
