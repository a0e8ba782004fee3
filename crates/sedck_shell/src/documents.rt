//! Here-documents (XCU 2.7.4).

use crate::command::ShellWord;
use crate::frame::Quote;
use crate::output::{MISSES, is_lost};
use crate::reader::{Reader, length_of};
use sedck_origin::{Cursor, Unit};

/// A here-document that is awaited.
#[derive(Drop)]
pub(crate) struct Pending {
    /// The line with which it ends, and the offset in the file of the word that has it.
    delimiter: Vec<u8>,
    start: usize,
    quote: Quote,
    /// Whether tabs at the beginnings of lines are left out.
    is_stripped: bool,
    number: usize,
}

impl Reader<'_, '_> {
    /// Awaits a here-document that ends with this word, as the input of the command if it is for descriptor 0.
    pub fn await_body(&mut self, word: ShellWord, is_stripped: bool) {
        let mut delimiter = Vec::new(self.alloc);
        for unit in &word.units {
            match unit.byte() {
                Some(byte) => self.output.is_lost |= is_lost(&mut delimiter, byte),
                None => return self.output.note(word.start),
            }
        }
        let number = self.output.bodies.len();
        self.output.is_lost |= is_lost(&mut self.output.bodies, None);
        if self.top.descriptor == b'0' {
            self.top.here = Some(number);
        } else {
            self.top.command.has_other_here = true;
        }
        let pending = Pending {
            delimiter,
            start: word.start,
            // Where a part of the delimiter is quoted, nothing in the text is expanded.
            quote: if word.is_quoted {
                Quote::Verbatim
            } else {
                Quote::Body
            },
            is_stripped,
            number,
        };
        self.output.is_lost |= is_lost(&mut self.pending, pending);
    }

    /// Takes the here-documents that are awaited, to be read by themselves.
    pub fn read_bodies(&mut self) {
        let pending = std::mem::replace(&mut self.pending, Vec::new(self.alloc));
        for one in &pending {
            if self.output.misses >= MISSES || !self.take_body(one) {
                break;
            }
        }
    }

    /// Takes this one, which begins what isn't read yet, and answers whether its end is there. A line that is joined to the one before isn't the
    /// delimiter, and keeps its tabs.
    fn take_body(&mut self, pending: &Pending) -> bool {
        let mut units = Vec::new(self.alloc);
        let mut rest = self.rest;
        let mut is_joined = false;
        for _ in 0..self.rest.len().saturating_add(1) {
            let is_stripped = pending.is_stripped && !is_joined;
            let tabs = if is_stripped {
                length_of(rest, "\t")
            } else {
                0
            };
            let line = rest.skip(tabs);
            let (inner, behind) = line.split_line();
            if !is_joined && inner.is(&pending.delimiter) {
                self.rest = behind;
                self.output
                    .add_job(units, pending.quote, Some(pending.number));
                return true;
            }
            let is_joint = self.add_line(&mut units, line.before(behind));
            is_joined = is_joint && pending.quote == Quote::Body;
            if inner.len() == line.len() {
                break;
            }
            rest = behind;
        }
        self.output.miss(pending.start);
        false
    }

    /// Adds the units of the line, and answers whether a backslash before its newline joins it to the next one.
    fn add_line(&mut self, units: &mut Vec<Unit>, line: Cursor) -> bool {
        let mut rest = line;
        let mut is_quoted = false;
        let mut is_joint = false;
        for _ in 0..line.len() {
            let Some((unit, behind)) = rest.split_first() else {
                break;
            };
            rest = behind;
            is_joint = is_quoted;
            is_quoted = !is_quoted && unit.byte() == Some(b'\\');
            self.output.is_lost |= is_lost(units, unit);
        }
        is_joint
    }
}
