//! A state of a run, with its texts.

use sedck_model::{Event, Machine};
use std::alloc::{AllocError, Global};

/// A state of a run, and what the step that led to it did to a file.
#[derive(Drop)]
pub(crate) struct Held<'a> {
    pub at: usize,
    pub flag: bool,
    /// How many lines were read.
    pub read: usize,
    pub pattern: Vec<u8>,
    pub hold: Vec<u8>,
    pub event: Event<'a>,
}

impl<'a> Held<'a> {
    /// Before the first command, with the first line read.
    pub fn begin(alloc: Global, line: &[u8]) -> Result<Held<'a>, AllocError> {
        Ok(Held {
            at: 0,
            flag: false,
            read: 1,
            pattern: Vec::from_slice(alloc, line)?,
            hold: Vec::new(alloc),
            event: Event::Silent,
        })
    }

    /// The same state, from which the next one is made.
    pub fn copied(&self, alloc: Global) -> Result<Held<'a>, AllocError> {
        Ok(Held {
            at: self.at,
            flag: self.flag,
            read: self.read,
            pattern: Vec::from_slice(alloc, &self.pattern)?,
            hold: Vec::from_slice(alloc, &self.hold)?,
            event: Event::Silent,
        })
    }

    /// Whether sed is in the same state in both.
    pub fn is_same(&self, other: &Held) -> bool {
        self.at == other.at
            && self.flag == other.flag
            && self.read == other.read
            && self.pattern == other.pattern
            && self.hold == other.hold
    }

    /// The state as the model has it.
    pub fn machine<'b>(&'b self, lines: &'b [&'b [u8]]) -> Machine<'b> {
        Machine {
            at: self.at,
            flag: self.flag,
            unread: lines.get(self.read..).unwrap_or(&[]),
            pattern: &self.pattern,
            hold: &self.hold,
        }
    }
}
