//! Columns in characters.

use crate::letters::first_letter;
use sedck_report::Position;
use std::alloc::{AllocError, Global};

/// Where the bytes of a text are that are a character's, but not its first one. A byte that is part of no character counts as one.
#[derive(Drop)]
pub(crate) struct Columns {
    /// Their offsets, in order.
    inside: Vec<usize>,
}

impl Columns {
    /// Those of the text.
    pub(crate) fn of(alloc: Global, text: &[u8]) -> Result<Columns, AllocError> {
        let mut inside = Vec::new(alloc);
        let mut end = 0usize;
        for offset in 0..text.len() {
            if offset < end {
                inside.push(offset)?;
            } else {
                let letter = first_letter(text.get(offset..).unwrap_or(&[]));
                end = offset.saturating_add(letter.map_or(1, |(_, length)| length));
            }
        }
        Ok(Columns { inside })
    }

    /// The column, from 1, of the character whose byte is at the position.
    pub(crate) fn start(&self, position: Position) -> usize {
        let next = position.offset.saturating_add(1);
        self.column(position, next)
    }

    /// The column, from 1, of the character that follows the byte before the position, or that byte's character.
    pub(crate) fn end(&self, position: Position) -> usize {
        self.column(position, position.offset)
    }

    /// The column in bytes, without the later bytes of characters in its line before this offset.
    fn column(&self, position: Position, offset: usize) -> usize {
        let start = position
            .offset
            .saturating_sub(position.column.saturating_sub(1));
        let inside = self
            .count_before(offset)
            .saturating_sub(self.count_before(start));
        position.column.saturating_sub(inside).max(1)
    }

    /// How many of the bytes are before this offset.
    fn count_before(&self, offset: usize) -> usize {
        self.inside.partition_point(|inside| *inside < offset)
    }
}
