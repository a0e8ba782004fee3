//! The units of a text that is taken from a file.

ghost use Rattle.std.specs.Prelude.{◌≡◌};
ghost use Rattle.sedck_origin.specs.Texts.{length_of, unit_at};

use crate::hole::{Hole, Way, is_name_byte};
use std::alloc::AllocError;

/// What is answered where memory may run out.
pub type Result<T> = std::result::Result<T, AllocError>;

/// A unit of a text that is taken from a file.
#[derive(Clone, Copy)]
pub enum Unit {
    /// This byte, which the file has at the offset.
    Byte(u8, usize),
    /// This byte, for which the escape sequence stands whose backslash is at the offset.
    Escape(u8, usize),
    /// What isn't known before a run.
    Hole(Hole),
}

impl Unit {
    /// What replaces the bytes of the file from the first offset on to before the second one, before a shell reads the text.
    pub fn made(start: usize, end: usize) -> Unit {
        let way = Way::MadeBare;
        Unit::Hole(Hole { start, end, way })
    }

    /// The byte that it is, unless it is a hole.
    pub fn byte(self) -> Option<u8> {
        match self {
            Unit::Byte(byte, _) | Unit::Escape(byte, _) => Some(byte),
            Unit::Hole(_) => None,
        }
    }

    /// The offset in the file where it begins.
    pub fn start(self) -> usize {
        match self {
            Unit::Byte(_, offset) | Unit::Escape(_, offset) => offset,
            Unit::Hole(hole) => hole.start,
        }
    }

    /// The offset in the file of the first byte after it.
    pub fn end(self) -> usize {
        match self {
            Unit::Byte(_, offset) => offset.saturating_add(1),
            Unit::Escape(_, offset) => offset.saturating_add(2),
            Unit::Hole(hole) => hole.end,
        }
    }
}

/// A text: a whole file, or units that were taken from one.
#[derive(Clone, Copy)]
pub enum Text<'a> {
    Whole(&'a [u8]),
    Units(&'a [Unit]),
}

impl Text<'_> {
    /// How many units the text has.
    pub fn len(self) -> usize
        ensures { result ≡ length_of self.entry }
    {
        match self {
            Text::Whole(file) => file.len(),
            Text::Units(units) => units.len(),
        }
    }

    /// The unit of this number, from 0.
    pub fn get(self, index: usize) -> Option<Unit>
        ensures { result ≡ unit_at self.entry index }
    {
        match self {
            Text::Whole(file) => match file.get(index) {
                Some(byte) => Some(Unit::Byte(*byte, index)),
                None => None,
            },
            Text::Units(units) => units.get(index).copied(),
        }
    }
}

/// The byte of the unit of this number; none where it is a hole, or the units end before.
pub fn byte_at(units: &[Unit], index: usize) -> Option<u8> {
    units.get(index)?.byte()
}

/// Whether the units are this text.
pub fn is_text(units: &[Unit], text: &str) -> bool {
    units.len() == text.len() && begins_with(units, text)
}

/// Whether the units begin with this text.
pub fn begins_with(units: &[Unit], text: &str) -> bool {
    text.len() <= units.len()
        && units
            .iter()
            .zip(text.as_bytes())
            .all(|(unit, byte)| unit.byte() == Some(*byte))
}

/// Whether the units are one of these words.
pub fn is_one_of(units: &[Unit], words: &[&str]) -> bool {
    words.iter().any(|word| is_text(units, word))
}

/// Whether the bytes are one of these words.
pub fn is_among(bytes: &[u8], words: &[&str]) -> bool {
    words.iter().any(|word| word.as_bytes() == bytes)
}

/// What the list has the name for.
pub fn named<T: Copy>(list: &[(T, &[&str])], name: &[u8]) -> Option<T> {
    for (meant, names) in list {
        if is_among(name, names) {
            return Some(*meant);
        }
    }
    None
}

/// How many of the units are letters, digits and underscores, before others.
pub fn name_length(units: &[Unit]) -> usize {
    units
        .iter()
        .position(|unit| !unit.byte().is_some_and(is_name_byte))
        .unwrap_or(units.len())
}
