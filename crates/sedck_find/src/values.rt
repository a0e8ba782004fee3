//! The values of variables.

use crate::units::has_any;
use sedck_found::{Followed, KnownValue};
use sedck_origin::{Result, Unit, Way};
use std::alloc::Global;

/// The most values of a variable that are judged.
pub(crate) const MOST: usize = 4;

/// A value of a variable.
#[derive(Drop)]
pub(crate) struct Value {
    /// Its bytes; those of one that was given have no place in the file. What is unknown is a hole.
    pub units: Vec<Unit>,
    /// Whether the file doesn't have each of its bytes.
    pub has_hole: bool,
    /// Whether it may be several words where a shell expands it, or others than it has: it has blanks, or bytes as those of patterns.
    has_blanks: bool,
    has_special: bool,
    /// Whether it has bytes that change what a shell reads.
    has_quoting: bool,
    /// Whether it was given with the call of this program.
    pub is_given: bool,
    /// The file has it from this offset on ..
    pub start: usize,
    /// .. to before this one; both are 0 if it has no byte.
    pub end: usize,
    /// The variables in it that are replaced by their values.
    pub parts: Vec<Followed>,
}

impl Value {
    /// One of these units that the file writes.
    pub fn new(alloc: Global, units: Vec<Unit>) -> Value {
        let mut value = Value {
            has_hole: false,
            has_blanks: false,
            has_special: false,
            has_quoting: false,
            is_given: false,
            start: units.first().map_or(0, |first| first.start()),
            end: units.last().map_or(0, |last| last.end()),
            units,
            parts: Vec::new(alloc),
        };
        value.mark();
        value
    }

    /// Looks through its units once, since a value may be used many times.
    pub fn mark(&mut self) {
        self.has_hole = has_open(&self.units);
        self.has_blanks = has_any(&self.units, BLANKS);
        self.has_special = has_any(&self.units, SPECIAL);
        self.has_quoting = has_any(&self.units, QUOTING);
    }

    /// One of these bytes that was given.
    pub fn given(alloc: Global, bytes: &[u8]) -> Result<Value> {
        let mut units = Vec::new(alloc);
        for byte in bytes {
            units.push(Unit::Byte(*byte, 0))?;
        }
        let mut value = Value::new(alloc, units);
        value.is_given = true;
        Ok(value)
    }

    /// How much it is to put it into another one.
    pub fn cost(&self) -> usize {
        self.units
            .len()
            .saturating_add(self.parts.len())
            .saturating_add(1)
    }

    /// Whether it is another one: the file has it in the same words.
    pub fn is_same(&self, other: &Value, file: &[u8]) -> bool {
        self.units.len() == other.units.len()
            && file.get(self.start..self.end) == file.get(other.start..other.end)
    }

    /// Whether a shell leaves the value as it is where it comes into a word in this way.
    pub fn is_kept(&self, way: Way) -> bool {
        let may_split = self.has_blanks || self.has_special;
        let is_read = way.is_made() && self.has_quoting;
        way != Way::Several && !(way.is_split() && may_split) && !is_read
    }

    /// Whether a shell makes the words of it that blanks separate.
    pub fn is_plain(&self) -> bool {
        !self.has_quoting && !self.has_special
    }

    /// Where it comes from: the file has it on this line.
    pub fn source(&self, line: usize) -> KnownValue {
        match self.units.as_slice() {
            _ if self.is_given => KnownValue::Given,
            [] => KnownValue::Empty,
            _ => KnownValue::Line(line),
        }
    }
}

/// The bytes that separate the words of a value.
const BLANKS: &str = " \t\n";

/// Those that may match names of files, or be operators where the value is read.
const SPECIAL: &str = "*?[;&|<>()#~{";

/// Those that change what a shell reads, also between double quotes.
const QUOTING: &str = "'\"\\$`\n";

/// Whether the file doesn't have each of the bytes.
fn has_open(units: &[Unit]) -> bool {
    units.iter().any(|unit| !matches!(*unit, Unit::Byte(..)))
}

/// Whether the unit separates the words of a value.
pub(crate) fn is_blank(unit: &Unit) -> bool {
    matches!(unit.byte(), Some(b' ' | b'\t' | b'\n'))
}

/// The offset of each line's first byte.
pub(crate) fn line_starts(alloc: Global, file: &[u8]) -> Result<Vec<usize>> {
    let mut starts = Vec::new(alloc);
    starts.push(0usize)?;
    for (index, byte) in file.iter().enumerate() {
        if *byte == b'\n' {
            starts.push(index.saturating_add(1))?;
        }
    }
    Ok(starts)
}
