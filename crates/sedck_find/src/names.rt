//! The constants of a file: the values that its text writes for a variable. Who else may set it isn't asked, since that it has such a value is
//! a condition of the answer.

use crate::macros::Macros;
use crate::units::{hole_of, is_assignment, is_word_in, rest};
use crate::values::{MOST, Value};
use sedck_found::{Assumptions, Followed};
use sedck_kinds::Kind;
use sedck_origin::{Hole, Result, Unit, byte_at, hole_name, name_length};
use sedck_shell::{Form, ShellWord};
use std::alloc::Global;
use std::collections::BTreeMap;

/// Utilities whose operands may be assignments.
const DECLARING: &str = "export readonly local declare typeset";

/// What is known of the variables of a file.
#[derive(Drop)]
pub(crate) struct Names<'a> {
    pub alloc: Global,
    pub kind: Kind,
    pub form: Form,
    pub file: &'a [u8],
    pub assumed: Assumptions<'a>,
    /// The values of the variables that are assumed, in their order.
    pub given: Vec<Value>,
    /// The values that the file's text writes for each name, of which no two are the same: one more than are judged at most.
    pub written: BTreeMap<Vec<u8>, Vec<Value>>,
    /// How many units and variables may yet be put into values, so that the time stays linear.
    pub left: usize,
    pub macros: Macros<'a>,
    /// The offset of each line's first byte.
    pub lines: Vec<usize>,
}

impl<'a> Names<'a> {
    /// Notes the values that a command with these words assigns: alone, or as operands of a utility that declares variables. In a makefile
    /// variables are make's.
    pub fn note_command(&mut self, words: &[ShellWord]) -> Result<()> {
        let name = words.iter().position(|word| !is_assignment(&word.units));
        let assigned = match name.and_then(|number| words.get(number..)) {
            None => words,
            Some([name, operands @ ..]) if is_word_in(&name.units, DECLARING) => operands,
            Some(_) => &[],
        };
        for word in assigned {
            let length = name_length(&word.units);
            let is_value = byte_at(&word.units, length) == Some(b'=');
            if is_value && is_assignment(&word.units) && !self.is_make() {
                let name = word.units.iter().take(length).map_while(|unit| unit.byte());
                let name: Vec<u8> = name.collect(self.alloc)?;
                self.note(&name, rest(&word.units, length.saturating_add(1)))?;
            }
        }
        Ok(())
    }

    /// Notes that the text writes this value for the name.
    pub fn note(&mut self, name: &[u8], units: &[Unit]) -> Result<()> {
        let value = self.built(units)?;
        let added = value.cost().saturating_sub(units.len());
        self.left = self.left.saturating_sub(added);
        if self.written.get(name).is_none() {
            let name = Vec::from_slice(self.alloc, name)?;
            self.written.insert(name, Vec::new(self.alloc))?;
        }
        let file = self.file;
        if let Some(values) = self.written.get_mut(name) {
            let is_new = !values.iter().any(|one| one.is_same(&value, file));
            if is_new && values.len() <= MOST {
                values.push(value)?;
            }
        }
        Ok(())
    }

    /// The value of these units, with the values in place of the variables that have just one so far, as long as there is room.
    fn built(&self, units: &[Unit]) -> Result<Value> {
        let mut value = Value::new(self.alloc, Vec::from_slice(self.alloc, units)?);
        if !value.has_hole {
            return Ok(value);
        }
        let mut left = self.left;
        value.units.clear();
        for unit in units {
            let part = hole_of(unit).and_then(|hole| self.written_for(hole));
            match (*unit, part) {
                (Unit::Hole(hole), Some([part])) if !part.is_given && part.cost() <= left => {
                    left = left.saturating_sub(part.cost());
                    value.units.extend_from_slice(&part.units)?;
                    value.parts.push(self.followed(hole, part))?;
                    value.parts.extend_from_slice(&part.parts)?;
                }
                _ => value.units.push(*unit)?,
            }
        }
        value.mark();
        Ok(value)
    }

    /// The value of the variable that was given with the call of this program.
    fn given_for(&self, name: &[u8]) -> Option<&[Value]> {
        let mut assumed = self.assumed.variables.iter();
        let place = assumed.position(|one| one.name == name)?;
        self.given.get(place..place.saturating_add(1))
    }

    /// What the file has in place of the hole.
    pub fn written_hole(&self, hole: Hole) -> &'a [u8] {
        self.file.get(hole.start..hole.end).unwrap_or(&[])
    }

    /// Whether the file is a makefile.
    pub fn is_make(&self) -> bool {
        self.kind == Kind::Make
    }

    /// The name of the variable that is the hole, if its value may be given with the call of this program.
    pub fn variable_at(&self, hole: Hole) -> Option<&'a [u8]> {
        replaced_name(self.written_hole(hole), self.kind)
    }

    /// What the text writes for the hole, also what isn't known as a whole; or what was given for it.
    pub fn written_for(&self, hole: Hole) -> Option<&[Value]> {
        let name = self.variable_at(hole)?;
        if let Some(given) = self.given_for(name) {
            return Some(given);
        }
        // A template's `@NAME@`, and in a makefile a variable of the shell, aren't set by the file.
        let is_template = self.file.get(hole.start) == Some(&b'@');
        let is_doubled = self.file.get(hole.start.wrapping_sub(1)) == Some(&b'$');
        let is_other = is_template || (self.is_make() && is_doubled);
        let values = self.written.get(name).filter(|_| !is_other)?;
        Some(values.as_slice())
    }

    /// The values of which one replaces the hole, which is a condition. There are none where one isn't known, or where there are too many.
    pub fn values_of(&self, hole: Hole) -> Option<&[Value]> {
        let values = self.written_for(hole)?;
        let are_known = values.len() <= MOST && !values.iter().any(|one| one.has_hole);
        are_known.then_some(values)
    }

    /// The value that replaces the hole in all cases.
    pub fn value_of(&self, hole: Hole) -> Option<&Value> {
        match self.values_of(hole)? {
            [value] => Some(value),
            _ => None,
        }
    }

    /// That the hole is replaced by the value.
    pub fn followed(&self, hole: Hole, value: &Value) -> Followed {
        let line = self.lines.partition_point(|start| *start <= value.start);
        Followed {
            start: hole.start,
            end: hole.end,
            value: value.source(line),
            from: value.start,
            to: value.end,
        }
    }
}

/// The name of the variable whose value replaces all that is written: `$NAME`, `${NAME}`, `@NAME@`, and make's `$(NAME)`.
fn replaced_name(written: &[u8], kind: Kind) -> Option<&[u8]> {
    let name = hole_name(written)?;
    if let Some(b'0'..=b'9') = name.first() {
        return None;
    }
    let is_name = match written.len().saturating_sub(name.len()) {
        3 if written.starts_with(b"${") => written.ends_with(b"}"),
        3 if written.starts_with(b"$(") => written.ends_with(b")") && kind == Kind::Make,
        2 => written.starts_with(b"@") && written.ends_with(b"@"),
        1 => written.starts_with(b"$"),
        _ => false,
    };
    is_name.then_some(name)
}
