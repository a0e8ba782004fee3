//! Units of words.

use sedck_origin::{Hole, Result, Unit, begins_with, byte_at, is_text, name_length};
use std::alloc::Global;

/// The bytes of the units, if none is a hole.
pub(crate) fn bytes_of(alloc: Global, units: &[Unit]) -> Result<Option<Vec<u8>>> {
    let mut bytes = Vec::new(alloc);
    for unit in units {
        match unit.byte() {
            Some(byte) => bytes.push(byte)?,
            None => return Ok(None),
        }
    }
    Ok(Some(bytes))
}

/// Those from this number on.
pub(crate) fn rest<T>(items: &[T], from: usize) -> &[T] {
    items.get(from..).unwrap_or(&[])
}

/// The units after the last `/`.
pub(crate) fn last_part(units: &[Unit]) -> &[Unit] {
    let mut parts = units.rsplit(|unit| unit.byte() == Some(b'/'));
    parts.next().unwrap_or(units)
}

/// The units before the first hole.
pub(crate) fn known_part(units: &[Unit]) -> &[Unit] {
    let mut parts = units.split(|unit| unit.byte().is_none());
    parts.next().unwrap_or(units)
}

/// The hole that the unit is, if it is one.
pub(crate) fn hole_of(unit: &Unit) -> Option<Hole> {
    match *unit {
        Unit::Hole(hole) => Some(hole),
        _ => None,
    }
}

/// The hole that the units are, if they are one alone.
pub(crate) fn lone_hole(units: &[Unit]) -> Option<Hole> {
    match units {
        [unit] => hole_of(unit),
        _ => None,
    }
}

/// Whether a part of the units is unknown.
pub(crate) fn has_hole(units: &[Unit]) -> bool {
    known_part(units).len() < units.len()
}

/// Whether it is unknown how the units begin.
pub(crate) fn begins_open(units: &[Unit]) -> bool {
    !units.is_empty() && byte_at(units, 0).is_none()
}

/// Whether the units begin with a hyphen, as options do.
pub(crate) fn is_option(units: &[Unit]) -> bool {
    byte_at(units, 0) == Some(b'-')
}

/// Whether the units are a hyphen and no second one after it: letters of options, if there are any.
pub(crate) fn is_letters(units: &[Unit]) -> bool {
    is_option(units) && byte_at(units, 1) != Some(b'-')
}

/// The number of the first unit that is one of these bytes.
pub(crate) fn place_of(units: &[Unit], bytes: &str) -> Option<usize> {
    let bytes = bytes.as_bytes();
    let mut known = units.iter().map(|unit| unit.byte());
    known.position(|byte| byte.is_some_and(|byte| bytes.contains(&byte)))
}

/// Whether the units have one of these bytes.
pub(crate) fn has_any(units: &[Unit], bytes: &str) -> bool {
    place_of(units, bytes).is_some()
}

/// Whether the units are letters of options, of which one is this one.
pub(crate) fn has_letter(units: &[Unit], letter: &str) -> bool {
    is_letters(units) && has_any(units, letter)
}

/// Whether the name is one of these words, which have spaces between.
pub(crate) fn is_one_in(name: &[u8], words: &str) -> bool {
    let mut words = words.as_bytes().split(|byte| *byte == b' ');
    words.any(|word| word == name)
}

/// Whether the units are one of these words, which have spaces between.
pub(crate) fn is_word_in(units: &[Unit], words: &str) -> bool {
    words.split(' ').any(|word| is_text(units, word))
}

/// Whether the word is an assignment: a name, and after it `=`, `+=`, or these after a number in brackets.
pub(crate) fn is_assignment(units: &[Unit]) -> bool {
    let length = name_length(units);
    let sign = rest(units, length);
    let subscript = sign.iter().position(|unit| unit.byte() == Some(b']'));
    let sign = match subscript {
        Some(place) if begins_with(sign, "[") => rest(sign, place.saturating_add(1)),
        _ => sign,
    };
    let is_digit = byte_at(units, 0).is_some_and(|first| first.is_ascii_digit());
    length > 0 && !is_digit && (begins_with(sign, "=") || begins_with(sign, "+="))
}

/// Whether an assignment of LC_ALL is one of C or of POSIX, where a character is a byte; none of another variable.
pub(crate) fn is_c_locale(units: &[Unit]) -> Option<bool> {
    let is_c = is_word_in(units, "LC_ALL=C LC_ALL=POSIX");
    begins_with(units, "LC_ALL").then_some(is_c)
}
