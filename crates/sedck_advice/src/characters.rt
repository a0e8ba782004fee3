//! Where bytes above 127 are repeated by themselves, are in no whole character, or are in lists of `y`, and the characters of UTF-8 of
//! which they are parts.

use crate::bytes::{byte_at, first_bytes};
use sedck_parts::{Expression, Reading, expressions_in};
use sedck_report::skipped;
use sedck_script::{Location, Part, Pattern, Script, Verb};
use std::alloc::{AllocError, Global};
use std::str;

/// A byte above 127 in the text of a script, with the whole character that ends or begins with it, if it is a part of one.
#[derive(Clone, Copy)]
pub(crate) struct Character {
    pub start: usize,
    /// Its length in bytes.
    pub length: usize,
    /// The character itself, where a group around it changes nothing for a sed that repeats characters.
    pub grouped: Option<char>,
}

/// The first such byte of the command that is repeated by itself, or else that is in no whole character, or in a list of `y`.
pub(crate) fn character_in(
    alloc: Global,
    text: &[u8],
    location: Location,
) -> Result<Option<Character>, AllocError> {
    let command = text.get(location.start..location.end).unwrap_or(&[]);
    let expressions = expressions_in(alloc, text, location.start, location.end)?;
    for expression in &expressions {
        if let Some(character) = repeated_in(*expression, command) {
            return Ok(Some(character));
        }
    }
    for expression in &expressions {
        if let Some(character) = broken_in(*expression) {
            return Ok(Some(character));
        }
    }
    Ok(listed_in(text, location))
}

/// The first byte of the expression that is in no whole character.
fn broken_in(expression: Expression) -> Option<Character> {
    let Err(fault) = str::from_utf8(expression.bytes) else {
        return None;
    };
    Some(Character {
        start: expression.start.saturating_add(fault.valid_up_to()),
        length: 1,
        grouped: None,
    })
}

/// The first byte above 127 that the expression repeats by itself.
fn repeated_in(expression: Expression, command: &[u8]) -> Option<Character> {
    let mut reading = Reading::of_expression(expression.delimiter);
    let mut groups = 0usize;
    for (index, byte) in expression.bytes.iter().enumerate() {
        let end = index.saturating_add(1);
        let rest = skipped(expression.bytes, end);
        if *byte > 127 && !reading.is_in_list() && is_repeated(rest) {
            let may_be_grouped = may_be_grouped(expression, command, groups);
            return Some(character_before(expression, end, may_be_grouped));
        }
        if reading.is_escaped && *byte == b'(' {
            groups = groups.saturating_add(1);
        }
        reading = reading.after(*byte);
    }
    None
}

/// Whether this begins with a sign of repetition.
fn is_repeated(rest: &[u8]) -> bool {
    rest.starts_with(b"*") || rest.starts_with(b"\\{")
}

/// The character that ends here in the expression, or its last byte.
fn character_before(expression: Expression, end: usize, may_be_grouped: bool) -> Character {
    let before = first_bytes(expression.bytes, end);
    for length in 2..=4usize {
        let start = end.saturating_sub(length);
        if let Some(character) = only_character(skipped(before, start)) {
            return Character {
                start: expression.start.saturating_add(start),
                length,
                grouped: may_be_grouped.then_some(character),
            };
        }
    }
    Character {
        start: expression.start.saturating_add(end.saturating_sub(1)),
        length: 1,
        grouped: None,
    }
}

/// The character of UTF-8 that these bytes are.
fn only_character(bytes: &[u8]) -> Option<char> {
    let Ok(text) = str::from_utf8(bytes) else {
        return None;
    };
    let mut characters = text.chars();
    let first = characters.next()?;
    match characters.next() {
        Some(_) => None,
        None => Some(first),
    }
}

/// The most groups of an expression that may get one more: an expression may have groups in 32 others.
const MOST_GROUPS: usize = 31;

/// Whether a group after so many others may be written there, and changes the number of none to which the command refers. Beside a
/// reference no group may be repeated.
fn may_be_grouped(expression: Expression, command: &[u8], before: usize) -> bool {
    !matches!(expression.delimiter, b'(' | b')' | 128..=255)
        && groups_in(expression.bytes) <= MOST_GROUPS
        && highest_reference(expression.bytes) == 0
        && highest_reference(command) <= before
}

/// How many groups these bytes may open.
fn groups_in(bytes: &[u8]) -> usize {
    let mut groups = 0usize;
    let mut is_behind_backslash = false;
    for byte in bytes {
        if is_behind_backslash && *byte == b'(' {
            groups = groups.saturating_add(1);
        }
        is_behind_backslash = *byte == b'\\';
    }
    groups
}

/// The highest number that may be a reference in these bytes.
fn highest_reference(bytes: &[u8]) -> usize {
    let mut highest = 0usize;
    let mut is_behind_backslash = false;
    for byte in bytes {
        if is_behind_backslash && byte.is_ascii_digit() {
            highest = highest.max(usize::from(byte.saturating_sub(b'0')));
        }
        is_behind_backslash = *byte == b'\\';
    }
    highest
}

/// The first byte above 127 in the lists of `y`, where that is the command.
fn listed_in(text: &[u8], location: Location) -> Option<Character> {
    let command = text.get(location.verb..location.end).unwrap_or(&[]);
    if !command.starts_with(b"y") {
        return None;
    }
    for (index, byte) in command.iter().enumerate() {
        if *byte > 127 && *byte != byte_at(command, 1) {
            return Some(Character {
                start: location.verb.saturating_add(index),
                length: length_of_first(skipped(command, index)),
                grouped: None,
            });
        }
    }
    None
}

/// How many bytes the first character has, or 1 where the first byte begins none.
fn length_of_first(bytes: &[u8]) -> usize {
    for length in 2..=4usize {
        if only_character(first_bytes(bytes, length)).is_some() {
            return length;
        }
    }
    1
}

/// Whether a replacement for an expression of another command, which is written as an empty one, names a group of it.
pub(crate) fn names_other_groups(script: &Script) -> bool {
    for command in script.commands() {
        if let Verb::Substitute(substitution) = &command.verb
            && matches!(substitution.pattern, Pattern::Previous)
        {
            for part in &substitution.parts {
                if matches!(*part, Part::Group(_)) {
                    return true;
                }
            }
        }
    }
    false
}
