//! Bracket lists and lists of `y` that are read as POSIX has them, and seldom mean that.

use crate::bytes::{after_any, byte_at, has, has_one_of, is_among};
use crate::looks::Look;
use sedck_parts::{Expression, Place, Reading, expressions_in};
use sedck_report::{Code, end_behind, position_at};
use sedck_script::Location;
use std::alloc::{AllocError, Global};

/// Of the first list with an escape that GNU sed reads as one byte, of the first class without a list around it, and of the first `y` that
/// seems to have ranges: where one is written so, all are.
pub(crate) fn list_looks(
    alloc: Global,
    text: &[u8],
    locations: &[Location],
) -> Result<Vec<Look>, AllocError> {
    let mut looks = Vec::new(alloc);
    let found = found_in(alloc, text, locations)?;
    if let Some(offset) = found.escape {
        looks.push(escape_look(text, offset))?;
    }
    if let Some(List { start, end }) = found.class {
        looks.push(class_look(text, start, end))?;
    }
    if let Some(verb) = found.range {
        looks.push(range_look(text, verb))?;
    }
    Ok(looks)
}

/// What is said of an escape in a list.
fn escape_look(text: &[u8], offset: usize) -> Look {
    let position = position_at(text, offset);
    Look {
        position,
        end: Some(end_behind(text, position, 2)),
        code: Code::BackslashInList,
        message: "in a list POSIX takes this for two bytes, the backslash and the letter; GNU sed and most others take it for one byte, as a tab for `\\t`",
        hint: "write the byte itself, a tab as it is, or a class, as in `[[:blank:]]` or `[[:space:]]`; if the backslash is meant, write it last in \
            the list, as in `[t\\]`",
        fix: None,
    }
}

/// What is said of a class without a list.
fn class_look(text: &[u8], start: usize, end: usize) -> Look {
    let position = position_at(text, start);
    Look {
        position,
        end: Some(end_behind(text, position, end.saturating_sub(start))),
        code: Code::ClassWithoutList,
        message: "this list has a colon and these letters, and no class: GNU sed refuses it",
        hint: "write a class in a list of its own, as in `[[:alpha:]]`; if the colon is meant, write it once, as in `[:a]`",
        fix: None,
    }
}

/// What is said of ranges in a `y`.
fn range_look(text: &[u8], verb: usize) -> Look {
    Look {
        position: position_at(text, verb),
        end: None,
        code: Code::RangeInY,
        message: "`y` has no ranges: here a hyphen stands for itself, and only the letters that are written are replaced",
        hint: "write all letters, as in `y/abc/ABC/`",
        fix: None,
    }
}

/// Where the first of each kind is.
#[derive(Clone, Copy)]
struct Found {
    /// The backslash of an escape.
    escape: Option<usize>,
    class: Option<List>,
    /// The verb of a `y`.
    range: Option<usize>,
}

/// A bracket list, from its `[` to after its `]`.
#[derive(Clone, Copy)]
struct List {
    start: usize,
    end: usize,
}

fn found_in(alloc: Global, text: &[u8], locations: &[Location]) -> Result<Found, AllocError> {
    let mut found = Found {
        escape: None,
        class: None,
        range: None,
    };
    for location in locations {
        for expression in &expressions_in(alloc, text, location.start, location.end)? {
            found.escape = found.escape.or(escape_in(*expression));
            found.class = found.class.or(class_in(*expression));
        }
        let command = text.get(location.verb..location.end).unwrap_or(&[]);
        if found.range.is_none() && has_ranges(command) {
            found.range = Some(location.verb);
        }
    }
    Ok(found)
}

/// Where the first backslash is in a list of the expression that GNU sed takes for one byte with the letter after it.
fn escape_in(expression: Expression) -> Option<usize> {
    let mut reading = Reading::of_expression(expression.delimiter);
    let mut is_escaped = false;
    for (index, byte) in expression.bytes.iter().enumerate() {
        if is_escaped && is_among(*byte, "afrtv") {
            return expression.start.checked_add(index)?.checked_sub(1);
        }
        is_escaped = *byte == b'\\' && is_before_member(reading.place) && !is_escaped;
        reading = reading.after(*byte);
    }
    None
}

/// Whether a member of a list may begin there.
fn is_before_member(place: Place) -> bool {
    matches!(
        place,
        Place::ListBegin | Place::ListNegated | Place::List | Place::ListBracket
    )
}

/// The first list of the expression that is a class without the list around it.
fn class_in(expression: Expression) -> Option<List> {
    let mut reading = Reading::of_expression(expression.delimiter);
    let mut begin = 0usize;
    for (index, byte) in expression.bytes.iter().enumerate() {
        let was_in_list = reading.is_in_list();
        reading = reading.after(*byte);
        if !was_in_list {
            begin = index;
        } else if !reading.is_in_list() {
            let end = index.saturating_add(1);
            if is_bare_class(expression.bytes.get(begin..end).unwrap_or(&[])) {
                return Some(List {
                    start: expression.start.saturating_add(begin),
                    end: expression.start.saturating_add(end),
                });
            }
        }
    }
    None
}

/// Whether GNU sed refuses the list for its colons: one is first, one is last, and between are other bytes, but no range and no class.
fn is_bare_class(list: &[u8]) -> bool {
    let name = colon_name(list).unwrap_or(&[]);
    !after_any(name, ":").is_empty() && !has_one_of(name, "-") && !opens_symbol(name)
}

/// Whether a class or a symbol begins in the members of a list.
fn opens_symbol(members: &[u8]) -> bool {
    has(members, "[:") || has(members, "[.") || has(members, "[=")
}

/// What is between the colons of a list that begins and ends with one.
fn colon_name(list: &[u8]) -> Option<&[u8]> {
    let inside = list.strip_prefix(b"[")?.strip_suffix(b"]")?;
    let members = inside.strip_prefix(b"^").unwrap_or(inside);
    members.strip_prefix(b":")?.strip_suffix(b":")
}

/// Whether both lists of a `y` have what would be a range.
fn has_ranges(command: &[u8]) -> bool {
    let mut reading = Reading::SCRIPT;
    let (mut first, mut second) = (false, false);
    for (index, byte) in command.iter().enumerate() {
        let place = reading.place;
        reading = reading.after(*byte);
        if reading.place == place && is_range(command, index) {
            first = first || place == Place::FirstString;
            second = second || place == Place::SecondString;
        }
    }
    first && second
}

/// Whether the bytes around this one are ends of a range: both digits, capital or small letters, in their order.
fn is_range(bytes: &[u8], index: usize) -> bool {
    let from = byte_at(bytes, index.saturating_sub(1));
    let to = byte_at(bytes, index.saturating_add(1));
    let is_of_one_kind = (from.is_ascii_digit() && to.is_ascii_digit())
        || (from.is_ascii_uppercase() && to.is_ascii_uppercase())
        || (from.is_ascii_lowercase() && to.is_ascii_lowercase());
    byte_at(bytes, index) == b'-' && is_of_one_kind && from < to
}
