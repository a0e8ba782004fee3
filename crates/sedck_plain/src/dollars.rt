//! The `$` of expressions that stand for themselves. In front of a `)` or a bar GNU sed's matcher takes one without a backslash for an
//! anchor, so that it finds nothing there. A program knows such a byte without saying how it was written.

ghost use Rattle.std.specs.Prelude.{◌≤◌, length, IfOk};

use crate::written::{Position, after};
use sedck_commands::Location;
use std::alloc::{AllocError, Global};

/// Of each `$` in the expressions of the command at this location, outside of bracket lists: whether it has no backslash, and a `)` or a bar
/// is after it.
pub(crate) fn bare_dollars(
    alloc: Global,
    text: &[u8],
    location: Location,
) -> Result<Vec<bool>, AllocError> {
    let mut dollars = Vec::new(alloc);
    let mut rest = text.get(location.start..).unwrap_or(&[]);
    'pieces: loop {
        match rest {
            [b'0'..=b'9' | b' ' | b'\t' | b'!' | b'$' | b',', behind @ ..] => rest = behind,
            [b'/', inside @ ..] => rest = push_dollars(&mut dollars, b'/', inside)?,
            [b'\\', delimiter, inside @ ..] => {
                rest = push_dollars(&mut dollars, *delimiter, inside)?;
            }
            [b's', delimiter, inside @ ..] => {
                push_dollars(&mut dollars, *delimiter, inside)?;
                return Ok(dollars);
            }
            _ => return Ok(dollars),
        }
    }
}

/// Adds those of the expression that this delimiter ends. Answers what follows it.
fn push_dollars<'a>(
    dollars: &mut Vec<bool>,
    delimiter: u8,
    text: &'a [u8],
) -> Result<&'a [u8], AllocError>
    ensures { IfOk result (λ rest. length rest.now ≤ length text.entry.now) }
{
    let mut position = Position::Outside;
    let mut rest = text;
    'bytes: loop {
        match rest {
            [first, behind @ ..] if *first == delimiter => return Ok(behind),
            [b'\\', next, behind @ ..] => {
                let is_outside = matches!(position, Position::Outside);
                if is_outside && *next == b'$' && delimiter != b'$' {
                    dollars.push(false)?;
                }
                // The backslash of a delimiter isn't one of the expression.
                let begun = if *next == delimiter {
                    position
                } else {
                    after(position, b'\\')
                };
                position = after(begun, *next);
                rest = behind;
            }
            [first, behind @ ..] => {
                if *first == b'$' && matches!(position, Position::Outside) {
                    dollars.push(matches!(behind, [b')' | b'|', ..]))?;
                }
                position = after(position, *first);
                rest = behind;
            }
            [] => return Ok(rest),
        }
    }
}
