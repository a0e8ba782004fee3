//! What is around a fault, as far as a hint depends on it.

use crate::bytes::{
    DIGITS, after_any, before_any, byte_at, ends_escaped, first_bytes, has_one_of, is_among,
    without_blanks,
};
use sedck_parts::{Place, Reading};
use sedck_report::skipped;

/// Where a fault is, and what is around it.
#[derive(Clone, Copy)]
pub struct Spot<'a> {
    /// The script up to the fault.
    pub before: &'a [u8],
    /// The script from the fault on.
    pub rest: &'a [u8],
    /// Where the expression begins in which the fault is; 0 for any other fault.
    pub expression: usize,
}

/// What an expression is for.
#[derive(Clone, Copy)]
pub enum Purpose {
    /// The expression of `s`.
    Replaces,
    /// That of `s` with the flag `g`.
    ReplacesAll,
    /// One of two addresses.
    Range,
    /// The address of a command with `!`.
    Unless,
    /// The address of `d`.
    Deletes,
    /// The address of another command.
    Selects,
}

impl<'a> Spot<'a> {
    /// The delimiter of the expression.
    pub fn delimiter(self) -> u8 {
        self.before
            .get(self.expression.saturating_sub(1))
            .copied()
            .unwrap_or(b'/')
    }

    /// A reader of the expression at the fault.
    pub fn reading(self) -> Reading {
        Reading::of_expression(self.delimiter()).through(self.inside())
    }

    /// A reader of the script at the fault. What is before is read as POSIX has it, but for the expression that has the fault.
    pub(crate) fn in_script(self) -> Reading {
        Reading::SCRIPT.through(self.before)
    }

    /// The expression up to the fault.
    pub(crate) fn inside(self) -> &'a [u8] {
        skipped(self.before, self.expression)
    }

    /// Whether nothing precedes the fault in its expression or group, but for an anchor.
    pub fn begins(self) -> bool {
        let inside = self.inside();
        let inside = inside.strip_suffix(b"^").unwrap_or(inside);
        inside.is_empty() || ends_escaped(inside, b'(')
    }

    /// The expression from the fault on, with the delimiter that ends it.
    pub fn left(self) -> &'a [u8] {
        let length = self
            .rest
            .len()
            .saturating_sub(self.after_expression().len());
        first_bytes(self.rest, length)
    }

    /// What follows the expression and its delimiter.
    pub(crate) fn after_expression(self) -> &'a [u8] {
        behind_part(self.rest, self.delimiter())
    }

    /// What follows the replacement of the `s` in whose expression the fault is: its flags.
    pub(crate) fn flags(self) -> &'a [u8] {
        behind_part(self.after_expression(), self.delimiter())
    }

    /// The flags of that `s` up to a `w`.
    fn plain_flags(self) -> &'a [u8] {
        let flags = self.flags();
        let length = flags
            .len()
            .saturating_sub(after_any(flags, PLAIN_FLAGS).len());
        first_bytes(flags, length)
    }

    /// Whether that `s` has a number among its flags.
    pub(crate) fn is_counted(self) -> bool {
        has_one_of(self.plain_flags(), DIGITS)
    }

    /// Whether that `s` prints or writes what it makes.
    pub(crate) fn is_reported(self) -> bool {
        let is_written = after_any(self.flags(), PLAIN_FLAGS).starts_with(b"w");
        is_written || has_one_of(self.plain_flags(), "p")
    }

    /// Whether the expression has the flag `M` of GNU sed, with which a list such as `[^x]` matches no newline.
    pub(crate) fn is_by_lines(self) -> bool {
        if self.is_replaced() {
            return has_one_of(self.plain_flags(), "Mm");
        }
        let behind = self.after_expression();
        let length = behind.len().saturating_sub(after_any(behind, "IM").len());
        has_one_of(first_bytes(behind, length), "M")
    }

    /// The replacement of that `s`.
    pub(crate) fn replacement(self) -> &'a [u8] {
        let behind = self.after_expression();
        let length = behind
            .len()
            .saturating_sub(self.flags().len())
            .saturating_sub(1);
        first_bytes(behind, length)
    }

    /// Whether the expression is that of an `s`.
    pub(crate) fn is_replaced(self) -> bool {
        matches!(self.purpose(), Purpose::Replaces | Purpose::ReplacesAll)
    }

    /// Whether a later command has an empty expression that may stand for this one, and for another one where several commands come in
    /// its place. One right behind another expression stands for that.
    pub(crate) fn is_meant_later(self) -> bool {
        let (mut reading, behind) = self.from_end();
        let mut is_empty = true;
        let mut is_behind_other = false;
        for byte in behind {
            let was_inside = reading.is_in_expression();
            reading = reading.after(*byte);
            let is_inside = reading.is_in_expression();
            if was_inside && !is_inside {
                if is_empty && !is_behind_other {
                    return true;
                }
                is_behind_other = true;
                is_empty = true;
            } else if was_inside {
                is_empty = false;
            } else if !is_inside && !is_among(*byte, BETWEEN) {
                is_behind_other = false;
            }
        }
        false
    }

    /// A reader behind the expression, or behind the whole `s` that it is of, and what is there.
    fn from_end(self) -> (Reading, &'a [u8]) {
        if self.is_replaced() {
            let reading = Reading {
                place: Place::Flags,
                ..Reading::SCRIPT
            };
            return (reading, self.flags());
        }
        (Reading::SCRIPT, self.after_expression())
    }

    /// The script from the byte after the fault's first one on.
    pub(crate) fn behind(self) -> &'a [u8] {
        skipped(self.rest, 1)
    }

    /// The byte before the blanks before the fault.
    pub fn previous(self) -> Option<u8> {
        before_any(self.before, " \t").last().copied()
    }

    /// Whether one of these is that byte; a newline counts as before the script.
    pub(crate) fn follows(self, bytes: &str) -> bool {
        is_among(self.previous().unwrap_or(b'\n'), bytes)
    }

    /// What the expression is for.
    pub fn purpose(self) -> Purpose {
        let opening = first_bytes(self.before, self.expression.saturating_sub(1));
        if opening.ends_with(b"s") {
            if has_one_of(self.plain_flags(), "g") {
                return Purpose::ReplacesAll;
            }
            return Purpose::Replaces;
        }
        let opening = opening.strip_suffix(b"\\").unwrap_or(opening);
        if before_any(opening, " \t").ends_with(b",") {
            return Purpose::Range;
        }
        match byte_at(without_blanks(self.after_expression()), 0) {
            b',' => Purpose::Range,
            b'!' => Purpose::Unless,
            b'd' => Purpose::Deletes,
            _ => Purpose::Selects,
        }
    }
}

/// What may be between an expression and one right behind it, as in `/x/,5!{`, `s//y/`.
const BETWEEN: &str = " \t\n;{!,$0123456789\\s";

/// The flags of `s` but for `w`, with those of GNU sed, and blanks.
const PLAIN_FLAGS: &str = "0123456789gpIiMme \t";

/// What follows the delimiter that ends this part.
pub(crate) fn behind_part(part: &[u8], delimiter: u8) -> &[u8] {
    let mut reading = Reading {
        place: Place::Replacement,
        delimiter,
        ..Reading::START
    };
    for (index, byte) in part.iter().enumerate() {
        reading = reading.after(*byte);
        if matches!(reading.place, Place::Flags) {
            return skipped(part, index + 1);
        }
    }
    &[]
}
