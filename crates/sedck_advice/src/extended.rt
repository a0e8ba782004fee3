//! Signs of extended expressions in those of a script, which are read as basic ones.

use crate::bytes::{DIGITS, OF_NAMES, after_any, byte_at, is_among, is_blank};
use sedck_parts::{Expression, Reading, expressions_in};
use sedck_report::skipped;
use sedck_script::Location;
use std::alloc::{AllocError, Global};

/// The first sign of an extended expression in what the commands have of them.
pub(crate) fn extended_in(
    alloc: Global,
    text: &[u8],
    locations: &[Location],
) -> Result<Option<usize>, AllocError> {
    for location in locations {
        for expression in &expressions_in(alloc, text, location.start, location.end)? {
            if let Some(sign) = extended_at(*expression) {
                return Ok(Some(sign));
            }
        }
    }
    Ok(None)
}

/// The first sign of an extended expression in this one.
fn extended_at(expression: Expression) -> Option<usize> {
    let bytes = expression.bytes;
    let mut seen = Seen::before(expression);
    for (index, byte) in bytes.iter().enumerate() {
        let rest = skipped(bytes, index.saturating_add(1));
        if let Some(sign) = seen.sign_at(index, *byte, rest) {
            return expression.start.checked_add(sign);
        }
        seen = seen.after(index, *byte);
    }
    None
}

/// What a reader of an expression has seen, as far as a sign of an extended one depends on it.
#[derive(Clone, Copy)]
struct Seen {
    reading: Reading,
    /// The byte before, or a newline where that is of a list or escaped.
    previous: u8,
    /// Whether a list, a `)` or a `.` is before, which a sign of repetition would repeat.
    may_repeat: bool,
    /// Whether the byte before is of a word after a backslash or an `@`, as TeX and Texinfo write commands.
    is_markup: bool,
    /// Whether a parenthesis is before.
    is_open: bool,
    /// Where the last bar after a parenthesis is.
    bar: Option<usize>,
    pair: Pair,
}

/// A pair of parentheses that may be a group.
#[derive(Clone, Copy)]
struct Pair {
    /// Whether the whole expression has a `\(` or `\{`, so that its author means `(` as it is.
    is_literal: bool,
    /// Where it opens.
    start: Option<usize>,
    /// Whether that is after a `^`.
    is_first: bool,
    /// Whether it has a `*`, a list or a bar, as texts in parentheses seldom have.
    has_operator: bool,
}

impl Seen {
    /// What is seen before the expression.
    fn before(expression: Expression) -> Seen {
        Seen {
            reading: Reading::of_expression(expression.delimiter),
            previous: b'\n',
            may_repeat: false,
            is_markup: false,
            is_open: false,
            bar: None,
            pair: Pair::none(has_basic_sign(expression)),
        }
    }

    /// Whether the next byte is neither in a list nor escaped.
    fn is_plain(self) -> bool {
        !self.reading.is_in_list() && !self.reading.is_escaped
    }

    /// Where the sign is that is complete with this byte, which these follow.
    fn sign_at(self, index: usize, byte: u8, rest: &[u8]) -> Option<usize> {
        if !self.is_plain() {
            return None;
        }
        match byte {
            b'+' | b'?' | b'{' if self.repeats(byte, rest) => Some(index),
            b')' => {
                let sign = self.bar.or(self.pair.sign_at(index, rest));
                sign.or(self.dollar_before(index))
            }
            b'^' if self.previous == b'|' => index.checked_sub(1),
            b'|' if self.previous == b'$' && begins_alternative(rest) => Some(index),
            b'|' => self.dollar_before(index),
            _ => None,
        }
    }

    /// Where the `$` right before is. GNU sed's matcher takes one before a `)` or a bar for an anchor.
    fn dollar_before(self, index: usize) -> Option<usize> {
        if self.previous == b'$' {
            index.checked_sub(1)
        } else {
            None
        }
    }

    /// Whether this `+`, `?` or `{` looks as if it repeats what is before.
    fn repeats(self, byte: u8, rest: &[u8]) -> bool {
        match byte {
            b'{' if self.may_repeat => byte_at(rest, 0).is_ascii_digit(),
            b'{' => is_ordinary(self.previous) && !self.is_markup && is_interval(rest),
            b'+' => self.may_repeat || (is_ordinary(self.previous) && is_end_anchor(rest)),
            _ => self.may_repeat || (self.previous.is_ascii_alphabetic() && goes_on(rest)),
        }
    }

    /// What is seen after this byte.
    fn after(self, index: usize, byte: u8) -> Seen {
        let reading = self.reading.after(byte);
        let is_markup = match byte {
            b'\\' => self.reading.is_escaped,
            b'@' => self.is_plain(),
            _ => self.is_markup && byte.is_ascii_alphabetic(),
        };
        if !self.is_plain() {
            return Seen {
                reading,
                previous: b'\n',
                may_repeat: self.reading.is_in_list() && !reading.is_in_list(),
                is_markup,
                ..self
            };
        }
        Seen {
            reading,
            previous: if byte == b'\\' { b'\n' } else { byte },
            may_repeat: byte == b')' || byte == b'.',
            is_markup,
            is_open: self.is_open || byte == b'(',
            bar: if self.is_open && byte == b'|' {
                Some(index)
            } else {
                self.bar
            },
            pair: self.pair.after(index, byte, self.previous),
        }
    }
}

impl Pair {
    /// No pair yet.
    fn none(is_literal: bool) -> Pair {
        Pair {
            is_literal,
            start: None,
            is_first: false,
            has_operator: false,
        }
    }

    /// Where the sign is, where the pair is closed here and an anchor is next to it.
    fn sign_at(self, index: usize, rest: &[u8]) -> Option<usize> {
        let start = self.start?;
        if self.is_literal || !self.has_operator {
            return None;
        }
        if self.is_first {
            return Some(start);
        }
        is_end_anchor(rest).then_some(index)
    }

    /// The pair after this byte, which is neither of a list nor escaped.
    fn after(self, index: usize, byte: u8, previous: u8) -> Pair {
        match byte {
            b'(' if self.start.is_none() => Pair {
                start: Some(index),
                is_first: previous == b'^',
                has_operator: false,
                ..self
            },
            b')' => Pair::none(self.is_literal),
            b'*' | b'[' | b'|' => Pair {
                has_operator: true,
                ..self
            },
            _ => self,
        }
    }
}

/// Whether the expression has a `\(` or a `\{`.
fn has_basic_sign(expression: Expression) -> bool {
    let mut reading = Reading::of_expression(expression.delimiter);
    for byte in expression.bytes {
        if reading.is_escaped && matches!(*byte, b'(' | b'{') {
            return true;
        }
        reading = reading.after(*byte);
    }
    false
}

/// Whether nothing but a `$` is left.
fn is_end_anchor(rest: &[u8]) -> bool {
    rest == b"$".as_slice()
}

/// Whether the byte is one that nobody means to be next to a literal `+` at the end, nor to `{3}`. So not `$`, `#` and `%`, which
/// begin names of other languages, and not `+`, as in `c++`.
fn is_ordinary(byte: u8) -> bool {
    byte.is_ascii_alphanumeric() || is_blank(byte) || is_among(byte, "-_=,;:/")
}

/// Whether a letter follows a `?`, and not a field of an address of the web, as in `page?id=1`.
fn goes_on(rest: &[u8]) -> bool {
    byte_at(rest, 0).is_ascii_alphabetic() && !after_any(rest, OF_NAMES).starts_with(b"=")
}

/// Whether what follows `$|` can be an alternative, and no use of Perl's variable.
fn begins_alternative(rest: &[u8]) -> bool {
    !rest.is_empty() && !is_among(byte_at(rest, 0), " \t=+;")
}

/// Whether what follows a `{` is a number or two, and a `}`.
fn is_interval(rest: &[u8]) -> bool {
    let behind = after_any(rest, DIGITS);
    let is_pair = behind.starts_with(b",")
        && after_any(skipped(behind, 1), DIGITS).starts_with(b"}");
    byte_at(rest, 0).is_ascii_digit() && (behind.starts_with(b"}") || is_pair)
}
