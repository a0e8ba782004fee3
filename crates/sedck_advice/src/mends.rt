//! Mends that need no judgement: what to write in place of a few bytes, so that the script is read as GNU sed reads it now.

use crate::bytes::{DIGITS, before_any, begins_with_one, byte_at, ends_escaped, is_among};
use crate::hints::{BYTE_ORDER_MARK, ends_in_return};
use crate::spot::Spot;
use sedck_bre::ReFault;
use sedck_parts::{Place, mend_at};
use sedck_report::{NewText, skipped};
use sedck_script::ScriptFault;

/// What to write in place of the bytes around a fault.
#[derive(Clone, Copy)]
pub struct Mend {
    /// How many bytes before the fault are replaced.
    pub before: usize,
    /// How many bytes are replaced from the fault on.
    pub after: usize,
    pub text: NewText,
}

/// The mend of this fault of the text, where there is one that changes nothing for GNU sed.
pub fn script_mend(text: &[u8], fault: ScriptFault, spot: Spot) -> Option<Mend> {
    if ends_in_return(spot.rest) {
        return Some(replaced(1, ""));
    }
    if spot.before.is_empty() && spot.rest.starts_with(BYTE_ORDER_MARK) {
        return Some(replaced(3, ""));
    }
    match fault {
        ScriptFault::UnknownCommand { .. } => negation_mend(spot.rest),
        ScriptFault::ExtraText { .. } => flag_mend(spot),
        ScriptFault::BadLabel { .. } => label_mend(spot.rest),
        ScriptFault::BadReplacement { .. } => replacement_mend(spot),
        ScriptFault::BadExpression {
            fault: ReFault::UnclosedBracket { .. },
            ..
        } => delimiter_mend(text, spot.before.len()),
        ScriptFault::BadExpression { fault, .. } => expression_mend(fault, spot),
        _ => None,
    }
}

/// A text in place of this many bytes from the fault on.
fn replaced(after: usize, text: &'static str) -> Mend {
    Mend {
        before: 0,
        after,
        text: NewText::Plain(text),
    }
}

/// For `\!` before a command.
fn negation_mend(rest: &[u8]) -> Option<Mend> {
    rest.starts_with(b"\\!").then_some(replaced(1, ""))
}

/// Without the blanks before a flag of `s`.
fn flag_mend(spot: Spot) -> Option<Mend> {
    if !is_new_flag(spot) || !matches!(spot.in_script().place, Place::Flags) {
        return None;
    }
    let flags = before_any(spot.before, " \t");
    Some(Mend {
        before: spot.before.len().saturating_sub(flags.len()),
        after: 0,
        text: NewText::Plain(""),
    })
}

/// Whether the fault is at a flag of POSIX that isn't the last one before the blanks.
fn is_new_flag(spot: Spot) -> bool {
    match byte_at(spot.rest, 0) {
        b'1'..=b'9' => !spot.follows(DIGITS),
        flag => is_among(flag, "gpw") && spot.previous() != Some(flag),
    }
}

/// A `;` between a label and the `}` right after it.
fn label_mend(rest: &[u8]) -> Option<Mend> {
    rest.starts_with(b"}").then_some(replaced(0, ";"))
}

/// For `\0`, where `&` isn't the delimiter.
fn replacement_mend(spot: Spot) -> Option<Mend> {
    let is_mended = spot.rest.starts_with(b"\\0") && spot.in_script().delimiter != b'&';
    is_mended.then_some(replaced(2, "&"))
}

/// Another delimiter, for a command in the text that has its own in a list at this offset.
fn delimiter_mend(text: &[u8], offset: usize) -> Option<Mend> {
    let found = mend_at(text, offset)?;
    let end = found.last.saturating_add(1);
    let part = text.get(found.first..end).unwrap_or(&[]);
    let mend = Mend {
        before: offset.saturating_sub(found.first),
        after: end.saturating_sub(offset),
        text: NewText::Delimited {
            other: found.other,
            is_bare: found.is_bare,
        },
    };
    part.is_ascii().then_some(mend)
}

/// In an expression, where the text has no delimiter.
fn expression_mend(fault: ReFault, spot: Spot) -> Option<Mend> {
    let mend = match fault {
        ReFault::BadEscape { .. } if !spot.reading().is_in_list() => escape_mend(spot)?,
        ReFault::BadInterval { .. } if spot.delimiter() != b',' => interval_mend(spot.rest)?,
        _ => return None,
    };
    match mend.text {
        NewText::Plain(text) if text.as_bytes().contains(&spot.delimiter()) => comma_mend(spot),
        _ => Some(mend),
    }
}

/// For the escapes of GNU sed that POSIX spells in another way.
fn escape_mend(spot: Spot) -> Option<Mend> {
    let text = match byte_at(spot.rest, 1) {
        b'+' if is_repeatable(spot) && !is_repeated(spot) => "\\{1,\\}",
        b'?' if is_repeatable(spot) && !is_repeated(spot) && !is_status(spot) => "\\{0,1\\}",
        b's' => "[[:space:]]",
        b'S' => "[^[:space:]]",
        b'w' => "[[:alnum:]_]",
        b'W' if !spot.is_by_lines() => "[^[:alnum:]_]",
        _ => return None,
    };
    Some(replaced(2, text))
}

/// For `\+` and `\?` where the comma is the delimiter.
fn comma_mend(spot: Spot) -> Option<Mend> {
    if spot.delimiter() != b',' {
        return None;
    }
    if spot.rest.starts_with(b"\\+") {
        return Some(replaced(2, "\\{1\\,\\}"));
    }
    let is_mended = spot.rest.starts_with(b"\\?") && !is_status(spot);
    is_mended.then_some(replaced(2, "\\{0\\,1\\}"))
}

/// Whether `\$` is before the fault, so that the `$?` of a shell may be meant.
fn is_status(spot: Spot) -> bool {
    ends_escaped(spot.inside(), b'$')
}

/// Whether something is before the fault that isn't repeated yet.
fn is_repeatable(spot: Spot) -> bool {
    let inside = spot.inside();
    !spot.begins()
        && !ends_escaped(inside, b'}')
        && (!inside.ends_with(b"*") || ends_escaped(inside, b'*'))
}

/// Whether another sign of repetition is after that at the fault.
fn is_repeated(spot: Spot) -> bool {
    begins_with_one(skipped(spot.rest, 2), REPETITIONS)
}

/// What repeats the item before it in GNU sed.
static REPETITIONS: &'static [&'static str] = &["*", "\\{", "\\+", "\\?"];

/// For `\{,n\}`.
fn interval_mend(rest: &[u8]) -> Option<Mend> {
    let is_mended = rest.starts_with(b"\\{,") && byte_at(rest, 3).is_ascii_digit();
    is_mended.then_some(replaced(2, "\\{0"))
}
