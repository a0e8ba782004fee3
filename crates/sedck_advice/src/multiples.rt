//! What to write in place of `first~step`, an address of GNU sed: each `n` goes on by a line.

use crate::bytes::{DIGITS, before_any, byte_at, from_verb, is_among, without_blanks};
use sedck_report::skipped;

/// By what ends with the digits before the `~`, and by what follows it. Nothing for an end of a range, nor for a range or another step that
/// begins so.
pub(crate) fn multiples_hint(before: &[u8], behind: &[u8]) -> Option<&'static str> {
    let opening = before_any(before, DIGITS);
    if opening.len() == before.len() {
        return Some("GNU sed refuses this, too: only a line number comes before `~`, as in `0~3`");
    }
    let verb = byte_at(from_verb(behind), 0);
    if before_any(opening, " \t").ends_with(b",") || is_among(verb, ",~") {
        return None;
    }
    let first = number_in(skipped(before, opening.len()));
    let step = number_in(without_blanks(behind));
    if step == 0 {
        return Some("a step of 0 is no step: for `2~0` write `2`");
    }
    if step == 1 {
        return Some("for `3~1` write `3,$`; `0~1` and `1~1` are all lines");
    }
    match verb {
        b'!' if first > step => None,
        b'!' => Some(other_lines_hint(behind)),
        _ if first > step => Some(later_hint(verb)),
        b'd' => Some(
            "for `0~3d` alone in a script write `n`, `n` and `d`; for `1~2d` write `$d`, `N` and `s/.*\\n//`; for `2~3d` put an `n` before these, \
                and for `1~3d` after them; in UTF-8 the `s` stops at a byte that is no character",
        ),
        _ => Some(
            "for `0~3p` alone in a script write `n`, `n` and `p`; for `2~5p` write `n`, `p`, `n`, `n` and `n`; the \
                command may neither delete, as `c` does, nor read a line",
        ),
    }
}

/// Where the first line comes after the first step.
fn later_hint(verb: u8) -> &'static str {
    if verb == b'd' {
        return "for `5~2d` alone in a script write `1,4b`, `$d`, `N` and `s/.*\\n//`; for `5~3d` put an `n` after these; in UTF-8 the \
            `s` stops at a byte that is no character";
    }
    "for `5~2p` alone in a script write `1,4b`, `p` and `n`; for `5~3p` put one more `n` after these; the \
        command may neither delete, as `c` does, nor read a line"
}

/// Where a `!` follows the step.
fn other_lines_hint(behind: &[u8]) -> &'static str {
    let negated = skipped(from_verb(behind), 1);
    if from_verb(negated).starts_with(b"d") {
        return "for `0~3!d` alone in a script write `$d`, `N`, `$d`, `N` and `s/.*\\n//`; for `1~3!d` write `n`, `$!N` and `d`; in UTF-8 \
            the `s` stops at a byte that is no character";
    }
    "for `0~3!p` alone in a script write `p`, `n`, `p` and `n`; for `1~3!p` write `n`, `p`, `n` and `p`; the \
        command may neither delete, as `c` does, nor read a line"
}

/// The number with which the text begins; 0 where it begins with none.
pub(crate) fn number_in(text: &[u8]) -> usize {
    let mut number: usize = 0;
    for byte in text {
        if !byte.is_ascii_digit() {
            break;
        }
        let digit = usize::from(byte.saturating_sub(b'0'));
        number = number.saturating_mul(10).saturating_add(digit);
    }
    number
}
