//! What to write in place of an escape of an expression that is refused.

use crate::bars::bar_hint;
use crate::bytes::{byte_at, ends_escaped, is_among};
use crate::spot::Spot;
use crate::words::{inner_hint, word_hint};

/// By the byte after the backslash, and by what is around it.
pub fn escape_hint(spot: Spot) -> &'static str {
    if spot.reading().is_in_list() {
        return list_escape_hint(spot.rest);
    }
    match byte_at(spot.rest, 1) {
        escaped if spot.is_by_lines() && is_among(escaped, "Wb<>B`'") => BY_LINES,
        b'+' | b'?' => repeat_hint(spot),
        b'|' => bar_hint(spot),
        b'B' => inner_hint(spot),
        b'b' | b'<' | b'>' => word_hint(spot),
        b'd' if !byte_at(spot.rest, 2).is_ascii_digit() => {
            "if a digit is meant write `[[:digit:]]`"
        }
        escaped => letter_hint(escaped),
    }
}

/// Beside the flag `M`, with which what the escape becomes would mean something else.
const BY_LINES: &str =
    "do without the flag `M` first: match `\\n` where `^` or `$` is at an end of a line inside, and write `[^\\n]` for `.` and `[^x\\n]` for `[^x]`; \
        then this escape has a hint";

const PLAIN: &str = "write the character without the backslash, or in a bracket list, as in `[%]`";

/// By the byte after the backslash alone.
fn letter_hint(escaped: u8) -> &'static str {
    match escaped {
        b's' => "for `\\s` write `[[:space:]]`",
        b'S' => "for `\\S` write `[^[:space:]]`",
        b'w' => "for `\\w` write `[[:alnum:]_]`",
        b'W' => "for `\\W` write `[^[:alnum:]_]`",
        b'`' | b'\'' =>
            "for the ends of the pattern space write `^` first in an expression and `$` last",
        b'd' | b'x' | b'o' | b'c' =>
            "write the byte itself, but a newline as `\\n`, and the delimiter after a backslash",
        b'r' | b'f' | b'v' | b'a' =>
            "GNU sed reads this as a control character, as `\\a` for BEL: write that character itself, or the letter if that is meant",
        _ => PLAIN,
    }
}

/// In a bracket list.
fn list_escape_hint(rest: &[u8]) -> &'static str {
    let digit = byte_at(rest, 2);
    match byte_at(rest, 1) {
        b'd' if digit.is_ascii_digit() => BYTE_IN_LIST,
        b'o' if b'0' <= digit && digit <= b'7' => BYTE_IN_LIST,
        b'x' if digit.is_ascii_hexdigit() => BYTE_IN_LIST,
        b'd' =>
            "if a digit is meant write `[[:digit:]]`; GNU sed reads this as a `d`; for a backslash and a `d` write `[\\\\d]`",
        b'o' | b'x' =>
            "GNU sed reads this as the letter alone: for a backslash and the letter write two backslashes, as in `[\\\\x]`",
        _ =>
            "GNU sed turns `\\c` and what follows into one byte: for a backslash and the letter write two backslashes, as in `[\\\\c]`",
    }
}

const BYTE_IN_LIST: &str =
    "GNU sed turns this into a byte before it reads the list: write that byte itself";

/// For `\+` and `\?`.
fn repeat_hint(spot: Spot) -> &'static str {
    if spot.begins() {
        return "at the start of an expression or a group GNU sed reads this as a literal character: write it without the backslash";
    }
    let is_comma = spot.delimiter() == b',';
    if byte_at(spot.rest, 1) == b'+' {
        if is_comma {
            return "for `x\\+` write `xx*`, or `x\\{1\\,\\}`, since `,` is the delimiter";
        }
        return "for `x\\+` write `x\\{1,\\}` or `xx*`";
    }
    if ends_escaped(spot.inside(), b'$') {
        return "if the two characters `$?` are meant write `\\$?`; GNU sed reads `\\$\\?` as a `$` that may be missing: for that write \
            `\\$\\{0,1\\}`, with `\\,` where the comma is the delimiter";
    }
    if is_comma {
        return "for `x\\?` write `x\\{0\\,1\\}`, since `,` is the delimiter; if the character `?` is meant write `?`";
    }
    "for `x\\?` write `x\\{0,1\\}`; if the character `?` is meant write `?`"
}
