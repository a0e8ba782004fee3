//! What to write in place of `\b`, `\<`, `\>` and `\B`, which look at the bytes of words.

use crate::bars::{AGAIN, apart_hint};
use crate::bytes::{byte_at, ends_escaped, first_bytes, has, is_among};
use crate::spot::{Purpose, Spot};
use sedck_parts::Reading;

/// Where an expression has ends of words.
#[derive(Clone, Copy)]
enum Ends {
    /// Before all of it alone.
    Start,
    /// After all of it alone.
    End,
    Both,
    Other,
}

/// For `\b`, `\<` and `\>`.
pub(crate) fn word_hint(spot: Spot) -> &'static str {
    if is_at_line_end(spot) {
        return "next to `^` or `$` leave it out, if a letter, a digit or `_` is on its other side";
    }
    if !spot.is_replaced() {
        return next_to_word(spot);
    }
    if spot.is_meant_later() {
        return AGAIN;
    }
    if spot.is_reported() {
        return apart_hint(spot);
    }
    match (ends_of(spot), copies_in(spot)) {
        (Ends::Other, _) | (_, Copies::Groups) => GROUPS,
        (Ends::Both, _) if spot.is_counted() => COUNTED,
        (ends, copies) => marked_hint(ends, matches!(copies, Copies::Whole)),
    }
}

/// For an `s` that doesn't copy the word, or that copies it by `&`.
fn marked_hint(ends: Ends, is_copied: bool) -> &'static str {
    match (ends, is_copied) {
        (Ends::Start, false) =>
            "for `s/\\<WORD/NEW/g` write `s/^/\\n/`, `s/\\([^[:alnum:]_]\\)WORD/\\1NEW/g` and `s/^\\n//`; each match of WORD must begin and end \
                with a letter, a digit or `_`; the first `s` sets the flag that `t` tests; in UTF-8 each byte must \
                be of a character",
        (Ends::End, false) =>
            "for `s/WORD\\>/NEW/g` write `s/$/\\n/`, `s/WORD\\([^[:alnum:]_]\\)/NEW\\1/g` and `s/\\n$//`; each match of WORD must begin and end \
                with a letter, a digit or `_`; the first `s` sets the flag that `t` tests; in UTF-8 each byte must \
                be of a character",
        (_, false) =>
            "for `s/\\bWORD\\b/NEW/g` write `s/.*/\\n&\\n/`, twice `s/\\([^[:alnum:]_]\\)WORD\\([^[:alnum:]_]\\)/\\1NEW\\2/g`, and \
                `s/^\\n\\(.*\\)\\n$/\\1/`, if NEW has no such word; without `g` only once; each match of WORD must begin and end with a letter, a \
                digit or `_`; the first `s` sets the flag that `t` tests; in UTF-8 each byte must \
                be of a character",
        (Ends::Start, true) =>
            "for `s/\\<WORD/X&/g` write `s/^/\\n/`, `s/\\([^[:alnum:]_]\\)\\(WORD\\)/\\1X\\2/g` and `s/^\\n//`; each match of WORD must begin and \
                end with a letter, a digit or `_`; the first `s` sets the flag that `t` tests; in UTF-8 each byte must \
                be of a character",
        (Ends::End, true) =>
            "for `s/WORD\\>/X&/g` write `s/$/\\n/`, `s/\\(WORD\\)\\([^[:alnum:]_]\\)/X\\1\\2/g` and `s/\\n$//`; each match of WORD must begin and \
                end with a letter, a digit or `_`; the first `s` sets the flag that `t` tests; in UTF-8 each byte must \
                be of a character",
        (_, true) =>
            "for `s/\\bWORD\\b/X&/` write `s/.*/\\n&\\n/`, `s/\\([^[:alnum:]_]\\)\\(WORD\\)\\([^[:alnum:]_]\\)/\\1X\\2\\3/` and \
                `s/^\\n\\(.*\\)\\n$/\\1/`; with `g` this leaves out words that share a byte between them; each match of WORD must begin and end \
                with a letter, a digit or `_`; the first `s` sets the flag that `t` tests; in UTF-8 each byte must \
                be of a character",
    }
}

/// For an address.
pub(crate) fn next_to_word(spot: Spot) -> &'static str {
    if spot.is_meant_later() {
        return AGAIN;
    }
    match spot.purpose() {
        Purpose::Range =>
            "match what is next to the word, in UTF-8 only where each byte is of a character: \
                in a range `/[^[:alnum:]_]WORD[^[:alnum:]_]/` for `/\\<WORD\\>/`, if WORD is neither first nor last in \
                a line, and each match of it begins and ends with a letter, a digit or `_`",
        Purpose::Deletes =>
            "match what is next to the word, in UTF-8 only where each byte is of a character: \
                for `/\\<WORD/d` write `/^WORD/d` and `/[^[:alnum:]_]WORD/d`; for `/WORD\\>/d` write `/WORD$/d` and \
                `/WORD[^[:alnum:]_]/d`; for `/\\<WORD\\>/d` write `/^WORD$/d`, `/^WORD[^[:alnum:]_]/d`, `/[^[:alnum:]_]WORD$/d` and \
                `/[^[:alnum:]_]WORD[^[:alnum:]_]/d`; each match of WORD must begin and end with a letter, a digit or `_`",
        Purpose::Unless =>
            "match what is next to the word, in UTF-8 only where each byte is of a character: \
                for `/\\<WORD/!d` write `/^WORD/b keep`, `/[^[:alnum:]_]WORD/b keep`, `d` and `:keep` on lines of \
                their own; for `/WORD\\>/!d` write `/WORD$/b keep`, `/WORD[^[:alnum:]_]/b keep`, `d` and `:keep`; for both ends the four pairs of \
                these; each match of WORD must begin and end with a letter, a digit or `_`",
        _ => "match what is next to the word, in UTF-8 only where each byte is of a character: \
                for `/\\<WORD/p` write `/^WORD/b do`, `/[^[:alnum:]_]WORD/b do`, `b on`, `:do`, `p` and `:on` on lines \
                of their own; for `/WORD\\>/p` write `/WORD$/b do`, `/WORD[^[:alnum:]_]/b do`, `b on`, `:do`, `p` and `:on`; for both ends the four \
                pairs of these; each match of WORD must begin and end with a letter, a digit or `_`",
    }
}

pub(crate) const GROUPS: &str =
    "no escape of POSIX means an end of a word: match the byte next to it as a group of its own, after which the groups of WORD have other numbers, \
        and `&` has that byte too";

/// Where an `s` has a number.
pub(crate) const COUNTED: &str =
    "POSIX has no equivalent that counts words which share the byte between them: do it without the number";

/// For `\B`.
pub(crate) fn inner_hint(spot: Spot) -> &'static str {
    if spot.is_meant_later() {
        return AGAIN;
    }
    if !spot.is_replaced() {
        return "`\\B` wants a byte of a word on both sides, or on none: for `/\\BWORD/` write `/[[:alnum:]_]WORD/`, and so for `WORD\\B`, if each \
            match of WORD has a letter, a digit or `_` on that side; in UTF-8 each byte must be of a character";
    }
    if spot.replacement() == b",&".as_slice() {
        return "for commas in numbers that stand alone write `s/\\(.*[0-9]\\)\\([0-9]\\{3\\}\\)/\\1,\\2/` as often as a line may need one, without a \
            loop, as docs/MENDING.md shows";
    }
    match copies_in(spot) {
        _ if matches!(spot.purpose(), Purpose::ReplacesAll) => GROUPS,
        _ if spot.is_counted() => COUNTED,
        Copies::Groups => GROUPS,
        Copies::Nothing =>
            "`\\B` wants a byte of a word on both sides, or on none: for `s/\\BWORD/NEW/` write `s/\\([[:alnum:]_]\\)WORD/\\1NEW/`, and so for \
                `WORD\\B`, if each match of WORD has a letter, a digit or `_` on that side; in UTF-8 each byte \
                must be of a character",
        Copies::Whole =>
            "`\\B` wants a byte of a word on both sides, or on none: for `s/\\BWORD/X&/` write `s/\\([[:alnum:]_]\\)\\(WORD\\)/\\1X\\2/`, and so for \
                `WORD\\B`, if each match of WORD has a letter, a digit or `_` on that side; in UTF-8 each byte \
                must be of a character",
    }
}

/// What of a match an `s` copies, which a group of a mend changes.
#[derive(Clone, Copy)]
pub(crate) enum Copies {
    Nothing,
    /// `&`.
    Whole,
    /// The expression has groups.
    Groups,
}

pub(crate) fn copies_in(spot: Spot) -> Copies {
    if has(spot.inside(), "\\(") || has(spot.left(), "\\(") {
        return Copies::Groups;
    }
    if has(spot.replacement(), "&") {
        return Copies::Whole;
    }
    Copies::Nothing
}

/// Whether the fault is a start of a word right after `^`, or an end right before `$`.
fn is_at_line_end(spot: Spot) -> bool {
    let end = byte_at(spot.rest, 1);
    let is_behind = spot.inside() == b"^".as_slice() && end != b'>';
    let is_before = byte_at(spot.rest, 2) == b'$' && byte_at(spot.rest, 3) == spot.delimiter();
    is_behind || (is_before && end != b'<')
}

/// Where the expression has ends of words, as far as escapes go. The fault is the first one.
fn ends_of(spot: Spot) -> Ends {
    let expression = first_bytes(spot.left(), spot.left().len().saturating_sub(1));
    let end = byte_at(spot.rest, 1);
    let is_start = spot.inside().is_empty() && end != b'>' && expression.len() > 2;
    let is_end = !spot.inside().is_empty() && end != b'<' && expression.len() == 2;
    let is_closed = ends_escaped(expression, b'b') || ends_escaped(expression, b'>');
    match ends_in(expression) {
        1 if is_start => Ends::Start,
        1 if is_end => Ends::End,
        2 if is_start && is_closed && expression.len() > 4 => Ends::Both,
        _ => Ends::Other,
    }
}

/// How many ends of words the rest of an expression has.
fn ends_in(expression: &[u8]) -> usize {
    let mut reading = Reading::START;
    let mut ends: usize = 0;
    for byte in expression {
        if reading.is_escaped && is_among(*byte, "b<>") {
            ends = ends.saturating_add(1);
        }
        reading = reading.after(*byte);
    }
    ends
}
