//! Edges of words as the seds of the BSDs write them: `[[:<:]]` and `[[:>:]]`.

use crate::bars::{AGAIN, apart_hint};
use crate::bytes::{byte_at, has};
use crate::spot::Spot;
use crate::words::{COUNTED, Copies, GROUPS, copies_in, next_to_word};
use sedck_report::skipped;

/// Whether the element of a list is an edge of a word, and the list ends with it.
pub(crate) fn is_edge(element: &[u8]) -> bool {
    element.starts_with(b"[:<:]]") || element.starts_with(b"[:>:]]")
}

/// What to write in place of the first edge of an expression.
pub(crate) fn edge_hint(spot: Spot) -> &'static str {
    if !spot.is_replaced() {
        return next_to_word(spot);
    }
    if spot.is_meant_later() {
        return AGAIN;
    }
    if spot.is_reported() {
        return apart_hint(spot);
    }
    if !matches!(copies_in(spot), Copies::Nothing) {
        return GROUPS;
    }
    if spot.inside() == b"[".as_slice() && !has_more_edges(spot) {
        return "for `s/[[:<:]]WORD/NEW/g` write `s/^/\\n/`, `s/\\([^[:alnum:]_]\\)WORD/\\1NEW/g` and `s/^\\n//`; each match of WORD must begin and \
            end with a letter, a digit or `_`; the first `s` sets the flag that `t` tests; in UTF-8 each byte must \
            be of a character";
    }
    if byte_at(spot.rest, 6) == spot.delimiter() {
        return "for `s/WORD[[:>:]]/NEW/g` write `s/$/\\n/`, `s/WORD\\([^[:alnum:]_]\\)/NEW\\1/g` and `s/\\n$//`; each match of WORD must begin and \
            end with a letter, a digit or `_`; the first `s` sets the flag that `t` tests; in UTF-8 each byte must \
            be of a character";
    }
    if spot.is_counted() {
        return COUNTED;
    }
    "for `s/[[:<:]]WORD[[:>:]]/NEW/g` write `s/.*/\\n&\\n/`, twice `s/\\([^[:alnum:]_]\\)WORD\\([^[:alnum:]_]\\)/\\1NEW\\2/g`, and \
        `s/^\\n\\(.*\\)\\n$/\\1/`, if NEW has no such word; without `g` only once; each match of WORD must begin and end with a \
        letter, a digit or `_`; the first `s` sets the flag that `t` tests; in UTF-8 each byte must \
        be of a character"
}

/// Whether another edge follows in the expression.
fn has_more_edges(spot: Spot) -> bool {
    let expression = skipped(spot.left(), 1);
    has(expression, "[:<:]]") || has(expression, "[:>:]]")
}
