//! What to write in place of `\|`, which stands between expressions.

use crate::bytes::{behind_command, byte_at, ends_command, ends_escaped, has, without_blanks};
use crate::spot::{Purpose, Spot};

/// For `\|`.
pub(crate) fn bar_hint(spot: Spot) -> &'static str {
    if spot.reading().groups > 0 {
        return group_hint(spot);
    }
    match spot.purpose() {
        Purpose::Range =>
            "a range needs one expression, as `[ab]` for `a\\|b` or `xa\\{0,1\\}` for `x\\|xa`",
        _ if spot.is_meant_later() => AGAIN,
        Purpose::ReplacesAll if spot.is_counted() => ONCE,
        Purpose::ReplacesAll if spot.is_reported() => APART,
        Purpose::ReplacesAll =>
            "for `s/a\\|b/x/g` write `s/a/x/g` and `s/b/x/g`, if each match has a byte, and none of one overlaps or makes a match of the other",
        Purpose::Replaces => ONCE,
        Purpose::Unless =>
            "for `/a\\|b/!d` write `/a/b keep`, `/b/b keep`, `d` and `:keep` on lines of their own",
        Purpose::Deletes => "for `/a\\|b/d` write `/a/d` and `/b/d`",
        Purpose::Selects =>
            "for `/a\\|b/p` write `/a/b do`, `/b/b do`, `b on`, `:do`, `p` and `:on` on lines of their own",
    }
}

const ONCE: &str =
    "for `s/a\\|b/x/` write `s/a/x/` and `s/b/x/`, if no line matches both, nor `b` once `a` is replaced";

/// Where the flag `p` or `w` would print or write twice, or what has a mark in it.
const APART: &str =
    "the flags `p` and `w` want a command of their own: for `s/X/NEW/p` write `/X/{`, `s/X/NEW/`, `p` and `}` on lines of their own; then each X has a hint";

/// The same hint, or why there is none with a number.
pub(crate) fn apart_hint(spot: Spot) -> &'static str {
    if spot.is_counted() {
        return "POSIX has no equivalent with a number and the flag `p` or `w` at once: do it without one of them";
    }
    APART
}

/// Where an empty expression follows.
pub(crate) const AGAIN: &str =
    "`//` is the expression that was used last: write the whole one there, as `/a\\|b/s/a\\|b/x/` for `/a\\|b/s//x/`; then each has a hint";

/// For `\|` in a group.
fn group_hint(spot: Spot) -> &'static str {
    match spot.purpose() {
        Purpose::Range =>
            "write `\\([ab]\\)` for `\\(a\\|b\\)`, `\\(64\\)\\{0,1\\}` for `\\(\\|64\\)` and `\\(\\.[ch]\\)` for `\\(\\.c\\|\\.h\\)`: a range \
                needs one expression",
        _ if spot.is_meant_later() => ALTERNATIVES_AGAIN,
        Purpose::Unless =>
            "write `\\([ab]\\)` for `\\(a\\|b\\)`, `\\(64\\)\\{0,1\\}` for `\\(\\|64\\)` and `\\(\\.[ch]\\)` for `\\(\\.c\\|\\.h\\)`; otherwise \
                for `/x\\(ab\\|cd\\)/!d` write `/xab/b keep`, `/xcd/b keep`, `d` and `:keep` on lines of their own",
        Purpose::Deletes =>
            "write `\\([ab]\\)` for `\\(a\\|b\\)`, `\\(64\\)\\{0,1\\}` for `\\(\\|64\\)` and `\\(\\.[ch]\\)` for `\\(\\.c\\|\\.h\\)`; otherwise \
                write one command for each alternative",
        Purpose::Selects =>
            "write `\\([ab]\\)` for `\\(a\\|b\\)`, `\\(64\\)\\{0,1\\}` for `\\(\\|64\\)` and `\\(\\.[ch]\\)` for `\\(\\.c\\|\\.h\\)`; otherwise \
                for `/x\\(ab\\|cd\\)/p` write `/xab/b do`, `/xcd/b do`, `b on`, `:do`, `p` and `:on` on lines of their own",
        Purpose::Replaces | Purpose::ReplacesAll => replaced_hint(spot),
    }
}

const ALTERNATIVES: &str =
    "write `\\([ab]\\)` for `\\(a\\|b\\)`, `\\(64\\)\\{0,1\\}` for `\\(\\|64\\)` and `\\(\\.[ch]\\)` for `\\(\\.c\\|\\.h\\)`; otherwise write one \
        command for each alternative, if no line has a match of two of them, nor of one that another makes";

/// The same before an empty expression.
const ALTERNATIVES_AGAIN: &str =
    "write `\\([ab]\\)` for `\\(a\\|b\\)`, `\\(64\\)\\{0,1\\}` for `\\(\\|64\\)` and `\\(\\.[ch]\\)` for `\\(\\.c\\|\\.h\\)`; otherwise write the \
        whole expression in place of `//`, which means the one that was used last; then each has a hint";

/// For `\|` in a group of an `s`.
fn replaced_hint(spot: Spot) -> &'static str {
    let made = spot.replacement();
    let is_last = spot.rest.starts_with(b"\\|$\\)")
        && byte_at(spot.rest, 5) == spot.delimiter()
        && !has(spot.inside(), "\\)");
    if spot.inside() == b"\\(^".as_slice() {
        let is_kept = !copies_mark(made.strip_prefix(b"\\1").unwrap_or(made));
        if is_tested(spot) && !(is_kept && follows_label(spot) && made.starts_with(b"\\1")) {
            return tested_start_hint(spot);
        }
        return if is_kept {
            start_hint(spot)
        } else {
            ALTERNATIVES
        };
    }
    if is_last && spot.reading().groups == 1 {
        let is_kept = !copies_mark(made.strip_suffix(b"\\1").unwrap_or(made));
        if is_tested(spot) && !(is_kept && follows_label(spot) && ends_escaped(made, b'1')) {
            return tested_end_hint(spot);
        }
        return if is_kept {
            end_hint(spot)
        } else {
            ALTERNATIVES
        };
    }
    ALTERNATIVES
}

/// Whether this part of a replacement has the first group or the whole match, and so a newline that marks an end of the line.
fn copies_mark(part: &[u8]) -> bool {
    has(part, "\\1") || has(part, "&")
}

/// For `\(^\|`, where a newline marks the start.
fn start_hint(spot: Spot) -> &'static str {
    if spot.is_reported() {
        return apart_hint(spot);
    }
    if is_tested(spot) {
        return "for `s/\\(^\\|,\\)a/\\1b/` in a loop write `s/^/\\n/` before the loop, `s/\\([\\n,]\\)a/\\1b/` in it and `s/^\\n//` after it, if the \
            pattern space is one line and doesn't begin with both, a match of `a` and one of `,a`; a list such as `[^0-9]` has the newline already; the \
            last `s` sets the flag that `t` tests";
    }
    "for `s/\\(^\\|,\\)a/\\1b/` write `s/^/\\n/`, `s/\\([\\n,]\\)a/\\1b/` and `s/^\\n//`, if the pattern space is one line and doesn't \
        begin with both, a match of `a` and one of `,a`; a list such as `[^0-9]` has the newline already; the first `s` sets the flag that `t` tests"
}

/// For `\|$\)`, where a newline marks the end.
fn end_hint(spot: Spot) -> &'static str {
    if spot.is_reported() {
        return apart_hint(spot);
    }
    if is_tested(spot) {
        return "for `s/a\\(,\\|$\\)/b\\1/` in a loop write `s/$/\\n/` before the loop, `s/a\\([\\n,]\\)/b\\1/` in it and `s/\\n$//` after it, if the \
            pattern space is one line, and each match of `a` has a byte, and none has a `,`; a list such as `[^0-9]` has the newline already; \
            the last `s` sets the flag that `t` tests";
    }
    "for `s/a\\(,\\|$\\)/b\\1/` write `s/$/\\n/`, `s/a\\([\\n,]\\)/b\\1/` and `s/\\n$//`, if the pattern space is one line, and each match of `a` \
        has a byte, and none has a `,`; a list such as `[^0-9]` has the newline already; the first `s` sets the flag that `t` tests"
}

/// For `\(^\|` before a `t`, whose flag an `s` more would set.
fn tested_start_hint(spot: Spot) -> &'static str {
    match spot.purpose() {
        _ if spot.is_counted() => ALTERNATIVES,
        Purpose::ReplacesAll if spot.is_reported() => APART,
        Purpose::ReplacesAll =>
            "for `s/\\(^\\|,\\)a/b/g` and `t end` write `s/^a/b/`, `s/,a/b/g` and `t end`, if the pattern space doesn't begin with both, a match of \
                `a` and one of `,a`, and the first `s` makes no match of the second",
        _ =>
            "for `s/\\(^\\|,\\)a/b/` and `t end` write `s/^a/b/`, `t end`, `s/,a/b/` and `t end`, if the pattern space doesn't begin with both, a \
                match of `a` and one of `,a`",
    }
}

/// For `\|$\)` before a `t`.
fn tested_end_hint(spot: Spot) -> &'static str {
    match spot.purpose() {
        _ if spot.is_counted() => ALTERNATIVES,
        Purpose::ReplacesAll if spot.is_reported() => APART,
        Purpose::ReplacesAll =>
            "for `s/a\\(,\\|$\\)/b/g` and `t end` write `s/a,/b/g`, `s/a$/b/` and `t end`, if each match of `a` has a byte, and no match of \
                one overlaps or makes a match of the other",
        _ =>
            "for `s/a\\(,\\|$\\)/b/` and `t end` write `s/a,/b/`, `t end`, `s/a$/b/` and `t end`, if no match of one overlaps one of the other",
    }
}

/// Whether a label precedes the fault, so that the `t` after it may lead back.
fn follows_label(spot: Spot) -> bool {
    for command in spot.before.split(ends_command) {
        if without_blanks(command).starts_with(b":") {
            return true;
        }
    }
    false
}

/// Whether a `t` comes right after the `s` whose expression has the fault.
fn is_tested(spot: Spot) -> bool {
    without_blanks(behind_command(spot.flags())).starts_with(b"t")
}
