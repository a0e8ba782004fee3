//! What no clause says: that the functions answer, and within which budget.

use crate::model::rows::{require, require_equal};
use sedck_bre::{Expr, parse};
use sedck_model::{Budget, Spot, Undecided, ends, has_match};
use std::alloc::Global;
use std::process::Abort;

/// An expression, a text, whether it is in the language, and whether some part of it is.
type Row = (&'static str, &'static str, bool, bool);

static LANGUAGES: &'static [Row] = &[
    ("a*", "aaa", true, true),
    ("b*", "aaa", false, true),
    ("b", "aaa", false, false),
    ("b", "", false, false),
    ("a.c", "abc", true, true),
    ("[ab]\\{2,3\\}", "abab", false, true),
    ("[ab]\\{2,\\}", "abab", true, true),
    ("[^ab]\\{2,\\}", "abab", false, false),
    // the group has one a or two, and its text is there once more
    ("\\(a\\{1,2\\}\\)\\1", "aaaa", true, true),
    ("\\(a\\{1,2\\}\\)\\1", "aaa", false, true),
    // each round of the repetition may set the group anew
    ("\\(a\\{1,2\\}\\)*b\\1", "aaabaa", true, true),
    ("\\(a\\{1,2\\}\\)*b\\1", "aaaba", true, true),
    ("\\(a\\{1,2\\}\\)*b\\1", "aaabaaa", false, true),
    // sixteen million rounds that lead nowhere are not made
    (
        "\\(\\(\\(a\\{255\\}\\)\\{255\\}\\)\\{255\\}\\)b",
        "ab",
        false,
        false,
    ),
    // a repetition of the empty text ends
    ("\\(a*\\)*", "aab", false, true),
];

fn expression_of(rt: &impl Abort, alloc: Global, text: &[u8]) -> Expr {
    match parse(alloc, text) {
        Ok(expression) => expression,
        Err(_) => panic!(rt; "refused: {text:?}"),
    }
}

/// Whether a match ends there.
fn has_end(spots: &[Spot], end: usize) -> bool {
    for spot in spots {
        if spot.at == end {
            return true;
        }
    }
    false
}

/// Whether the text is in the language of the expression, and whether some part of it is.
fn found_in(rt: &impl Abort, alloc: Global, written: &str, text: &[u8]) -> (bool, bool) {
    let expression = expression_of(rt, alloc, written.as_bytes());
    let body = expression.body();
    let mut budget = Budget {
        alloc,
        left: 10_000,
    };
    let spots = ends(body, text, 0, &mut budget).expect(rt, written);
    let part = has_match(body, text, &mut budget).expect(rt, written);
    (has_end(&spots, text.len()), part)
}

#[test]
fn languages(rt: HostRuntime) {
    for (written, text, whole, part) in LANGUAGES {
        let found = found_in(&rt, rt.alloc(), *written, text.as_bytes());
        require_equal(&rt, found, (*whole, *part), (*written, *text));
    }
}

/// An expression, a text, where matches begin in it, and how many ends they have.
static ENDS: &'static [(&'static str, &'static str, usize, usize)] = &[
    ("a*", "baaa", 1, 4),
    // one for each way to cut what is matched
    ("\\(a*\\)\\(a*\\)", "aa", 0, 6),
];

fn count_ends(rt: &impl Abort, alloc: Global, written: &str, text: &str, from: usize) -> usize {
    let expression = expression_of(rt, alloc, written.as_bytes());
    let mut budget = Budget { alloc, left: 100 };
    let spots = ends(
        expression.body(),
        text.as_bytes(),
        from.min(text.len()),
        &mut budget,
    );
    spots.expect(rt, written).len()
}

#[test]
fn every_end(rt: HostRuntime) {
    for (written, text, from, count) in ENDS {
        let found = count_ends(&rt, rt.alloc(), *written, *text, *from);
        require_equal(&rt, found, *count, *written);
    }
}

#[test]
fn budgets_are_used_up(rt: HostRuntime) {
    let expression = expression_of(&rt, rt.alloc(), b"a");
    let alloc = rt.alloc();
    let mut budget = Budget { alloc, left: 0 };
    let undecided = has_match(expression.body(), b"a", &mut budget);
    require(&rt, undecided == Err(Undecided::OutOfBudget), "no budget");
}
