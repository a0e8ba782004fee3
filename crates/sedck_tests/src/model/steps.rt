//! Runs and steps that are decided: no clause says that an answer is given at all.

use crate::model::rows::{require, require_equal};
use crate::texts::script_of;
use sedck_model::{Budget, Event, Machine, Move, State, follows, step};
use std::alloc::Global;
use std::process::Abort;

/// Before the command at this place, with nothing but a pattern space.
fn machine<'a>(at: usize, pattern: &'a [u8]) -> Machine<'a> {
    Machine {
        at,
        flag: false,
        unread: &[],
        pattern,
        hold: &[],
    }
}

/// What a step without an event leads to: the lines that are left, the place, the pattern space and the hold space.
type Next = (Lines, usize, &'static str, &'static str);

type Lines = &'static [&'static [u8]];

/// A script, the lines, the steps of a run, whether one more ends it, and the first of all that is none of the model's, if there is any.
type Run = (&'static str, Lines, &'static [Next], bool, Option<usize>);

static RUNS: &'static [Run] = &[
    ("p", &[], &[], true, None),
    (
        "x;G",
        &[b"a"],
        &[(&[], 0, "a", ""), (&[], 1, "", "a"), (&[], 2, "\na", "a")],
        true,
        None,
    ),
    (
        "G",
        &[b"a"],
        &[(&[], 0, "a", ""), (&[], 1, "a", "")],
        false,
        Some(1),
    ),
    (
        "y/ab/ba/",
        &[b"a"],
        &[(&[], 0, "a", ""), (&[], 1, "b", "")],
        true,
        None,
    ),
    (
        "y/ab/cc/",
        &[b"a"],
        &[(&[], 0, "a", ""), (&[], 1, "b", "")],
        true,
        Some(1),
    ),
];

static RUNS_ON_TWO_LINES: &'static [Run] = &[
    (
        "N;P;D",
        &[b"a", b"b"],
        &[
            (&[b"b"], 0, "a", ""),
            (&[], 1, "a\nb", ""),
            (&[], 2, "a\nb", ""),
            (&[], 0, "b", ""),
        ],
        true,
        None,
    ),
    (
        "n",
        &[b"a", b"b"],
        &[(&[b"b"], 0, "a", ""), (&[], 1, "a", "")],
        false,
        Some(1),
    ),
    ("$!q", &[b"a", b"b"], &[(&[b"b"], 0, "a", "")], true, None),
    (
        "$!q",
        &[b"a", b"b"],
        &[(&[b"b"], 0, "a", ""), (&[b"b"], 1, "a", "")],
        false,
        Some(1),
    ),
];

fn move_to(next: &Next) -> Move<'static> {
    let (unread, at, pattern, hold) = next;
    let after = Machine {
        unread: *unread,
        hold: hold.as_bytes(),
        ..machine(*at, pattern.as_bytes())
    };
    Move {
        event: Event::Silent,
        after: State::At(after),
    }
}

/// The steps, and one more where they end the run.
fn moves_of(rt: &impl Abort, alloc: Global, steps: &[Next], is_done: bool) -> Vec<Move<'static>> {
    let mut moves: Vec<Move> = Vec::new(alloc);
    for next in steps {
        moves.push(move_to(next)).expect(rt, "memory");
    }
    if is_done {
        let (event, after) = (Event::Silent, State::Done);
        moves.push(Move { event, after }).expect(rt, "memory");
    }
    moves
}

/// The first step that is none of the model's, in a run of the script on these lines; none where all are.
fn first_wrong(
    rt: &impl Abort,
    alloc: Global,
    text: &str,
    lines: Lines,
    moves: &[Move],
) -> Option<usize> {
    let script = script_of(rt, alloc, text.as_bytes());
    let mut budget = Budget { alloc, left: 1000 };
    follows(&script, lines, moves, &mut budget).expect(rt, text)
}

fn are_followed(rt: &impl Abort, alloc: Global, rows: &[Run]) {
    for (text, lines, steps, is_done, wanted) in rows {
        let moves = moves_of(rt, alloc, *steps, *is_done);
        let found = first_wrong(rt, alloc, *text, *lines, &moves);
        require_equal(rt, found, *wanted, *text);
    }
}

#[test]
fn runs_are_followed(rt: HostRuntime) {
    are_followed(&rt, rt.alloc(), RUNS);
}

#[test]
fn runs_on_two_lines_are_followed(rt: HostRuntime) {
    are_followed(&rt, rt.alloc(), RUNS_ON_TWO_LINES);
}

/// A script, whether the flag is set before its first step, what that does to a file, the place and the pattern space after it (none
/// at the end of the run), and whether the model has the step. The pattern space is `a` before it.
type Case = (
    &'static str,
    bool,
    Event<'static>,
    Option<(usize, &'static str)>,
    bool,
);

static CASES: &'static [Case] = &[
    ("w f", false, Event::Writes(b"f"), Some((1, "a")), true),
    ("w f", false, Event::Silent, Some((1, "a")), false),
    ("w f", false, Event::Reads(b"f"), Some((1, "a")), false),
    ("r f", false, Event::Reads(b"f"), Some((1, "a")), true),
    ("t", true, Event::Silent, Some((1, "a")), true),
    ("t;p", true, Event::Silent, Some((2, "a")), true),
    ("t;p", true, Event::Silent, Some((1, "a")), false),
    ("t;p", false, Event::Silent, Some((1, "a")), true),
    ("1{p;p};p", false, Event::Silent, Some((3, "a")), true),
    ("1{p;p};p", false, Event::Silent, Some((2, "a")), false),
    ("2,3c\\\nx", false, Event::Silent, Some((1, "")), true),
    ("2c\\\nx", false, Event::Silent, Some((1, "")), false),
    ("s/b/c/w f", false, Event::Silent, Some((1, "a")), true),
    ("n", true, Event::Silent, None, true),
    ("/a/d", false, Event::Silent, None, true),
    ("/b*$/d", false, Event::Silent, None, true),
    ("/b/d", false, Event::Silent, None, false),
    ("/b/!d", false, Event::Silent, Some((1, "a")), false),
    ("//d;/a/p", false, Event::Silent, None, true),
];

/// The state before the command at this place, or at the end of the run.
fn state_at<'a>(after: &Option<(usize, &'a str)>) -> State<'a> {
    match after {
        Some((at, pattern)) => State::At(machine(*at, pattern.as_bytes())),
        None => State::Done,
    }
}

/// Whether the model has the step of the script's first command from this machine.
fn is_step(rt: &impl Abort, alloc: Global, text: &str, before: Machine, next: &Move) -> bool {
    let script = script_of(rt, alloc, text.as_bytes());
    let mut budget = Budget { alloc, left: 1000 };
    let start = State::At(before);
    step(&script, &start, next, &mut budget).expect(rt, text)
}

#[test]
fn steps_are_decided(rt: HostRuntime) {
    for (text, flag, event, after, wanted) in CASES {
        let before = Machine {
            flag: *flag,
            ..machine(0, b"a")
        };
        let next = Move {
            event: *event,
            after: state_at(after),
        };
        let found = is_step(&rt, rt.alloc(), *text, before, &next);
        require(&rt, found == *wanted, *text);
    }
}

/// A script, a pattern space, what its first command may make of it, and whether it may. The flag is set by it.
static SUBSTITUTED: &'static [(&'static str, &'static str, &'static str, bool)] = &[
    ("s/a*/x/g", "a", "xx", true),
    ("s/a*/x/g", "a", "x", true),
    ("s/a*/x/g", "a", "xax", true),
    ("s/a*/x/g", "a", "ax", true),
    ("s/a*/x/g", "a", "a", false),
    ("s/a*/x/g", "baaac", "xbxcx", true),
    // an empty match isn't directly followed by another one
    ("s/a*/x/g", "baaac", "xxbxc", false),
    ("s/c*/x/", "ab", "axb", true),
    ("s/c*/x/", "ab", "xaxb", false),
    ("s/\\(a\\)\\(b\\)/\\2\\n\\1&/", "ab", "b\naab", true),
];

#[test]
fn substitutions_are_decided(rt: HostRuntime) {
    for (text, old, new, wanted) in SUBSTITUTED {
        let after = State::At(Machine {
            flag: true,
            ..machine(1, new.as_bytes())
        });
        let next = Move {
            event: Event::Silent,
            after,
        };
        let before = machine(0, old.as_bytes());
        let found = is_step(&rt, rt.alloc(), *text, before, &next);
        require_equal(&rt, found, *wanted, (*text, *new));
    }
}
