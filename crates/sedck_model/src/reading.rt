//! Verbs that read lines: `n`, `N` and `D`.

ghost use Rattle.std.specs.Prelude.{◌↔◌, ◌+◌, ◌<◌, ◌^◌, ◌++◌, ◌∷◌, IsTrue};
ghost use Rattle.sedck_text.specs.Bytes.{newline};
ghost use Rattle.sedck_flow.specs.Run.{TakesLine, DropsFirstLine, after_end};
ghost use Rattle.sedck_model.specs.States.{lines_of, machine_of, state_of};

use crate::arriving::{begins_cycle, is_done, is_kept_or_reset, is_same};
use crate::states::{Machine, State};
use crate::texts::{behind_newline, is_joined};

/// `n`: whether the next line takes the place of the pattern space, or the run ends.
pub(crate) fn takes_line(before: &Machine, after: &State) -> bool
    requires { before.now.at + 1 < 2 ^ 64 }
    ensures { IsTrue result ↔ TakesLine (λ line. line) (machine_of before.now) (lines_of before.now.unread.now)
        (state_of after.now) }
{
    if before.unread.is_empty() {
        return is_done(after);
    }
    let State::At(found) = after else {
        return false;
    };
    let expected = Machine {
        at: before.at + 1,
        flag: found.flag,
        unread: &before.unread[1..],
        pattern: before.unread[0],
        hold: before.hold,
    };
    is_kept_or_reset(before.flag, found.flag) && is_same(found, &expected)
}

/// `N`: whether the next line is added to the pattern space, or the run ends.
pub(crate) fn adds_line(before: &Machine, after: &State) -> bool
    requires { before.now.at + 1 < 2 ^ 64 }
    ensures { IsTrue result ↔ TakesLine (λ line. before.now.pattern.now ++ newline ∷ line) (machine_of before.now)
        (lines_of before.now.unread.now) (state_of after.now) }
{
    if before.unread.is_empty() {
        return is_done(after);
    }
    let State::At(found) = after else {
        return false;
    };
    let expected = Machine {
        at: before.at + 1,
        flag: found.flag,
        unread: &before.unread[1..],
        pattern: found.pattern,
        hold: before.hold,
    };
    is_kept_or_reset(before.flag, found.flag)
        && is_joined(found.pattern, before.pattern, before.unread[0])
        && is_same(found, &expected)
}

/// `D` where the pattern space has a newline, by what is behind it: whether a cycle begins with that.
fn restarts(before: &Machine, rest: &[u8], after: &State) -> bool
    ensures { IsTrue result ↔ DropsFirstLine (machine_of before.now) (Some rest.now) (state_of after.now) }
{
    let State::At(found) = after else {
        return false;
    };
    let expected = Machine {
        at: 0,
        flag: found.flag,
        pattern: rest,
        ..*before
    };
    is_kept_or_reset(before.flag, found.flag) && is_same(found, &expected)
}

/// `D`: whether a cycle begins with what is behind the first newline, or with the next line where there is none.
pub(crate) fn drops_first_line(before: &Machine, after: &State) -> bool
    ensures { IsTrue result ↔ DropsFirstLine (machine_of before.now) (after_end newline before.now.pattern.now)
        (state_of after.now) }
{
    match behind_newline(before.pattern) {
        Some(rest) => restarts(before, rest, after),
        None => begins_cycle(before.unread, before.hold, after),
    }
}
