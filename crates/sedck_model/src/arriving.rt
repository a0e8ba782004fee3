//! Whether a step leads to a state.

ghost use Rattle.std.specs.Prelude.{◌≡◌, ◌↔◌, ◌+◌, ◌<◌, ◌^◌, false, IsTrue, []};
ghost use Rattle.sedck_flow.specs.Run as model;
ghost use Rattle.sedck_flow.specs.Run.{NextCycle, onward, KeptOrReset};
ghost use Rattle.sedck_model.specs.States.{lines_of, machine_of, state_of};

use crate::states::{Machine, State};
use crate::texts::same_lines;

/// Whether both are the same state, wherever their texts are in memory.
pub fn is_same(found: &Machine, expected: &Machine) -> bool
    ensures { IsTrue result ↔ machine_of found.now ≡ machine_of expected.now }
{
    found.at == expected.at
        && found.flag == expected.flag
        && same_lines(found.unread, expected.unread)
        && found.pattern == expected.pattern
        && found.hold == expected.hold
}

/// Whether the state is this one, before a command or after the last one.
pub(crate) fn is_at(after: &State, expected: &Machine) -> bool
    ensures { IsTrue result ↔ state_of after.now ≡ model.At (machine_of expected.now) }
{
    match after {
        State::Start(_) => false,
        State::At(found) => is_same(found, expected),
        State::Done => false,
    }
}

pub(crate) fn is_done(after: &State) -> bool
    ensures { IsTrue result ↔ state_of after.now ≡ model.Done }
{
    match after {
        State::Start(_) => false,
        State::At(_) => false,
        State::Done => true,
    }
}

/// Whether a cycle begins by reading a line, or the run ends where no line is left.
pub(crate) fn begins_cycle(unread: &[&[u8]], hold: &[u8], after: &State) -> bool
    ensures { IsTrue result ↔ NextCycle (lines_of unread.now) [] hold.now (state_of after.now) }
{
    if unread.is_empty() {
        return is_done(after);
    }
    let expected = Machine {
        at: 0,
        flag: false,
        unread: &unread[1..],
        pattern: unread[0],
        hold,
    };
    is_at(after, &expected)
}

/// Whether the step goes on to the next command, with all else as it is.
pub(crate) fn goes_on(before: &Machine, after: &State) -> bool
    requires { before.now.at + 1 < 2 ^ 64 }
    ensures { IsTrue result ↔ state_of after.now ≡ onward (machine_of before.now) }
{
    let expected = Machine {
        at: before.at + 1,
        ..*before
    };
    is_at(after, &expected)
}

/// Whether the flag is as it was, or reset.
pub(crate) fn is_kept_or_reset(old: bool, new: bool) -> bool
    ensures { IsTrue result ↔ KeptOrReset old new }
{
    new == old || !new
}
