//! Verbs that change the spaces: `c`, `g`, `G`, `h`, `H`, `x` and `y`.

ghost use Rattle.std.specs.Prelude.{◌≡◌, ◌↔◌, ◌+◌, ◌<◌, ◌^◌, ◌++◌, ◌∷◌, suc, ℕ, List, IsTrue};
ghost use Rattle.sedck_text.specs.Bytes.{newline};
ghost use Rattle.sedck_script.specs.View.{address_of};
ghost use Rattle.sedck_flow.specs.Run as model;
ghost use Rattle.sedck_flow.specs.Run.{ChangesText, Transliterates, onward_with};
ghost use Rattle.sedck_model.specs.States.{machine_of, state_of};

use crate::arriving::{begins_cycle, is_at, is_same};
use crate::states::{Machine, State};
use crate::texts::is_joined;
use crate::transliterating::transliterates;
use sedck_script::Address;

/// Whether the step goes on with this text for its pattern space.
fn goes_on_with(before: &Machine, pattern: &[u8], after: &State) -> bool
    requires { before.now.at + 1 < 2 ^ 64 }
    ensures { IsTrue result ↔ state_of after.now ≡ onward_with (machine_of before.now) pattern.now }
{
    let expected = Machine {
        at: before.at + 1,
        pattern,
        ..*before
    };
    is_at(after, &expected)
}

/// `c`: whether the next cycle begins, or at a range the step goes on with an empty pattern space.
pub(crate) fn changes_text(address: &Address, before: &Machine, after: &State) -> bool
    requires { before.now.at + 1 < 2 ^ 64 }
    ensures { IsTrue result ↔ ChangesText (address_of address.now) (machine_of before.now) (state_of after.now) }
{
    let begins = begins_cycle(before.unread, before.hold, after);
    match address {
        Address::None => begins,
        Address::One(_) => begins,
        Address::Two(_, _) => begins || goes_on_with(before, &[], after),
    }
}

/// `g`.
pub(crate) fn gets(before: &Machine, after: &State) -> bool
    requires { before.now.at + 1 < 2 ^ 64 }
    ensures { IsTrue result ↔ state_of after.now ≡ onward_with (machine_of before.now) before.now.hold.now }
{
    goes_on_with(before, before.hold, after)
}

/// `G`.
pub(crate) fn gets_appended(before: &Machine, after: &State) -> bool
    requires { before.now.at + 1 < 2 ^ 64 }
    ensures { IsTrue result ↔ state_of after.now
        ≡ onward_with (machine_of before.now) (before.now.pattern.now ++ newline ∷ before.now.hold.now) }
{
    let State::At(found) = after else {
        return false;
    };
    is_joined(found.pattern, before.pattern, before.hold)
        && goes_on_with(before, found.pattern, after)
}

/// `h`.
pub(crate) fn holds(before: &Machine, after: &State) -> bool
    requires { before.now.at + 1 < 2 ^ 64 }
    ensures { IsTrue result ↔ state_of after.now
        ≡ model.At (record (machine_of before.now) { at = suc before.now.at; hold = before.now.pattern.now }) }
{
    let expected = Machine {
        at: before.at + 1,
        hold: before.pattern,
        ..*before
    };
    is_at(after, &expected)
}

/// `H`.
pub(crate) fn holds_appended(before: &Machine, after: &State) -> bool
    requires { before.now.at + 1 < 2 ^ 64 }
    ensures { IsTrue result ↔ state_of after.now ≡ model.At (record (machine_of before.now)
        { at = suc before.now.at; hold = before.now.hold.now ++ newline ∷ before.now.pattern.now }) }
{
    let State::At(found) = after else {
        return false;
    };
    let expected = Machine {
        at: before.at + 1,
        hold: found.hold,
        ..*before
    };
    is_joined(found.hold, before.hold, before.pattern) && is_same(found, &expected)
}

/// `x`.
pub(crate) fn exchanges(before: &Machine, after: &State) -> bool
    requires { before.now.at + 1 < 2 ^ 64 }
    ensures { IsTrue result ↔ state_of after.now ≡ model.At (record (machine_of before.now)
        { at = suc before.now.at; pattern = before.now.hold.now; hold = before.now.pattern.now }) }
{
    let expected = Machine {
        at: before.at + 1,
        pattern: before.hold,
        hold: before.pattern,
        ..*before
    };
    is_at(after, &expected)
}

/// `y`.
pub(crate) fn becomes(from: &[u8], to: &[u8], before: &Machine, after: &State) -> bool
    requires { before.now.at + 1 < 2 ^ 64 }
    ensures { IsTrue result ↔ ((text : List ℕ) × Transliterates from.now to.now before.now.pattern.now text
        × (state_of after.now ≡ onward_with (machine_of before.now) text)) }
{
    let State::At(found) = after else {
        return false;
    };
    transliterates(from, to, before.pattern, found.pattern)
        && goes_on_with(before, found.pattern, after)
}
