//! Which commands are applied.

ghost use Rattle.std.specs.Prelude.{◌≡◌, ◌≤◌, ◌↔◌, IsTrue, IfOk};
ghost use Rattle.sedck_script.specs.Program as plain;
ghost use Rattle.sedck_script.specs.View.{pattern_of, place_of, address_of, command_of};
ghost use Rattle.sedck_flow.specs.Patterns.{HasMatch};
ghost use Rattle.sedck_flow.specs.Run.{MaySelect, MayNotSelect, MayApply, MaySkip, is_conditional as has_condition, posix};
ghost use Rattle.sedck_model.specs.States.{machine_of};

use crate::candidates::candidates;
use crate::reaching::has_match;
use crate::spending::{Budget, Undecided};
use crate::states::Machine;
use sedck_script::{Address, Command, Pattern, Place, Script};

/// Whether some part of the text is matched by the pattern, or where it is empty by an expression of the script.
fn is_matched(
    script: &Script,
    pattern: &Pattern,
    text: &[u8],
    budget: &mut Budget,
) -> Result<bool, Undecided>
    ensures decided { IfOk result (λ yes. IsTrue yes ↔ HasMatch script.now (pattern_of pattern.now) text.now) }
    ensures used { result ≡ Err Undecided.OutOfBudget → budget.new.left ≡ 0 }
    ensures spent { budget.new.left ≤ budget.old.left }
{
    let found = candidates(budget.alloc, script, pattern)?;
    for expression in &found {
        if has_match(expression, text, budget)? {
            return Ok(true);
        }
    }
    Ok(false)
}

/// Whether this address alone may select.
fn may_select_at(
    script: &Script,
    place: &Place,
    machine: &Machine,
    budget: &mut Budget,
) -> Result<bool, Undecided>
    ensures decided { IfOk result (λ yes. IsTrue yes
        ↔ MaySelect posix script.now (plain.One (place_of place.now)) (machine_of machine.now)) }
    ensures used { result ≡ Err Undecided.OutOfBudget → budget.new.left ≡ 0 }
    ensures spent { budget.new.left ≤ budget.old.left }
{
    match place {
        Place::Line(_) => Ok(true),
        Place::Last => Ok(machine.unread.is_empty()),
        Place::Context(pattern) => is_matched(script, pattern, machine.pattern, budget),
    }
}

/// Whether the address may select.
fn may_select(
    script: &Script,
    address: &Address,
    machine: &Machine,
    budget: &mut Budget,
) -> Result<bool, Undecided>
    ensures decided { IfOk result (λ yes. IsTrue yes
        ↔ MaySelect posix script.now (address_of address.now) (machine_of machine.now)) }
    ensures used { result ≡ Err Undecided.OutOfBudget → budget.new.left ≡ 0 }
    ensures spent { budget.new.left ≤ budget.old.left }
{
    match address {
        Address::None => Ok(true),
        Address::One(place) => may_select_at(script, place, machine, budget),
        Address::Two(_, _) => Ok(true),
    }
}

/// Whether the address may fail to select.
fn may_not_select(address: &Address, machine: &Machine) -> bool
    ensures { IsTrue result ↔ MayNotSelect (address_of address.now) (machine_of machine.now) }
{
    match address {
        Address::None => true,
        Address::One(Place::Line(_)) => true,
        Address::One(Place::Last) => !machine.unread.is_empty(),
        Address::One(Place::Context(_)) => true,
        Address::Two(_, _) => true,
    }
}

/// Whether the command may be applied.
pub(crate) fn may_apply(
    script: &Script,
    command: &Command,
    machine: &Machine,
    budget: &mut Budget,
) -> Result<bool, Undecided>
    ensures decided { IfOk result (λ yes. IsTrue yes
        ↔ MayApply posix script.now (command_of command.now) (machine_of machine.now)) }
    ensures used { result ≡ Err Undecided.OutOfBudget → budget.new.left ≡ 0 }
    ensures spent { budget.new.left ≤ budget.old.left }
{
    if command.negated {
        return Ok(may_not_select(&command.address, machine));
    }
    may_select(script, &command.address, machine, budget)
}

/// Whether the command has an address or a `!`.
fn is_conditional(command: &Command) -> bool
    ensures { result ≡ has_condition (command_of command.now) }
{
    match &command.address {
        Address::None => command.negated,
        Address::One(_) => true,
        Address::Two(_, _) => true,
    }
}

/// Whether the command may be skipped.
pub(crate) fn may_skip(
    script: &Script,
    command: &Command,
    machine: &Machine,
    budget: &mut Budget,
) -> Result<bool, Undecided>
    ensures decided { IfOk result (λ yes. IsTrue yes
        ↔ MaySkip posix script.now (command_of command.now) (machine_of machine.now)) }
    ensures used { result ≡ Err Undecided.OutOfBudget → budget.new.left ≡ 0 }
    ensures spent { budget.new.left ≤ budget.old.left }
{
    if !is_conditional(command) {
        return Ok(false);
    }
    if command.negated {
        return may_select(script, &command.address, machine, budget);
    }
    Ok(may_not_select(&command.address, machine))
}
