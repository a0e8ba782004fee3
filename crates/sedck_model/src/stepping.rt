//! Whether a step is one of the model's.

ghost use Rattle.std.specs.Prelude.{◌≡◌, ◌≤◌, ◌<◌, ◌+◌, ◌^◌, ◌↔◌, IsTrue, IfOk};
ghost use Rattle.sedck_text.specs.Bytes.{newline};
ghost use Rattle.sedck_script.specs.View.{command_of, verb_of};
ghost use Rattle.sedck_flow.specs.Run as model;
ghost use Rattle.sedck_flow.specs.Run.{Step, StepAt, StepPast, skip, posix};
ghost use Rattle.sedck_model.specs.States.{machine_of, state_of, event_of};
ghost use Rattle.sedck_model.specs.Private.Verbs.{Applies, Skips};

use crate::applying::{branches, does};
use crate::arriving::{begins_cycle, goes_on};
use crate::events::is_silent;
use crate::selecting::{may_apply, may_skip};
use crate::spending::{Budget, Undecided};
use crate::states::{Machine, Move, State};
use sedck_script::{Command, Script, Verb};

/// Whether the step goes past the verb; a block is left out whole.
fn goes_past(verb: &Verb, before: &Machine, after: &State) -> bool
    requires { before.now.at + 1 < 2 ^ 64 }
    ensures { IsTrue result ↔ state_of after.now ≡ skip (verb_of verb.now) (machine_of before.now) }
{
    match verb {
        Verb::Block(behind) => branches(*behind, before, after),
        _ => goes_on(before, after),
    }
}

/// Whether this step applies the command.
fn is_applied(
    script: &Script,
    command: &Command,
    before: &Machine,
    next: &Move,
    budget: &mut Budget,
) -> Result<bool, Undecided>
    requires { before.now.at + 1 < 2 ^ 64 }
    ensures decided { IfOk result (λ yes. IsTrue yes ↔ Applies script.now (command_of command.now) (machine_of before.now)
        (event_of next.now.event) (state_of next.now.after)) }
    ensures used { result ≡ Err Undecided.OutOfBudget → budget.new.left ≡ 0 }
    ensures spent { budget.new.left ≤ budget.old.left }
{
    if !does(script, command, before, next, budget)? {
        return Ok(false);
    }
    may_apply(script, command, before, budget)
}

/// Whether this step skips the command.
fn is_skipped(
    script: &Script,
    command: &Command,
    before: &Machine,
    next: &Move,
    budget: &mut Budget,
) -> Result<bool, Undecided>
    requires { before.now.at + 1 < 2 ^ 64 }
    ensures decided { IfOk result (λ yes. IsTrue yes ↔ Skips script.now (command_of command.now) (machine_of before.now)
        (event_of next.now.event) (state_of next.now.after)) }
    ensures used { result ≡ Err Undecided.OutOfBudget → budget.new.left ≡ 0 }
    ensures spent { budget.new.left ≤ budget.old.left }
{
    if !is_silent(&next.event) || !goes_past(&command.verb, before, &next.after) {
        return Ok(false);
    }
    may_skip(script, command, before, budget)
}

/// Whether this step applies or skips the command.
fn step_at(
    script: &Script,
    command: &Command,
    before: &Machine,
    next: &Move,
    budget: &mut Budget,
) -> Result<bool, Undecided>
    requires { before.now.at + 1 < 2 ^ 64 }
    ensures decided { IfOk result (λ yes. IsTrue yes ↔ StepAt posix newline script.now (command_of command.now) (machine_of before.now)
        (event_of next.now.event) (state_of next.now.after)) }
    ensures used { result ≡ Err Undecided.OutOfBudget → budget.new.left ≡ 0 }
    ensures spent { budget.new.left ≤ budget.old.left }
{
    if is_applied(script, command, before, next, budget)? {
        return Ok(true);
    }
    is_skipped(script, command, before, next, budget)
}

/// Whether this is a step from after the last command.
fn step_past(script: &Script, before: &Machine, next: &Move) -> bool
    ensures { IsTrue result ↔ StepPast script.now (machine_of before.now) (event_of next.now.event) (state_of next.now.after) }
{
    before.at == script.commands().len()
        && is_silent(&next.event)
        && begins_cycle(before.unread, before.hold, &next.after)
}

/// Whether this is a step from before a command, or from after the last one.
fn step_from(
    script: &Script,
    before: &Machine,
    next: &Move,
    budget: &mut Budget,
) -> Result<bool, Undecided>
    ensures decided { IfOk result (λ yes. IsTrue yes
        ↔ Step script.now (model.At (machine_of before.now)) (event_of next.now.event) (state_of next.now.after)) }
    ensures used { result ≡ Err Undecided.OutOfBudget → budget.new.left ≡ 0 }
    ensures spent { budget.new.left ≤ budget.old.left }
{
    let commands = script.commands();
    if before.at >= commands.len() {
        return Ok(step_past(script, before, next));
    }
    let command = &commands[before.at];
    step_at(script, command, before, next, budget)
}

/// Whether a step with this event may lead from the one state to the other.
pub fn step(
    script: &Script,
    before: &State,
    next: &Move,
    budget: &mut Budget,
) -> Result<bool, Undecided>
    ensures decided { IfOk result (λ yes. IsTrue yes ↔ Step script.now (state_of before.now) (event_of next.now.event) (state_of next.now.after)) }
    ensures used { result ≡ Err Undecided.OutOfBudget → budget.new.left ≡ 0 }
    ensures spent { budget.new.left ≤ budget.old.left }
{
    match before {
        State::Start(lines) => Ok(is_silent(&next.event) && begins_cycle(lines, &[], &next.after)),
        State::At(machine) => step_from(script, machine, next, budget),
        State::Done => Ok(false),
    }
}
