//! What a command does where it is applied, by its verb.

ghost use Rattle.std.specs.Prelude.{◌≡◌, ◌≤◌, ◌↔◌, ◌+◌, ◌<◌, ◌^◌, if◌then◌else◌, false, IsTrue, IfOk};
ghost use Rattle.sedck_text.specs.Bytes.{newline};
ghost use Rattle.sedck_script.specs.Program.{Program};
ghost use Rattle.sedck_script.specs.View.{address_of, substitution_of, verb_of};
ghost use Rattle.sedck_flow.specs.Run as model;
ghost use Rattle.sedck_flow.specs.Run.{Does, SubstituteStep, onward, posix};
ghost use Rattle.sedck_model.specs.States.{machine_of, state_of, event_of};
ghost use Rattle.sedck_model.specs.Private.Verbs.{IsPlain};

use crate::arriving::{begins_cycle, goes_on, is_at, is_done, is_same};
use crate::changing::{
    becomes, changes_text, exchanges, gets, gets_appended, holds, holds_appended,
};
use crate::events::{is_file_event, is_read, is_silent, is_written};
use crate::reading::{adds_line, drops_first_line, takes_line};
use crate::spending::{Budget, Undecided};
use crate::states::{Machine, Move, State};
use crate::substituting::substitutes;
use sedck_script::{Address, Command, Script, Substitution, Verb};

/// `b`, and `t` where the flag is set: whether the step leads to the target.
pub(crate) fn branches(target: usize, before: &Machine, after: &State) -> bool
    ensures { IsTrue result ↔ state_of after.now ≡ model.At (record (machine_of before.now) { at = target }) }
{
    let expected = Machine {
        at: target,
        ..*before
    };
    is_at(after, &expected)
}

/// `t`: whether the step leads to the target and resets the flag, or goes on where it isn't set.
fn tests(target: usize, before: &Machine, after: &State) -> bool
    requires { before.now.at + 1 < 2 ^ 64 }
    ensures { IsTrue result ↔ state_of after.now ≡ (if before.now.flag
        then model.At (record (machine_of before.now) { at = target; flag = false })
        else onward (machine_of before.now)) }
{
    if !before.flag {
        return goes_on(before, after);
    }
    let expected = Machine {
        at: target,
        flag: false,
        ..*before
    };
    is_at(after, &expected)
}

/// What a verb may do that touches no file and matches nothing.
fn plainly_does(address: &Address, verb: &Verb, before: &Machine, after: &State) -> bool
    requires { before.now.at + 1 < 2 ^ 64 }
    ensures { (p : Program) → (IsTrue result ↔ (IsPlain (verb_of verb.now)
        × Does posix newline p (address_of address.now) (verb_of verb.now) (machine_of before.now) model.Silent (state_of after.now))) }
{
    match verb {
        Verb::Read(_) => false,
        Verb::Write(_) => false,
        Verb::Substitute(_) => false,
        Verb::Branch(target) => branches(*target, before, after),
        Verb::Test(target) => tests(*target, before, after),
        Verb::Change(_) => changes_text(address, before, after),
        Verb::Transliterate(from, to) => becomes(from, to, before, after),
        Verb::Delete => begins_cycle(before.unread, before.hold, after),
        Verb::DeleteFirstLine => drops_first_line(before, after),
        Verb::Get => gets(before, after),
        Verb::GetAppend => gets_appended(before, after),
        Verb::Hold => holds(before, after),
        Verb::HoldAppend => holds_appended(before, after),
        Verb::Next => takes_line(before, after),
        Verb::NextAppend => adds_line(before, after),
        Verb::Quit => is_done(after),
        Verb::Exchange => exchanges(before, after),
        Verb::Label(_) => goes_on(before, after),
        Verb::Block(_) => goes_on(before, after),
        Verb::Append(_) => goes_on(before, after),
        Verb::Insert(_) => goes_on(before, after),
        Verb::List => goes_on(before, after),
        Verb::Print => goes_on(before, after),
        Verb::PrintFirstLine => goes_on(before, after),
        Verb::LineNumber => goes_on(before, after),
    }
}

/// `s`: whether it finds nothing, or substitutes and sets the flag.
fn substitutes_on(
    script: &Script,
    substitution: &Substitution,
    before: &Machine,
    next: &Move,
    budget: &mut Budget,
) -> Result<bool, Undecided>
    requires { before.now.at + 1 < 2 ^ 64 }
    ensures decided { IfOk result (λ yes. IsTrue yes ↔ SubstituteStep posix script.now (substitution_of substitution.now)
        (machine_of before.now) (event_of next.now.event) (state_of next.now.after)) }
    ensures used { result ≡ Err Undecided.OutOfBudget → budget.new.left ≡ 0 }
    ensures spent { budget.new.left ≤ budget.old.left }
{
    if is_silent(&next.event) && goes_on(before, &next.after) {
        return Ok(true);
    }
    let State::At(found) = &next.after else {
        return Ok(false);
    };
    let expected = Machine {
        at: before.at + 1,
        flag: true,
        pattern: found.pattern,
        ..*before
    };
    if !is_file_event(&next.event, &substitution.file) || !is_same(found, &expected) {
        return Ok(false);
    }
    substitutes(script, substitution, before.pattern, found.pattern, budget)
}

/// Whether the command, applied, may lead to the state, with the event.
pub(crate) fn does(
    script: &Script,
    command: &Command,
    before: &Machine,
    next: &Move,
    budget: &mut Budget,
) -> Result<bool, Undecided>
    requires { before.now.at + 1 < 2 ^ 64 }
    ensures decided { IfOk result (λ yes. IsTrue yes ↔ Does posix newline script.now (address_of command.now.address)
        (verb_of command.now.verb) (machine_of before.now) (event_of next.now.event) (state_of next.now.after)) }
    ensures used { result ≡ Err Undecided.OutOfBudget → budget.new.left ≡ 0 }
    ensures spent { budget.new.left ≤ budget.old.left }
{
    let Move { event, after } = next;
    match &command.verb {
        Verb::Read(name) => Ok(is_read(event, name) && goes_on(before, after)),
        Verb::Write(name) => Ok(is_written(event, name) && goes_on(before, after)),
        Verb::Substitute(substitution) => {
            substitutes_on(script, substitution, before, next, budget)
        }
        verb => Ok(is_silent(event) && plainly_does(&command.address, verb, before, after)),
    }
}
