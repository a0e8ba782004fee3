//! The search for an input.

ghost use Rattle.std.specs.Prelude.{◌≡◌, map, true, IfOk, IfSome};
ghost use Rattle.sedck_model.specs.States.{lines_of};
ghost use Rattle.sedck_endless.specs.Endless.{ComesBack};

use crate::advancing::advanced;
use crate::held::Held;
use crate::rounds::comes_back;
use sedck_model::{Budget, Move, State, Undecided};
use sedck_script::Script;
use std::alloc::{AllocError, Global};

/// How much work is done, in steps of the model: some milliseconds.
const WORK: u64 = 1_500;

/// How many states of a run are looked at.
const STATES: usize = 60;

/// No longer pattern or hold space is looked at: `G` and `H` in turn make both grow exponentially.
const TEXT: usize = 4_096;

/// No script with more commands is run.
const COMMANDS: usize = 256;

/// Lines on which some run of the script never ends: one or two of those that were drawn, if there are such.
pub fn endless_input<'a>(
    alloc: Global,
    script: &Script,
    drawn: &'a [Vec<u8>],
) -> Result<Option<Vec<&'a [u8]>>, AllocError>
    ensures { IfOk result (λ found. IfSome found (λ lines. ComesBack script.now (lines_of lines.items))) }
{
    if script.commands().len() > COMMANDS {
        return Ok(None);
    }
    let mut budget = Budget { alloc, left: WORK };
    for first in drawn {
        let mut lines: Vec<&'a [u8]> = Vec::new(alloc);
        lines.push(first.as_slice())?;
        if is_endless(script, &lines, &mut budget)? {
            return Ok(Some(lines));
        }
    }
    for first in drawn {
        for second in drawn {
            let mut lines: Vec<&'a [u8]> = Vec::new(alloc);
            lines.push(first.as_slice())?;
            lines.push(second.as_slice())?;
            if is_endless(script, &lines, &mut budget)? {
                return Ok(Some(lines));
            }
        }
    }
    Ok(None)
}

/// Whether the run on these lines comes back to a state. Where the budget is used up, nothing is known.
fn is_endless(script: &Script, lines: &[&[u8]], budget: &mut Budget) -> Result<bool, AllocError>
    ensures { IfOk result (λ yes. yes ≡ true → ComesBack script.now (lines_of lines.now)) }
{
    match run(script, lines, budget) {
        Ok(found) => Ok(found),
        Err(Undecided::OutOfBudget) => Ok(false),
        Err(Undecided::OutOfMemory) => Err(AllocError),
    }
}

fn run(script: &Script, lines: &[&[u8]], budget: &mut Budget) -> Result<bool, Undecided>
    ensures { IfOk result (λ yes. yes ≡ true → ComesBack script.now (lines_of lines.now)) }
{
    let states = states_of(script, lines, budget)?;
    let Some(last) = states.last() else {
        return Ok(false);
    };
    let Some(begin) = states.iter().position(|state| state.is_same(last)) else {
        return Ok(false);
    };
    let steps = moves_of(budget.alloc, &states, lines)?;
    let (front, round) = steps.split_at(begin.saturating_add(1).min(steps.len()));
    comes_back(script, lines, front, round, budget)
}

/// The states of the run, up to the first that was there before.
fn states_of<'a>(
    script: &Script<'a>,
    lines: &[&[u8]],
    budget: &mut Budget,
) -> Result<Vec<Held<'a>>, Undecided> {
    let mut states: Vec<Held<'a>> = Vec::new(budget.alloc);
    let Some(line) = lines.first() else {
        return Ok(states);
    };
    states.push(Held::begin(budget.alloc, line)?)?;
    for _ in 0..STATES {
        budget.spend()?;
        let Some(last) = states.last() else {
            break;
        };
        let Some(next) = advanced(script, lines, last, budget)? else {
            break;
        };
        if next.pattern.len().max(next.hold.len()) > TEXT {
            break;
        }
        let is_known = states.iter().any(|state| state.is_same(&next));
        states.push(next)?;
        if is_known {
            break;
        }
    }
    Ok(states)
}

/// The steps that lead to the states.
fn moves_of<'a>(
    alloc: Global,
    states: &'a [Held<'a>],
    lines: &'a [&'a [u8]],
) -> Result<Vec<Move<'a>>, AllocError> {
    let mut moves: Vec<Move<'a>> = Vec::new(alloc);
    for state in states {
        moves.push(Move {
            event: state.event,
            after: State::At(state.machine(lines)),
        })?;
    }
    Ok(moves)
}
