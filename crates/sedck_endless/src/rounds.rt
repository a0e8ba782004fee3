//! Runs that come back to a state.

ghost use Rattle.std.specs.Prelude.{◌≡◌, map, true, IfOk, IfSome};
ghost use Rattle.sedck_flow.specs.Run.{Steps, state_after};
ghost use Rattle.sedck_model.specs.States.{lines_of, state_of, move_of};
ghost use Rattle.sedck_endless.specs.Endless.{ComesBack};

use sedck_model::{Budget, Move, State, Undecided, is_same, step};
use sedck_script::Script;

/// Whether these steps are a run on the lines that comes to a state, and the round then leads from it to itself.
pub(crate) fn comes_back(
    script: &Script,
    lines: &[&[u8]],
    steps: &[Move],
    round: &[Move],
    budget: &mut Budget,
) -> Result<bool, Undecided>
    ensures { IfOk result (λ yes. yes ≡ true → ComesBack script.now (lines_of lines.now)) }
{
    if round.is_empty() {
        return Ok(false);
    }
    let Some(begin) = leads(script, State::Start(lines), steps, budget)? else {
        return Ok(false);
    };
    let Some(end) = leads(script, begin, round, budget)? else {
        return Ok(false);
    };
    match (begin, end) {
        (State::At(one), State::At(other)) => Ok(is_same(&one, &other)),
        _ => Ok(false),
    }
}

/// Where the steps lead from the state, if each is one of the model's.
fn leads<'a>(
    script: &Script,
    from: State<'a>,
    steps: &[Move<'a>],
    budget: &mut Budget,
) -> Result<Option<State<'a>>, Undecided>
    ensures steps { IfOk result (λ found. IfSome found (λ after. Steps script.now (state_of from.entry) (map move_of steps.now))) }
    ensures after { IfOk result (λ found. IfSome found (λ after. state_of after ≡ state_after (state_of from.entry) (map move_of steps.now))) }
{
    let mut before = from;
    for next in steps {
        if !step(script, &before, next, budget)? {
            return Ok(None);
        }
        before = next.after;
    }
    Ok(Some(before))
}
