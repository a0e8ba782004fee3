//! Whether steps are a run.

ghost use Rattle.std.specs.Prelude.{◌≡◌, ◌≤◌, map, MatchOption, IfOk};
ghost use Rattle.sedck_flow.specs.Run.{Run};
ghost use Rattle.sedck_model.specs.States.{lines_of, move_of, IsFirstWrong};

use crate::spending::{Budget, Undecided};
use crate::states::{Move, State};
use crate::stepping::step;
use sedck_script::Script;

/// Whether these steps are a run on these lines, finished or not: none, or the number of the first step that is none of the model's.
pub fn follows(
    script: &Script,
    lines: &[&[u8]],
    steps: &[Move],
    budget: &mut Budget,
) -> Result<Option<usize>, Undecided>
    ensures decided { IfOk result (λ wrong. MatchOption wrong (Run script.now (lines_of lines.now) (map move_of steps.now))
        (IsFirstWrong script.now (lines_of lines.now) (map move_of steps.now))) }
    ensures used { result ≡ Err Undecided.OutOfBudget → budget.new.left ≡ 0 }
    ensures spent { budget.new.left ≤ budget.old.left }
{
    let mut before = State::Start(lines);
    for (i, next) in steps.iter().enumerate() {
        if !step(script, &before, next, budget)? {
            return Ok(Some(i));
        }
        before = next.after;
    }
    Ok(None)
}
