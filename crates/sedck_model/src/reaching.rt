//! Where matches end, and whether there is one.

ghost use Rattle.std.specs.Prelude.{◌≡◌, ◌≤◌, length, IfOk, IsTrue, ◌↔◌};
ghost use Rattle.std.specs.List.{All};
ghost use Rattle.sedck_bre.specs.View.{tree};
ghost use Rattle.sedck_model.specs.Spots.{beginning, AreEnds, HasPartIn};

use crate::following::follow;
use crate::spending::{Budget, Undecided};
use crate::spots::Spot;
use sedck_bre::Bre;

/// Where the matches of the tree that begin at the offset end, each with the texts of the groups; no group has a text at the beginning.
pub fn ends(
    expression: &Bre,
    text: &[u8],
    from: usize,
    budget: &mut Budget,
) -> Result<Vec<Spot>, Undecided>
    requires { from ≤ length text.now }
    ensures ends { IfOk result (λ spots. AreEnds text.now (tree expression.now) (beginning text.now from) spots.items) }
    ensures places { IfOk result (λ spots. All (λ s. (from ≤ s.at) × (s.at ≤ length text.now)) spots.items) }
    ensures used { result ≡ Err Undecided.OutOfBudget → budget.new.left ≡ 0 }
    ensures spent { budget.new.left ≤ budget.old.left }
{
    let start = Spot {
        at: from,
        groups: [None; 256],
    };
    follow(expression, text, &[start], budget)
}

/// Whether some part of the text is in the language of the tree.
pub fn has_match(expression: &Bre, text: &[u8], budget: &mut Budget) -> Result<bool, Undecided>
    ensures exact { IfOk result (λ yes. IsTrue yes ↔ HasPartIn (tree expression.now) text.now) }
    ensures used { result ≡ Err Undecided.OutOfBudget → budget.new.left ≡ 0 }
    ensures spent { budget.new.left ≤ budget.old.left }
{
    for from in 0..=text.len() {
        let spots = ends(expression, text, from, budget)?;
        if !spots.is_empty() {
            return Ok(true);
        }
    }
    Ok(false)
}
