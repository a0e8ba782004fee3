//! Lists of spots without repetitions.

ghost use Rattle.std.specs.Prelude.{◌≡◌, ◌≤◌, [], ◌∷◌, OnOk, IfOk};
ghost use Rattle.sedck_model.specs.Private.Lists.{Adds, IsWithout};

use crate::spending::{Budget, Undecided};
use crate::spots::Spot;
use std::alloc::{AllocError, Global};

/// Adds a spot that isn't there yet.
pub(crate) fn add(spots: &mut Vec<Spot>, spot: Spot, budget: &mut Budget) -> Result<(), Undecided>
    ensures added { OnOk result (Adds spots.old.items (spot ∷ []) spots.new.items) }
    ensures used { result ≡ Err Undecided.OutOfBudget → budget.new.left ≡ 0 }
    ensures spent { budget.new.left ≤ budget.old.left }
{
    budget.spend()?;
    if !spots.contains(&spot) {
        spots.push(spot)?;
    }
    Ok(())
}

/// Adds each of these spots that isn't there yet.
pub(crate) fn add_all(
    spots: &mut Vec<Spot>,
    others: &[Spot],
    budget: &mut Budget,
) -> Result<(), Undecided>
    ensures added { OnOk result (Adds spots.old.items others.now spots.new.items) }
    ensures used { result ≡ Err Undecided.OutOfBudget → budget.new.left ≡ 0 }
    ensures spent { budget.new.left ≤ budget.old.left }
{
    for spot in others {
        add(spots, *spot, budget)?;
    }
    Ok(())
}

/// The spots that aren't among the others.
pub(crate) fn without(
    alloc: Global,
    spots: &[Spot],
    others: &[Spot],
) -> Result<Vec<Spot>, AllocError>
    ensures { IfOk result (λ left. IsWithout spots.now others.now left.items) }
{
    let mut left = Vec::new(alloc);
    for spot in spots {
        if !others.contains(spot) {
            left.push(*spot)?;
        }
    }
    Ok(left)
}
