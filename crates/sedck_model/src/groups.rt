//! The texts of groups at a spot.

ghost use Rattle.std.specs.Prelude.{◌≡◌, ◌≤◌, map, OnOk};
ghost use Rattle.sedck_bre.specs.Tree.{groups_in, groups_in_all, trees};
ghost use Rattle.sedck_bre.specs.View.{tree};
ghost use Rattle.sedck_model.specs.Private.Lists.{KeepsWithin};
ghost use Rattle.sedck_model.specs.Private.Relations.{AreUnset, UnsetsGroups, SetsGroup, AddsClosed};

use crate::adding::add;
use crate::spending::{Budget, Undecided};
use crate::spots::{Span, Spot};
use sedck_bre::Bre;

/// Where a group is entered that unsets the groups inside.
pub(crate) fn entered(body: &Bre, spot: &Spot) -> Spot
    ensures at { result.at ≡ spot.now.at }
    ensures groups { UnsetsGroups (tree body.now) spot.now result }
{
    let mut groups = spot.groups;
    clear(body, &mut groups);
    Spot {
        at: spot.at,
        groups,
    }
}

/// Takes the spans of the groups in the tree away.
#[cycle(clearing)]
fn clear(expression: &Bre, groups: &mut [Option<Span>; 256])
    ensures { AreUnset (groups_in (tree expression.now)) groups.old groups.new }
{
    match expression {
        Bre::Group(k, body) => {
            groups[*k as usize] = None;
            clear(body, groups);
        }
        Bre::Seq(items) => clear_all(items, groups),
        Bre::Repeat { body, .. } => clear(body, groups),
        _ => {}
    }
}

#[cycle(clearing)]
fn clear_all(items: &[Bre], groups: &mut [Option<Span>; 256])
    ensures { AreUnset (groups_in_all (trees (map tree items.now))) groups.old groups.new }
{
    for item in items {
        clear(item, groups);
    }
}

/// Adds the spots at which the group is left that began at the start.
pub(crate) fn add_closed(
    spots: &mut Vec<Spot>,
    group: u8,
    start: &Spot,
    ends: &[Spot],
    budget: &mut Budget,
) -> Result<(), Undecided>
    ensures added { OnOk result (AddsClosed group start.now spots.old.items ends.now spots.new.items) }
    ensures within { OnOk result (KeepsWithin spots.old.items ends.now spots.new.items) }
    ensures used { result ≡ Err Undecided.OutOfBudget → budget.new.left ≡ 0 }
    ensures spent { budget.new.left ≤ budget.old.left }
{
    for end in ends {
        add(spots, closed(group, start, end), budget)?;
    }
    Ok(())
}

/// The spot where the group ends that began at the start.
fn closed(group: u8, start: &Spot, end: &Spot) -> Spot
    ensures at { result.at ≡ end.now.at }
    ensures groups { SetsGroup group start.now end.now result }
{
    let mut groups = end.groups;
    groups[group as usize] = Some(Span {
        start: start.at,
        end: end.at,
    });
    Spot { at: end.at, groups }
}
