//! Items that lead to one place at most.

ghost use Rattle.std.specs.Prelude.{◌≡◌, ◌≤◌, length, IfOk, IsTrue, ◌↔◌};
ghost use Rattle.sedck_bre.specs.View.{tree, has_bit};
ghost use Rattle.sedck_model.specs.Private.Lists.{AreLed, AreWithin, IsNext};
ghost use Rattle.sedck_model.specs.Private.Relations.{Takes, Consumes, Repeats, Passes};

use crate::adding::add;
use crate::spending::{Budget, Undecided};
use crate::spots::Spot;
use sedck_bre::{Bre, ByteSet};

/// Where an item leads that leads to one place at most, and where a `Maybe` leads by its byte.
pub(crate) fn pass(
    expression: &Bre,
    text: &[u8],
    from: &[Spot],
    budget: &mut Budget,
) -> Result<Vec<Spot>, Undecided>
    requires { AreWithin text.now from.now }
    ensures led { IfOk result (λ spots. AreLed (Passes (tree expression.now)) text.now from.now spots.items) }
    ensures within { IfOk result (λ spots. AreWithin text.now spots.items) }
    ensures used { result ≡ Err Undecided.OutOfBudget → budget.new.left ≡ 0 }
    ensures spent { budget.new.left ≤ budget.old.left }
{
    let mut spots = Vec::new(budget.alloc);
    for spot in from {
        if let Some(after) = next(expression, text, spot) {
            add(&mut spots, after, budget)?;
        }
    }
    Ok(spots)
}

fn next(expression: &Bre, text: &[u8], spot: &Spot) -> Option<Spot>
    requires { spot.now.at ≤ length text.now }
    ensures { IsNext (Passes (tree expression.now)) text.now spot.now result }
{
    match expression {
        Bre::Ref(group) => after_group_text(*group, text, spot),
        Bre::Byte(_) | Bre::Any | Bre::Set(_) | Bre::Maybe(_) => after_byte(expression, text, spot),
        _ => None,
    }
}

fn after_group_text(group: u8, text: &[u8], spot: &Spot) -> Option<Spot>
    requires { spot.now.at ≤ length text.now }
    ensures { IsNext (Repeats group) text.now spot.now result }
{
    let found = spot.group_text(text, group);
    let rest = &text[spot.at..];
    if rest.starts_with(found) {
        Some(Spot {
            at: spot.at + found.len(),
            groups: spot.groups,
        })
    } else {
        None
    }
}

fn after_byte(expression: &Bre, text: &[u8], spot: &Spot) -> Option<Spot>
    requires { spot.now.at ≤ length text.now }
    ensures { IsNext (Consumes (tree expression.now)) text.now spot.now result }
{
    if spot.at < text.len() && takes(expression, text[spot.at]) {
        Some(Spot {
            at: spot.at + 1,
            groups: spot.groups,
        })
    } else {
        None
    }
}

/// Whether the item takes the byte.
fn takes(expression: &Bre, byte: u8) -> bool
    ensures { IsTrue result ↔ Takes (tree expression.now) byte }
{
    match expression {
        Bre::Byte(own) => byte == *own,
        Bre::Any => true,
        Bre::Set(set) => is_member(*set, byte),
        Bre::Maybe(own) => byte == *own,
        _ => false,
    }
}

fn is_member(set: ByteSet, byte: u8) -> bool
    ensures { result ≡ has_bit set.0 byte }
{
    (set.0[byte as usize / 64] >> (byte % 64)) & 1 == 1
}
