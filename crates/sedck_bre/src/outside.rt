//! The groups that are items of an expression, and the least length outside of some of them.
ghost use Rattle.std.specs.Prelude.{◌≡◌, ◌<◌, ℕ, map, min};
ghost use Rattle.std.specs.List.{list_any};
ghost use Rattle.sedck_expressions.specs.Tree.{trees};
ghost use Rattle.sedck_bre.specs.Lengths.{cap};
ghost use Rattle.sedck_bre.specs.Rests.{is_group, names};
ghost use Rattle.sedck_expressions.specs.View.{tree};
ghost use Rattle.sedck_bre.specs.Private.Bounds.{no_bounds, is_named, outside};

use crate::least::{CAP, least_of};
use sedck_expressions::Bre;

fn is_group(item: &Bre, k: u8) -> bool
    ensures { result ≡ is_group k (tree item.now) }
{
    match item {
        Bre::Group(j, _) => *j == k,
        _ => false,
    }
}

/// Whether the group is one of the items.
pub(crate) fn has_group(items: &[Bre], k: u8) -> bool
    ensures { result ≡ list_any (λ item. is_group k (tree item)) items.now }
{
    items.iter().any(|item| is_group(item, k))
}

/// The bit of the group that the item is; a group above 15 has none.
fn group_bit(item: &Bre) -> u16
    ensures { (k : ℕ) → k < 16 → names result k ≡ is_group k (tree item.now) }
{
    match item {
        Bre::Group(k, _) if *k < 16 => 1 << *k,
        _ => 0,
    }
}

/// The bits of the groups that are items.
pub(crate) fn groups_among(items: &[Bre]) -> u16
    ensures { (k : ℕ) → k < 16 → names result k ≡ list_any (λ item. is_group k (tree item)) items.now }
{
    let mut groups = 0;
    for item in items {
        groups |= group_bit(item);
    }
    groups
}

/// Whether the item is a group whose bit is set.
fn is_named(item: &Bre, groups: u16) -> bool
    ensures { result ≡ is_named groups (tree item.now) }
{
    match item {
        Bre::Group(k, _) => *k < 16 && (groups >> *k) & 1 == 1,
        _ => false,
    }
}

/// The least length of a match of the items that aren't named groups.
pub(crate) fn least_outside_of(items: &[Bre], groups: u16) -> u32
    ensures { result ≡ min (outside groups no_bounds (trees (map tree items.now))) cap }
{
    let mut known = [0; 256];
    let mut total: u32 = 0;
    for item in items {
        let n = least_of(item, &mut known);
        if !is_named(item, groups) {
            total = total.saturating_add(n).min(CAP);
        }
    }
    total
}
