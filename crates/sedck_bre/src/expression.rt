//! Well formed expressions, and what is kept with one.

ghost use Rattle.std.specs.Prelude.{◌≡◌, ◌≤◌, ◌&&◌, not, ℕ, Some, IfOk, IfErr};
ghost use Rattle.sedck_expressions.specs.View.{tree};
ghost use Rattle.sedck_expressions.specs.Tree.{Tree, group_count};
ghost use Rattle.sedck_expressions.specs.Shape.{Shape};
ghost use Rattle.sedck_expressions.specs.Faults.{IsPlaced, IsOfText};
ghost use Rattle.sedck_expressions.specs.FirstFault.{first_fault};
ghost use Rattle.sedck_bre.specs.Lengths.{IsLeastSize, HasLength};
ghost use Rattle.sedck_bre.specs.Rests.{is_top_group, names, named, NamesTopGroups, HasRest};
ghost use Rattle.sedck_bre.specs.Private.Bounds.{HasTopGroups};

use crate::least::least_of;
use crate::outside::{groups_among, has_group, least_outside_of};
use sedck_expressions::{Bre, ReFault, read_tree};
use std::alloc::Global;
use std::marker::Model;

/// A well formed expression.
#[derive(Drop)]
pub struct Expr {
    body: Bre,
    groups: u8,
    least: u32,
    /// The groups up to 15 that are items of the whole expression: bit k stands for group k.
    top: u16,
}

impl Model for Expr {
    ghost use Rattle.sedck_expressions.specs.Tree.{Tree};
    ghost use Rattle.sedck_bre.specs.Private.TreeCode.{coded_tree};

    ghost Value = { Tree };

    ghost coded = { coded_tree };

    ghost use Rattle.sedck_expressions.specs.View.{tree};
    ghost use Rattle.std.specs.Prelude.{◌≡◌};
    ghost use Rattle.sedck_expressions.specs.Tree.{group_count};
    ghost use Rattle.sedck_expressions.specs.WellFormed.{IsWellFormed};
    ghost use Rattle.sedck_bre.specs.Lengths.{IsLeastSize, HasLength};
    ghost use Rattle.sedck_bre.specs.Private.Bounds.{HasTopGroups};

    ghost view = { λ e. tree e.body };

    ghost invariant = { λ e. IsWellFormed (tree e.body) × (e.groups ≡ group_count (tree e.body))
        × IsLeastSize (HasLength (tree e.body)) e.least × HasTopGroups (tree e.body) e.top };
}

impl Expr {
    ghost use Rattle.sedck_expressions.specs.View.{tree};
    ghost use Rattle.sedck_expressions.specs.WellFormed.{IsWellFormed};

    pub(crate) fn new(body: Bre, groups: u8) -> Expr
        requires formed { IsWellFormed (tree body) }
        requires groups { groups ≡ group_count (tree body) }
        ensures { result ≡ tree body }
    {
        let mut known = [0; 256];
        let least = least_of(&body, &mut known);
        let top = top_groups(&body, groups);
        Expr {
            body,
            groups,
            least,
            top,
        }
    }

    /// The tree.
    pub fn body(&self) -> &Bre
        ensures { tree result.now ≡ self.now }
    {
        &self.body
    }

    /// The number of groups.
    pub fn groups(&self) -> u8
        ensures { result ≡ group_count self.now }
    {
        self.groups
    }

    /// The least length of a text of the language, or 16,777,215 where the least is above it.
    pub fn least(&self) -> u32
        ensures { IsLeastSize (HasLength self.now) result }
    {
        self.least
    }

    /// Whether the group is an item of the whole expression: in no other group, and not repeated.
    pub fn top_group(&self, k: u8) -> bool
        ensures { result ≡ is_top_group self.now k }
    {
        if k < 16 {
            return (self.top >> k) & 1 == 1;
        }
        match &self.body {
            Bre::Seq(items) => has_group(items, k),
            _ => false,
        }
    }

    /// Whether the group is an item of the whole expression and not among these. Bit k stands for group k.
    pub fn other_top_group(&self, groups: u16, k: u8) -> bool
        requires { k ≤ 9 }
        ensures { result ≡ (is_top_group self.now k && not (names groups k)) }
    {
        self.top_group(k) && (groups >> k) & 1 != 1
    }

    /// The least length of what of a match lies outside of these groups, or 16,777,215 where the least is above it. Bit k
    /// stands for group k.
    pub fn least_outside(&self, groups: u16) -> u32
        requires { NamesTopGroups self.now groups }
        ensures least { IsLeastSize (HasRest self.now (named groups)) result }
        ensures whole { groups ≡ 0 → IsLeastSize (HasLength self.now) result }
    {
        match &self.body {
            Bre::Seq(items) => least_outside_of(items, groups),
            // No group is an item, so none is named.
            _ => self.least,
        }
    }
}

/// The groups up to 15 that are items of the whole expression, as bits; it has so many groups.
fn top_groups(expression: &Bre, groups: u8) -> u16
    requires { groups ≡ group_count (tree expression.now) }
    ensures { HasTopGroups (tree expression.now) result }
{
    if groups == 0 {
        return 0;
    }
    match expression {
        Bre::Seq(items) => groups_among(items),
        _ => 0,
    }
}

/// The expression that the text spells. Of several faults the one that is met first is reported.
pub fn parse(alloc: Global, text: &[u8]) -> Result<Expr, ReFault>
    ensures shape { IfOk result (λ e. Shape text.now e) }
    ensures only { IfOk result (λ e. (t : Tree) → Shape text.now t → t ≡ e) }
    ensures refused { IfErr result (λ fault. IsOfText fault → (t : Tree) → Shape text.now t → ⊥) }
    ensures first { IfErr result (λ fault. IsOfText fault → first_fault text.now ≡ Some fault) }
    ensures place { IfErr result (λ fault. IsPlaced text.now fault) }
{
    let (body, groups) = read_tree(alloc, text)?;
    Ok(Expr::new(body, groups))
}
