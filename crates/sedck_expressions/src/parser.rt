//! From a text to the tree that it spells: its list of items, and the groups in it.

ghost use Rattle.std.specs.Prelude.{◌≡◌, ◌+◌, ◌++◌, ◌<◌, ◌≤◌, ℕ, List, length, drop, map, Some, IfOk, IfErr, IsTrue, true, false};
ghost use Rattle.sedck_text.specs.Cursors.{unread};
ghost use Rattle.sedck_expressions.specs.Tree.{Tree, groups_in, group_count, trees};
ghost use Rattle.sedck_expressions.specs.View.{tree};
ghost use Rattle.sedck_expressions.specs.Shape.{Shape};
ghost use Rattle.sedck_expressions.specs.Shape as shape;
ghost use Rattle.sedck_expressions.specs.Faults.{IsPlaced, IsOfText};
ghost use Rattle.sedck_expressions.specs.Private.Sequence.{sequence};
ghost use Rattle.sedck_expressions.specs.Reading.{begins_pair, at_end, items, atom, group_at};
ghost use Rattle.sedck_expressions.specs.FirstFault.{full, first_fault};
ghost use Rattle.sedck_expressions.specs.Private.Gives.{Gives, position_of, level_of, ClosedIs};

use crate::fault::ReFault;
use crate::groups::Groups;
use crate::items::{Position, is_at_end, position_behind, read_repetition, read_single};
use crate::tree::Bre;
use sedck_text::Cursor;
use std::alloc::Global;

/// The tree that the text spells, and the number of its groups. Of several faults the one that is met first is reported.
pub fn read_tree(alloc: Global, text: &[u8]) -> Result<(Bre, u8), ReFault>
    ensures shape { IfOk result (λ x. Shape text.now (tree x.0)) }
    ensures only { IfOk result (λ x. (t : Tree) → Shape text.now t → t ≡ tree x.0) }
    ensures groups { IfOk result (λ x. x.1 ≡ group_count (tree x.0)) }
    ensures refused { IfErr result (λ fault. IsOfText fault → (t : Tree) → Shape text.now t → ⊥) }
    ensures first { IfErr result (λ fault. IsOfText fault → first_fault text.now ≡ Some fault) }
    ensures place { IfErr result (λ fault. IsPlaced text.now fault) }
{
    let mut groups = Groups {
        opened: 0,
        closed: [false; 256],
    };
    let (items, end) = read_items(alloc, 0, &mut groups, Cursor::new(text))?;
    if !end.unread().is_empty() {
        let place = end.offset();
        return Err(ReFault::UnopenedGroup { place });
    }
    Ok((Bre::Seq(items), groups.opened))
}

/// The items up to the end of their list, and the cursor behind them. The depth is the number of groups that are open.
#[cycle(items)]
fn read_items<'a>(
    alloc: Global,
    depth: u8,
    groups: &mut Groups,
    cursor: Cursor<'a>,
) -> Result<(Vec<Bre>, Cursor<'a>), ReFault>
    requires few { groups.old.opened ≤ 99 }
    requires shallow { depth ≤ 32 }
    ensures value { (bound : ℕ) (closed : List ℕ) → length (unread cursor.entry) < bound → ClosedIs groups.old.closed closed
        → Gives (λ x. (trees (map tree x.0.items), unread x.1)) (length cursor.entry.whole.now) result
        (items full bound (level_of depth) shape.First depth groups.old.opened closed (unread cursor.entry)) }
    ensures few { groups.new.opened ≤ 99 }
    ensures opened { IfOk result (λ x. groups.new.opened ≡ groups.old.opened + length (groups_in (sequence x.0.items))) }
    ensures closed { (closed : List ℕ) → ClosedIs groups.old.closed closed
        → IfOk result (λ x. ClosedIs groups.new.closed (closed ++ groups_in (sequence x.0.items))) }
    ensures shorter { IfOk result (λ x. length (unread x.1) ≤ length (unread cursor.entry)) }
    ensures end { IfOk result (λ x. IsTrue (at_end (unread x.1))) }
    ensures same { IfOk result (λ x. x.1.whole ≡ cursor.entry.whole) }
    ensures place { IfErr result (λ fault. IsPlaced cursor.entry.whole.now fault) }
{
    let mut items = Vec::new(alloc);
    let mut position = Position::First;
    let mut next = cursor;
    'items: while !is_at_end(next) {
        let (bare, sign) = read_item(alloc, depth, position, groups, next)?;
        let (item, behind) = read_repetition(alloc, bare, sign)?;
        position = position_behind(position, &item);
        items.push(item)?;
        next = behind;
    }
    Ok((items, next))
}

/// An item without a sign of repetition.
#[cycle(items)]
fn read_item<'a>(
    alloc: Global,
    depth: u8,
    position: Position,
    groups: &mut Groups,
    cursor: Cursor<'a>,
) -> Result<(Bre, Cursor<'a>), ReFault>
    requires going { at_end (unread cursor) ≡ false }
    requires few { groups.old.opened ≤ 99 }
    requires shallow { depth ≤ 32 }
    ensures value { (bound : ℕ) (closed : List ℕ) → length (unread cursor.entry) ≤ bound → ClosedIs groups.old.closed closed
        → Gives (λ x. (tree x.0, unread x.1)) (length cursor.entry.whole.now) result (atom full
        (items full bound shape.Inside shape.First (depth + 1) (groups.old.opened + 1) closed) (level_of depth)
        (position_of position) depth groups.old.opened closed (unread cursor.entry)) }
    ensures few { groups.new.opened ≤ 99 }
    ensures opened { IfOk result (λ x. groups.new.opened ≡ groups.old.opened + length (groups_in (tree x.0))) }
    ensures closed { (closed : List ℕ) → ClosedIs groups.old.closed closed
        → IfOk result (λ x. ClosedIs groups.new.closed (closed ++ groups_in (tree x.0))) }
    ensures shorter { IfOk result (λ x. length (unread x.1) < length (unread cursor.entry)) }
    ensures same { IfOk result (λ x. x.1.whole ≡ cursor.entry.whole) }
    ensures place { IfErr result (λ fault. IsPlaced cursor.entry.whole.now fault) }
{
    match cursor.unread() {
        [b'\\', b'(', ..] => read_group(alloc, depth, groups, cursor),
        _ => read_single(depth, position, groups, cursor),
    }
}

/// A group: its `\(`, its items and its `\)`.
#[cycle(items)]
fn read_group<'a>(
    alloc: Global,
    depth: u8,
    groups: &mut Groups,
    cursor: Cursor<'a>,
) -> Result<(Bre, Cursor<'a>), ReFault>
    requires opens { begins_pair 40 (unread cursor) ≡ true }
    requires few { groups.old.opened ≤ 99 }
    requires shallow { depth ≤ 32 }
    ensures value { (bound : ℕ) (closed : List ℕ) → length (unread cursor.entry) ≤ bound → ClosedIs groups.old.closed closed
        → Gives (λ x. (tree x.0, unread x.1)) (length cursor.entry.whole.now) result (group_at full
        (items full bound shape.Inside shape.First (depth + 1) (groups.old.opened + 1) closed) depth groups.old.opened
        (drop 2 (unread cursor.entry))) }
    ensures few { groups.new.opened ≤ 99 }
    ensures opened { IfOk result (λ x. groups.new.opened ≡ groups.old.opened + length (groups_in (tree x.0))) }
    ensures closed { (closed : List ℕ) → ClosedIs groups.old.closed closed
        → IfOk result (λ x. ClosedIs groups.new.closed (closed ++ groups_in (tree x.0))) }
    ensures shorter { IfOk result (λ x. length (unread x.1) < length (unread cursor.entry)) }
    ensures same { IfOk result (λ x. x.1.whole ≡ cursor.entry.whole) }
    ensures place { IfErr result (λ fault. IsPlaced cursor.entry.whole.now fault) }
{
    let place = cursor.offset();
    if depth >= 32 {
        return Err(ReFault::TooDeep { place });
    }
    if groups.opened >= 99 {
        return Err(ReFault::TooManyGroups { place });
    }
    groups.opened += 1;
    let k = groups.opened;
    let (items, end) = read_items(alloc, depth + 1, groups, cursor.advance(2))?;
    match end.unread() {
        [b'\\', b')', ..] => {
            groups.closed[k as usize] = true;
            let body = Box::new(alloc, Bre::Seq(items))?;
            Ok((Bre::Group(k, body), end.advance(2)))
        }
        _ => Err(ReFault::UnclosedGroup { place }),
    }
}
