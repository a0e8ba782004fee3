//! Items without items inside them, and the signs of repetition.
ghost use Rattle.std.specs.Prelude.{◌≡◌, ◌≢◌, ◌<◌, ◌≤◌, ℕ, List, [], ◌+◌, length, drop, Result, true, false, IfOk, IfErr, IfNone};
ghost use Rattle.std.specs.Option.{option_map};
ghost use Rattle.sedck_text.specs.Text.{one_of, begins};
ghost use Rattle.sedck_text.specs.Cursors.{unread};
ghost use Rattle.sedck_expressions.specs.Tree.{Trees, groups_in};
ghost use Rattle.sedck_expressions.specs.View.{tree};
ghost use Rattle.sedck_expressions.specs.Shape as shape;
ghost use Rattle.sedck_expressions.specs.Reading.{begins_pair, at_end, Stop, is_repeatable, plain, no_item, atom, after_backslash, escaped, with_sign};
ghost use Rattle.sedck_expressions.specs.FirstFault.{full};
ghost use Rattle.sedck_expressions.specs.Private.FullReading.{set_at};
ghost use Rattle.sedck_expressions.specs.Faults.{HasOneAt, IsPlaced, IsOfText};
ghost use Rattle.sedck_expressions.specs.Private.Gives.{Gives, position_of, level_if, level_of, ClosedIs};

use crate::brackets::read_bracket_list;
use crate::fault::ReFault;
use crate::groups::Groups;
use crate::intervals::read_interval;
use crate::tree::Bre;
use sedck_text::Cursor;
use std::alloc::Global;

/// Where an item is in its list.
#[derive(Clone, Copy)]
pub(crate) enum Position {
    First,
    /// Right after a `^` that is first.
    Anchored,
    Later,
}

/// Whether the list of items is over.
pub(crate) fn is_at_end(cursor: Cursor<'_>) -> bool
    ensures { result ≡ at_end (unread cursor.entry) }
{
    match cursor.unread() {
        [] => true,
        [_] => false,
        [first, second, ..] => *first == b'\\' && *second == b')',
    }
}

/// The position after the item.
pub(crate) fn position_behind(position: Position, item: &Bre) -> Position
    ensures { position_of result ≡ shape.behind (position_of position) (tree item.now) }
{
    match position {
        Position::First => match item {
            Bre::Start => Position::Anchored,
            Bre::Maybe(_) => Position::Anchored,
            _ => Position::Later,
        },
        _ => Position::Later,
    }
}

fn is_repeatable(item: &Bre) -> bool
    ensures { result ≡ is_repeatable (tree item.now) }
{
    match item {
        Bre::Byte(_) => true,
        Bre::Any => true,
        Bre::Set(_) => true,
        Bre::Group(_, _) => true,
        Bre::Ref(_) => true,
        _ => false,
    }
}

/// The item of a byte that isn't escaped, where the flag `last` says that its list ends behind it.
fn read_plain(inside: bool, position: Position, last: bool, byte: u8) -> Option<Bre>
    ensures value { option_map tree result ≡ plain (level_if inside) (position_of position) last byte }
    ensures star { IfNone result (byte ≡ 42) }
{
    match byte {
        b'*' => match position {
            Position::Later => None,
            _ => Some(Bre::Byte(byte)),
        },
        b'^' => match position {
            Position::First => Some(if inside { Bre::Maybe(byte) } else { Bre::Start }),
            _ => Some(Bre::Byte(byte)),
        },
        b'$' => {
            if last {
                Some(if inside { Bre::Maybe(byte) } else { Bre::End })
            } else {
                Some(Bre::Byte(byte))
            }
        }
        _ => Some(Bre::Byte(byte)),
    }
}

/// An item without a sign of repetition that is no group. The depth is the number of groups that are open.
pub(crate) fn read_single<'a>(
    depth: u8,
    position: Position,
    groups: &Groups,
    cursor: Cursor<'a>,
) -> Result<(Bre, Cursor<'a>), ReFault>
    requires going { at_end (unread cursor) ≡ false }
    requires other { begins_pair 40 (unread cursor) ≡ false }
    ensures value { (inner : List ℕ → Result (Trees × List ℕ) Stop) (deep opened : ℕ) (closed : List ℕ) → ClosedIs groups.now.closed closed
        → Gives (λ x. (tree x.0, unread x.1)) (length cursor.entry.whole.now) result
        (atom full inner (level_of depth) (position_of position) deep opened closed (unread cursor.entry)) }
    ensures groups { IfOk result (λ x. groups_in (tree x.0) ≡ []) }
    ensures shorter { IfOk result (λ x. length (unread x.1) < length (unread cursor.entry)) }
    ensures same { IfOk result (λ x. x.1.whole ≡ cursor.entry.whole) }
    ensures place { IfErr result (λ fault. IsPlaced cursor.entry.whole.now fault) }
{
    match cursor.unread() {
        [] => unreachable!(),
        [b'\\', ..] => read_escape(position, groups, cursor),
        [b'[', ..] => read_set(cursor),
        [b'.', ..] => Ok((Bre::Any, cursor.advance(1))),
        [byte, ..] => {
            let behind = cursor.advance(1);
            match read_plain(depth > 0, position, is_at_end(behind), *byte) {
                Some(item) => Ok((item, behind)),
                None => Err(ReFault::DoubleRepeat {
                    place: cursor.offset(),
                }),
            }
        }
    }
}

/// A backslash and the byte after it, where they open no group.
fn read_escape<'a>(
    position: Position,
    groups: &Groups,
    cursor: Cursor<'a>,
) -> Result<(Bre, Cursor<'a>), ReFault>
    requires begins { begins "\\" (unread cursor) ≡ true }
    requires other { begins_pair 40 (unread cursor) ≡ false }
    ensures value { (inner : List ℕ → Result (Trees × List ℕ) Stop) (deep opened : ℕ) (closed : List ℕ) → ClosedIs groups.now.closed closed
        → Gives (λ x. (tree x.0, unread x.1)) (length cursor.entry.whole.now) result
        (after_backslash full inner (position_of position) deep opened closed (drop 1 (unread cursor.entry))) }
    ensures groups { IfOk result (λ x. groups_in (tree x.0) ≡ []) }
    ensures shorter { IfOk result (λ x. length (unread x.1) < length (unread cursor.entry)) }
    ensures same { IfOk result (λ x. x.1.whole ≡ cursor.entry.whole) }
    ensures place { IfErr result (λ fault. IsPlaced cursor.entry.whole.now fault) }
{
    let place = cursor.offset();
    match cursor.unread() {
        [_, byte, ..] => {
            let item = read_escaped(position, place, groups, *byte)?;
            Ok((item, cursor.advance(2)))
        }
        _ => Err(ReFault::TrailingBackslash { place }),
    }
}

/// What a byte after a backslash stands for, where it opens no group.
fn read_escaped(position: Position, start: usize, groups: &Groups, byte: u8) -> Result<Bre, ReFault>
    requires other { byte ≢ 40 }
    ensures value { (inner : List ℕ → Result (Trees × List ℕ) Stop) (deep opened size : ℕ) (closed rest : List ℕ)
        → ClosedIs groups.now.closed closed → start + 2 + length rest ≡ size
        → Gives (λ x. (tree x, rest)) size result (escaped full inner (position_of position) deep opened closed byte rest) }
    ensures groups { IfOk result (λ x. groups_in (tree x) ≡ []) }
    ensures place { IfErr result (λ fault. (whole : List ℕ) → HasOneAt whole start "\\" → IsPlaced whole fault) }
{
    match byte {
        b'{' => Err(misplaced(position, start)),
        b'1'..=b'9' => {
            let k = byte - b'0';
            if groups.closed[k as usize] {
                Ok(Bre::Ref(k))
            } else {
                Err(ReFault::BadReference { place: start })
            }
        }
        b'n' => Ok(Bre::Byte(b'\n')),
        b't' => Ok(Bre::Byte(b'\t')),
        _ if is_escapable(byte) => Ok(Bre::Byte(byte)),
        _ => Err(ReFault::BadEscape { place: start }),
    }
}

/// Whether the byte stands for itself after a backslash.
fn is_escapable(byte: u8) -> bool
    ensures { result ≡ one_of ".[\\*^$]/-\"&,;:!@#%=~_ " byte }
{
    b".[\\*^$]/-\"&,;:!@#%=~_ ".contains(&byte)
}

/// An interval where there is no item that it could repeat.
fn misplaced(position: Position, start: usize) -> ReFault
    ensures value { result ≡ no_item (position_of position) 123 start }
    ensures memory { IsOfText result }
    ensures place { (whole : List ℕ) → HasOneAt whole start "\\" → IsPlaced whole result }
{
    match position {
        Position::Later => ReFault::DoubleRepeat { place: start },
        _ => ReFault::NothingToRepeat { place: start },
    }
}

/// A bracket list as an item.
fn read_set<'a>(cursor: Cursor<'a>) -> Result<(Bre, Cursor<'a>), ReFault>
    requires opens { begins "[" (unread cursor) ≡ true }
    ensures value { Gives (λ x. (tree x.0, unread x.1)) (length cursor.entry.whole.now) result (set_at (unread cursor.entry)) }
    ensures groups { IfOk result (λ x. groups_in (tree x.0) ≡ []) }
    ensures shorter { IfOk result (λ x. length (unread x.1) < length (unread cursor.entry)) }
    ensures same { IfOk result (λ x. x.1.whole ≡ cursor.entry.whole) }
    ensures place { IfErr result (λ fault. IsPlaced cursor.entry.whole.now fault) }
{
    let (set, behind) = read_bracket_list(cursor)?;
    Ok((Bre::Set(set), behind))
}

/// The item with the sign of repetition after it, if there is one.
pub(crate) fn read_repetition<'a>(
    alloc: Global,
    item: Bre,
    cursor: Cursor<'a>,
) -> Result<(Bre, Cursor<'a>), ReFault>
    ensures value { Gives (λ x. (tree x.0, unread x.1)) (length cursor.entry.whole.now) result (with_sign full (tree item, unread cursor.entry)) }
    ensures shorter { IfOk result (λ x. length (unread x.1) ≤ length (unread cursor.entry)) }
    ensures groups { IfOk result (λ x. groups_in (tree x.0) ≡ groups_in (tree item)) }
    ensures same { IfOk result (λ x. x.1.whole ≡ cursor.entry.whole) }
    ensures place { IfErr result (λ fault. IsPlaced cursor.entry.whole.now fault) }
{
    if !is_repeatable(&item) {
        return Ok((item, cursor));
    }
    let (least, most, behind) = match cursor.unread() {
        [b'*', ..] => (0, None, cursor.advance(1)),
        [b'\\', b'{', ..] => {
            let place = cursor.offset();
            read_interval(cursor).ok_or(ReFault::BadInterval { place })?
        }
        _ => return Ok((item, cursor)),
    };
    let body = Box::new(alloc, item)?;
    Ok((Bre::Repeat { body, least, most }, behind))
}
