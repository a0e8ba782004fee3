//! Expressions that matchers of real seds get wrong, and the place at which they are refused: that of their first such reference or anchor, which is found
//! by going through the tree and its text together.

ghost use Rattle.std.specs.Prelude.{◌≡◌, ◌≢◌, ◌++◌, [], ℕ, List, IsTrue, IfOk, Option, MatchOption, drop, map, true, false};
ghost use Rattle.std.specs.Option.{option_map};
ghost use Rattle.sedck_text.specs.Cursors.{unread};
ghost use Rattle.sedck_text.specs.Text.{begins, is_in};
ghost use Rattle.sedck_expressions.specs.Tree.{trees};
ghost use Rattle.sedck_expressions.specs.View.{tree};
ghost use Rattle.sedck_expressions.specs.Brackets.{IsBracketList};
ghost use Rattle.sedck_expressions.specs.Shape as shape;
ghost use Rattle.sedck_expressions.specs.Shape.{SpellsItem, SpellsItems, SpellsList, SpellsCount, Shape};
ghost use Rattle.sedck_expressions.specs.Misjudged.{is_misjudged, IsMisjudgedAt};
ghost use Rattle.sedck_expressions.specs.Private.Along.{Passes, PassesAll};

use crate::brackets::read_bracket_list;
use crate::fault::ReFault;
use crate::intervals::read_interval;
use crate::parts::{misjudges_anchor, misjudges_reference, parts_of};
use crate::tree::Bre;
use sedck_text::{Class, Cursor};

/// What is sought: references, and anchors in groups. Without the latter an anchor counts only in what is repeated.
#[derive(Clone, Copy)]
pub struct Sought {
    references: bool,
    anchors: bool,
}

/// The cursor this many bytes on, or at the end.
fn ahead<'a>(cursor: Cursor<'a>, count: usize) -> Cursor<'a>
    ensures same { result.whole ≡ cursor.entry.whole }
    ensures left { unread result ≡ drop count (unread cursor.entry) }
{
    cursor.advance(count.min(cursor.unread().len()))
}

/// The cursor after a byte that stands for itself, or for another one with a backslash before it.
fn after_byte<'a>(cursor: Cursor<'a>) -> Cursor<'a>
    ensures same { result.whole ≡ cursor.entry.whole }
    ensures left { (position : shape.Position) (c : ℕ) (text rest after : List ℕ) → unread cursor.entry ≡ text ++ after
        → shape.SpellsByte position text rest c → unread result ≡ after }
{
    match cursor.unread() {
        [b'\\', ..] => ahead(cursor, 2),
        _ => ahead(cursor, 1),
    }
}

/// Whether a bracket list begins here.
fn opens_list(cursor: Cursor<'_>) -> bool
    ensures { result ≡ begins "[" (unread cursor.entry) }
{
    match cursor.unread() {
        [first, ..] => *first == b'[',
        [] => false,
    }
}

/// The cursor after a bracket list.
fn after_list<'a>(cursor: Cursor<'a>) -> Cursor<'a>
    ensures same { result.whole ≡ cursor.entry.whole }
    ensures left { (bytes text after : List ℕ) → unread cursor.entry ≡ text ++ after → IsBracketList text bytes → bytes ≢ []
        → unread result ≡ after }
{
    if !opens_list(cursor) {
        return cursor;
    }
    match read_bracket_list(cursor) {
        Ok((_, behind)) => behind,
        Err(_) => cursor,
    }
}

/// Whether a `*` is here.
fn is_star(cursor: Cursor<'_>) -> bool
    ensures { result ≡ begins "*" (unread cursor.entry) }
{
    match cursor.unread() {
        [first, ..] => *first == b'*',
        [] => false,
    }
}

/// The cursor after a sign of repetition.
fn after_sign<'a>(cursor: Cursor<'a>) -> Cursor<'a>
    ensures same { result.whole ≡ cursor.entry.whole }
    ensures left { (least : ℕ) (most : Option ℕ) (text after : List ℕ) → unread cursor.entry ≡ text ++ after → SpellsCount text least most
        → unread result ≡ after }
{
    if is_star(cursor) {
        return ahead(cursor, 1);
    }
    match read_interval(cursor) {
        Some((_, _, behind)) => behind,
        None => cursor,
    }
}

/// Goes through an item: the cursor after it, or the fault of the first part in it that is sought.
#[cycle(items)]
fn pass_item<'a>(item: &Bre, sought: Sought, cursor: Cursor<'a>) -> Result<Cursor<'a>, ReFault>
    ensures same { IfOk result (λ x. x.whole ≡ cursor.entry.whole) }
    ensures passes { (level : shape.Level) (position : shape.Position) (text rest after : List ℕ) → unread cursor.entry ≡ text ++ after
        → SpellsItem level position text rest (tree item.now) → Passes sought (tree item.now) cursor.entry text after result }
{
    match item {
        Bre::Byte(_) => Ok(after_byte(cursor)),
        Bre::Set(_) => Ok(after_list(cursor)),
        Bre::Any => Ok(ahead(cursor, 1)),
        Bre::Start => Ok(ahead(cursor, 1)),
        Bre::End => Ok(ahead(cursor, 1)),
        Bre::Maybe(_) => {
            if sought.anchors {
                let place = cursor.offset();
                return Err(ReFault::NothingToRepeat { place });
            }
            Ok(ahead(cursor, 1))
        }
        Bre::Ref(_) => {
            if sought.references {
                let place = cursor.offset();
                return Err(ReFault::BadReference { place });
            }
            Ok(ahead(cursor, 2))
        }
        Bre::Group(_, body) => {
            let end = pass_list(body, sought, ahead(cursor, 2))?;
            Ok(ahead(end, 2))
        }
        Bre::Repeat { body, .. } => {
            let inside = Sought {
                references: sought.references,
                anchors: true,
            };
            let sign = pass_item(body, inside, cursor)?;
            Ok(after_sign(sign))
        }
        Bre::Seq(_) => Ok(cursor),
    }
}

/// Goes through a whole list of items.
#[cycle(items)]
fn pass_list<'a>(list: &Bre, sought: Sought, cursor: Cursor<'a>) -> Result<Cursor<'a>, ReFault>
    ensures same { IfOk result (λ x. x.whole ≡ cursor.entry.whole) }
    ensures passes { (level : shape.Level) (text after : List ℕ) → unread cursor.entry ≡ text ++ after
        → SpellsList level text (tree list.now) → Passes sought (tree list.now) cursor.entry text after result }
{
    match list {
        Bre::Seq(items) => pass_items(items, sought, cursor),
        _ => Ok(cursor),
    }
}

/// Goes through these items, one after another.
#[cycle(items)]
fn pass_items<'a>(items: &[Bre], sought: Sought, cursor: Cursor<'a>) -> Result<Cursor<'a>, ReFault>
    ensures same { IfOk result (λ x. x.whole ≡ cursor.entry.whole) }
    ensures passes { (level : shape.Level) (position : shape.Position) (text after : List ℕ) → unread cursor.entry ≡ text ++ after
        → SpellsItems level position text (trees (map tree items.now))
        → PassesAll sought (trees (map tree items.now)) cursor.entry text after result }
{
    let mut next = cursor;
    for item in items {
        next = pass_item(item, sought, next)?;
    }
    Ok(next)
}

/// Whether the text has a backslash. Without one there is no group and no reference.
fn has_backslash(text: &[u8]) -> bool
    ensures { result ≡ is_in 92 text.now }
{
    Class::Except(b'\\').run_length(text) < text.len()
}

/// Why matchers of real seds get the expression wrong that the text spells, if they do. Of several references and anchors it is the first.
pub fn misjudged(text: &[u8], expression: &Bre) -> Option<ReFault>
    requires { Shape text.now (tree expression.now) }
    ensures { MatchOption result (is_misjudged (tree expression.now) ≡ false)
        (λ fault. (is_misjudged (tree expression.now) ≡ true) × IsMisjudgedAt text.now (tree expression.now) fault) }
{
    if !has_backslash(text) {
        return None;
    }
    let parts = parts_of(expression);
    let references = misjudges_reference(expression, parts);
    let anchors = misjudges_anchor(parts);
    if !references && !anchors {
        return None;
    }
    let sought = Sought {
        references,
        anchors: parts.has_reference(),
    };
    match pass_list(expression, sought, Cursor::new(text)) {
        Ok(_) => None,
        Err(fault) => Some(fault),
    }
}
