//! Bracket lists: from the bracket to the set of their members.

ghost use Rattle.std.specs.Prelude.{◌≡◌, ◌+◌, ◌-◌, ◌<◌, ◌≤◌, ◌&&◌, not, List, length, take, IsTrue, IfOk, IfErr, MatchResult, Some, drop, ℕ, Bool, true};
ghost use Rattle.sedck_text.specs.Text.{begins};
ghost use Rattle.sedck_text.specs.Cursors.{unread};
ghost use Rattle.sedck_expressions.specs.Brackets.{has_symbol, is_mistakable};
ghost use Rattle.sedck_expressions.specs.View.{bytes_in};
ghost use Rattle.sedck_expressions.specs.BracketReading.{flaw_at, elements_of, holder, mistaken, set_at, bracket_at};
ghost use Rattle.sedck_expressions.specs.FirstFault.{placed, fault_in};
ghost use Rattle.sedck_expressions.specs.Private.BracketCode.{HasElements, signed, IsFlawIn};
ghost use Rattle.sedck_expressions.specs.Faults.{HasOneAt, IsPlaced, IsOfText};
ghost use Rattle.sedck_expressions.specs.Private.Gives.{Gives};
ghost use Rattle.sedck_expressions.specs.Private.Sets.{HasJust};

use super::elements::{members, read_element};
use super::sets::{complement, is_empty, union};
use super::symbols::Flaw;
use crate::fault::ReFault;
use crate::tree::ByteSet;
use sedck_text::Cursor;

/// Whether the list of elements is over: a `]` that is first is a byte.
fn is_over(first: bool, cursor: Cursor<'_>) -> bool
    ensures value { result ≡ (begins "]" (unread cursor.entry) && not first) }
    ensures long { IsTrue result → 1 ≤ length (unread cursor.entry) }
{
    match cursor.unread() {
        [bracket, ..] => *bracket == b']' && !first,
        [] => false,
    }
}

/// What the flaw of the element at the cursor is for the expression, where the list begins at `outer`.
fn fault_of(outer: usize, cursor: Cursor<'_>, flaw: Flaw) -> ReFault
    requires outer { HasOneAt cursor.whole.now outer "[" }
    requires some { flaw ≡ Flaw.Bad → 0 < length (unread cursor) }
    requires flaw { IsFlawIn (unread cursor) flaw }
    ensures value { result ≡ placed (length cursor.entry.whole.now) (flaw_at (drop outer cursor.entry.whole.now) (unread cursor.entry) flaw) }
    ensures place { IsPlaced cursor.entry.whole.now result }
    ensures memory { IsOfText result }
{
    match flaw {
        Flaw::Unclosed => ReFault::UnclosedBracket { place: outer },
        Flaw::Bad => {
            let place = cursor.offset();
            ReFault::BadBracket { place }
        }
        Flaw::Escape { left } => {
            let place = cursor.offset() + (cursor.unread().len() - left);
            ReFault::BadEscape { place }
        }
    }
}

/// The set of the elements up to the closing bracket, and the cursor behind it. The list begins at `outer`.
fn read_elements<'a>(outer: usize, cursor: Cursor<'a>) -> Result<(ByteSet, Cursor<'a>), ReFault>
    requires outer { HasOneAt cursor.whole.now outer "[" }
    ensures value { MatchResult result
        (λ x. HasElements x.0.0 (unread x.1) (elements_of (drop outer cursor.entry.whole.now) (unread cursor.entry)))
        (λ fault. fault_in (length cursor.entry.whole.now) (elements_of (drop outer cursor.entry.whole.now) (unread cursor.entry)) ≡ Some fault) }
    ensures same { IfOk result (λ x. x.1.whole ≡ cursor.entry.whole) }
    ensures shorter { IfOk result (λ x. length (unread x.1) < length (unread cursor.entry)) }
    ensures place { IfErr result (λ fault. IsPlaced cursor.entry.whole.now fault) }
    ensures memory { IfErr result IsOfText }
{
    let mut set = ByteSet([0; 4]);
    let mut next = cursor;
    let mut first = true;
    'elements: while !is_over(first, next) {
        match read_element(first, next.unread()) {
            Ok((element, count)) => {
                set = union(set, members(element));
                next = next.advance(count);
                first = false;
            }
            Err(flaw) => return Err(fault_of(outer, next, flaw)),
        }
    }
    Ok((set, next.advance(1)))
}

/// Whether a class, an equivalence class or a collating symbol is in the text of a list.
fn has_symbol(text: &[u8]) -> bool
    ensures { result ≡ has_symbol text.now }
{
    let mut rest = text;
    'symbols: while let [first, after @ ..] = rest {
        if *first == b'[' && begins_symbol(after) {
            return true;
        }
        rest = after;
    }
    false
}

/// Whether the text is what follows the bracket that opens a class, an equivalence class or a collating symbol.
fn begins_symbol(text: &[u8]) -> bool
    ensures { result ≡ begins ":.=" text.now }
{
    match text {
        [mark, ..] => matches!(*mark, b':' | b'.' | b'='),
        [] => false,
    }
}

/// Whether BusyBox would take the list for closed before its end.
fn is_mistakable(text: &[u8]) -> bool
    ensures { result ≡ is_mistakable text.now }
{
    (text.ends_with(b"[") || text.ends_with(b"[^")) && has_symbol(text)
}

/// Where the element begins that the byte at the offset belongs to, from the first element on.
fn find_element(cursor: Cursor<'_>, offset: usize) -> usize
    requires { cursor.at ≤ offset }
    ensures value { (bound : ℕ) → length (unread cursor.entry) ≤ bound
        → holder bound (length cursor.entry.whole.now - offset) true (unread cursor.entry) ≡ drop result cursor.entry.whole.now }
    ensures before { result ≤ offset }
{
    let mut next = cursor;
    let mut first = true;
    'elements: while let Ok((_, count)) = read_element(first, next.unread()) {
        let behind = next.advance(count);
        if behind.offset() > offset {
            break;
        }
        next = behind;
        first = false;
    }
    next.offset()
}

/// The place of the element by which a list is mistakable, where its elements are the first bytes from the cursor on.
fn mistakable_place(cursor: Cursor<'_>, inside: usize) -> usize
    requires long { inside < length (unread cursor) }
    requires mistakable { is_mistakable (take inside (unread cursor)) ≡ true }
    ensures value { (rest : List ℕ) → length rest + inside + 1 ≡ length (unread cursor.entry)
        → holder (length (unread cursor.entry)) (mistaken (take inside (unread cursor.entry)) rest) true (unread cursor.entry)
        ≡ drop result cursor.entry.whole.now }
    ensures within { result < length cursor.entry.whole.now }
{
    let text = cursor.unread();
    let back = if text[..inside].ends_with(b"[") { 1 } else { 2 };
    find_element(cursor, cursor.offset() + inside.saturating_sub(back))
}

/// The set, or its complement.
fn signed(complemented: bool, set: ByteSet) -> ByteSet
    ensures { (test : ℕ → Bool) → HasJust set.0 test → HasJust result.0 (signed complemented test) }
{
    if complemented { complement(set) } else { set }
}

/// The set of the elements or its complement, which must have a member. The list begins at `outer`.
fn read_set<'a>(
    outer: usize,
    complemented: bool,
    cursor: Cursor<'a>,
) -> Result<(ByteSet, Cursor<'a>), ReFault>
    requires outer { HasOneAt cursor.whole.now outer "[" }
    ensures value { Gives (λ x. (bytes_in x.0.0, unread x.1)) (length cursor.entry.whole.now) result
        (set_at (drop outer cursor.entry.whole.now) complemented (unread cursor.entry)) }
    ensures same { IfOk result (λ x. x.1.whole ≡ cursor.entry.whole) }
    ensures shorter { IfOk result (λ x. length (unread x.1) < length (unread cursor.entry)) }
    ensures place { IfErr result (λ fault. IsPlaced cursor.entry.whole.now fault) }
    ensures memory { IfErr result IsOfText }
{
    let (listed, behind) = read_elements(outer, cursor)?;
    let inside = behind.offset() - cursor.offset() - 1;
    if is_mistakable(&cursor.unread()[..inside]) {
        return Err(ReFault::BadBracket {
            place: mistakable_place(cursor, inside),
        });
    }
    let set = signed(complemented, listed);
    if is_empty(set) {
        return Err(ReFault::EmptySet { place: outer });
    }
    Ok((set, behind))
}

/// The set of the bracket list at the start, and the cursor behind its closing bracket.
pub(crate) fn read_bracket_list<'a>(cursor: Cursor<'a>) -> Result<(ByteSet, Cursor<'a>), ReFault>
    requires opens { begins "[" (unread cursor) ≡ true }
    ensures value { Gives (λ x. (bytes_in x.0.0, unread x.1)) (length cursor.entry.whole.now) result (bracket_at (unread cursor.entry)) }
    ensures same { IfOk result (λ x. x.1.whole ≡ cursor.entry.whole) }
    ensures shorter { IfOk result (λ x. length (unread x.1) < length (unread cursor.entry)) }
    ensures place { IfErr result (λ fault. IsPlaced cursor.entry.whole.now fault) }
    ensures memory { IfErr result IsOfText }
{
    let outer = cursor.offset();
    let inside = cursor.advance(1);
    match inside.unread() {
        [b'^', ..] => read_set(outer, true, inside.advance(1)),
        _ => read_set(outer, false, inside),
    }
}
