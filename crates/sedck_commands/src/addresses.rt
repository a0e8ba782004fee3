//! Addresses of commands, and decimal numbers.

ghost use Rattle.std.specs.Prelude.{[], ◌≡◌, ◌<◌, ◌∷◌, ℕ, List, Some, None, length, IsTrue, IfOk, IfErr, IfSome, IfNone, min};
ghost use Rattle.sedck_commands.specs.Cuts.{is_delimiter, is_digit};
ghost use Rattle.sedck_commands.specs.Program.{place_patterns, address_patterns};
ghost use Rattle.sedck_commands.specs.Parts.{PlaceText, AddressText, Number};
ghost use Rattle.sedck_commands.specs.Faults.{begins_address, IsOfText};
ghost use Rattle.sedck_text.specs.Cursors.{unread};
ghost use Rattle.sedck_commands.specs.Private.AddressReading.{ContextText, CustomText, IsSecond};
ghost use Rattle.sedck_commands.specs.ReadItems.{has_previous, IsFirstEmpty, AddressEmpty};
ghost use Rattle.std.specs.List.{list_all};
ghost use Rattle.std.specs.Str.Parse.{digits_value};
ghost use Rattle.sedck_commands.specs.Program as clean;
ghost use Rattle.sedck_commands.specs.View as view;
ghost use Rattle.sedck_commands.specs.FirstFaults.{BeginsAt, PatternFault, PlaceFault, BeginsNoAddress, IsAfterComma, HasNoComma, AddressFault, AreAddresses, EmptyPlace};
ghost use Rattle.sedck_text.specs.Bytes.{ascii};

use crate::bytes::{NUMBER_LIMIT, is_delimiter, is_digit};
use crate::delimited::read_pattern;
use crate::fault::ScriptFault;
use crate::types::{Address, Pattern, Place};
use sedck_text::{Class, Cursor};
use std::alloc::Global;

/// Whether an address begins with the byte.
fn begins_address(b: u8) -> bool
    ensures { result ≡ begins_address b }
{
    is_digit(b) || b"$/\\".contains(&b)
}

/// An address between delimiters, after its opening one, and what follows it.
fn read_context<'a>(
    alloc: Global,
    opening: usize,
    delimiter: u8,
    text: Cursor<'a>,
) -> Result<(Place, Cursor<'a>), ScriptFault>
    requires delimiter { IsTrue (is_delimiter delimiter) }
    ensures read { IfOk result (λ x. ContextText delimiter (unread text.entry) (view.place_of x.0) (unread x.1)) }
    ensures same { IfOk result (λ x. x.1.whole ≡ text.entry.whole) }
    ensures first { IfErr result (λ fault. IsOfText fault → PatternFault (length text.entry.whole.now) opening delimiter (unread text.entry) fault) }
{
    let (pattern, rest) = read_pattern(alloc, opening, delimiter, text)?;
    Ok((Place::Context(pattern), rest))
}

/// An address with a delimiter of its own, after its backslash.
fn read_custom_context<'a>(
    alloc: Global,
    opening: usize,
    text: Cursor<'a>,
) -> Result<(Place, Cursor<'a>), ScriptFault>
    ensures read { IfOk result (λ x. CustomText (unread text.entry) (view.place_of x.0) (unread x.1)) }
    ensures same { IfOk result (λ x. x.1.whole ≡ text.entry.whole) }
    ensures first { IfErr result (λ fault. IsOfText fault → (begins : List ℕ) → begins ≡ ascii "\\" ∷ unread text.entry
        → BeginsAt (length text.entry.whole.now) begins opening → PlaceFault (length text.entry.whole.now) begins fault) }
{
    let Some((delimiter, behind)) = text.split_first() else {
        return Err(ScriptFault::Unterminated { place: opening });
    };
    if !is_delimiter(delimiter) {
        return Err(ScriptFault::Unterminated { place: opening });
    }
    read_context(alloc, opening, delimiter, behind)
}

/// The address that begins here, and what follows it.
fn read_place<'a>(
    alloc: Global,
    first: u8,
    text: Cursor<'a>,
    behind: Cursor<'a>,
) -> Result<(Place, Cursor<'a>), ScriptFault>
    requires first { unread text ≡ first ∷ unread behind }
    requires same { behind.whole ≡ text.whole }
    requires begins { IsTrue (begins_address first) }
    ensures read { IfOk result (λ x. PlaceText (unread text.entry) (view.place_of x.0) (unread x.1)) }
    ensures same { IfOk result (λ x. x.1.whole ≡ text.entry.whole) }
    ensures first { IfErr result (λ fault. IsOfText fault → PlaceFault (length text.entry.whole.now) (unread text.entry) fault) }
{
    if first == b'$' {
        return Ok((Place::Last, behind));
    }
    if first == b'/' {
        return read_context(alloc, text.offset(), b'/', behind);
    }
    if first == b'\\' {
        return read_custom_context(alloc, text.offset(), behind);
    }
    match read_number(text) {
        Some((line, rest)) => Ok((Place::Line(line), rest)),
        None => Err(ScriptFault::BadAddress {
            place: text.offset(),
        }),
    }
}

/// The address at the start, where one begins here.
fn split_place<'a>(
    alloc: Global,
    text: Cursor<'a>,
) -> Result<Option<(Place, Cursor<'a>)>, ScriptFault>
    ensures read { IfOk result (λ x. IfSome x (λ y. PlaceText (unread text.entry) (view.place_of y.0) (unread y.1))) }
    ensures same { IfOk result (λ x. IfSome x (λ y. y.1.whole ≡ text.entry.whole)) }
    ensures none { IfOk result (λ x. IfNone x (BeginsNoAddress (unread text.entry))) }
    ensures first { IfErr result (λ fault. IsOfText fault → PlaceFault (length text.entry.whole.now) (unread text.entry) fault) }
{
    let Some((first, behind)) = text.split_first() else {
        return Ok(None);
    };
    if !begins_address(first) {
        return Ok(None);
    }
    let found = read_place(alloc, first, text, behind)?;
    Ok(Some(found))
}

/// What follows a comma and the blanks round it.
fn skip_comma<'a>(text: Cursor<'a>) -> Option<Cursor<'a>>
    ensures some { IfSome result (λ second. IsAfterComma (unread text.entry) (unread second)) }
    ensures same { IfSome result (λ x. x.whole ≡ text.entry.whole) }
    ensures none { IfNone result (HasNoComma (unread text.entry)) }
{
    let (next, more) = text.skip(Class::Blank).split_first()?;
    if next != b',' {
        return None;
    }
    Some(more.skip(Class::Blank))
}

/// The address after a comma, where there is one here.
fn split_second<'a>(
    alloc: Global,
    text: Cursor<'a>,
) -> Result<Option<(Place, Cursor<'a>)>, ScriptFault>
    ensures read { IfOk result (λ x. IfSome x (λ y. IsSecond (unread text.entry) (view.place_of y.0) (unread y.1))) }
    ensures same { IfOk result (λ x. IfSome x (λ y. y.1.whole ≡ text.entry.whole)) }
    ensures none { IfOk result (λ x. IfNone x (HasNoComma (unread text.entry))) }
    ensures first { IfErr result (λ fault. IsOfText fault → (begins : List ℕ) (place : clean.Place) → PlaceText begins place (unread text.entry)
        → AddressFault (length text.entry.whole.now) begins fault) }
{
    let Some(second) = skip_comma(text) else {
        return Ok(None);
    };
    let Some(found) = split_place(alloc, second)? else {
        return Err(ScriptFault::BadAddress {
            place: second.offset(),
        });
    };
    Ok(Some(found))
}

/// Whether the expression is the empty one.
fn is_previous(pattern: &Pattern) -> bool
    ensures { result ≡ has_previous (view.pattern_of pattern.now ∷ []) }
{
    matches!(pattern, Pattern::Previous)
}

/// The offset of the address's expression, where that is empty: its closing delimiter, right before what follows the address.
fn empty_offset(place: &Place, behind: Cursor<'_>) -> Option<usize>
    requires { 0 < behind.at }
    ensures { (text : List ℕ) → PlaceText text (view.place_of place.now) (unread behind.entry)
        → IsFirstEmpty (place_patterns (view.place_of place.now)) (EmptyPlace (length behind.entry.whole.now) text) result }
{
    let Place::Context(pattern) = place else {
        return None;
    };
    if is_previous(pattern) {
        return Some(behind.offset() - 1);
    }
    None
}

/// The addresses at the start, the offset of their first empty expression, and what follows them.
pub fn split_address<'a>(
    alloc: Global,
    text: Cursor<'a>,
) -> Result<(Address, Option<usize>, Cursor<'a>), ScriptFault>
    ensures read { IfOk result (λ x. AddressText (unread text.entry) (view.address_of x.0) (unread x.2)) }
    ensures same { IfOk result (λ x. x.2.whole ≡ text.entry.whole) }
    ensures empty { IfOk result (λ x. IsFirstEmpty (address_patterns (view.address_of x.0))
        (AddressEmpty (length text.entry.whole.now) (unread text.entry)) x.1) }
    ensures all { IfOk result (λ x. AreAddresses (unread text.entry) (view.address_of x.0) (unread x.2)) }
    ensures first { IfErr result (λ fault. IsOfText fault → AddressFault (length text.entry.whole.now) (unread text.entry) fault) }
{
    let Some((from, behind)) = split_place(alloc, text)? else {
        return Ok((Address::None, None, text));
    };
    let empty = empty_offset(&from, behind);
    let Some((to, rest)) = split_second(alloc, behind)? else {
        return Ok((Address::One(from), empty, behind));
    };
    let empty = empty.or(empty_offset(&to, rest));
    Ok((Address::Two(from, to), empty, rest))
}

/// The value of the digits, or the limit where it is greater.
fn value_of(digits: &[u8]) -> u64
    requires { IsTrue (list_all is_digit digits.now) }
    ensures { result ≡ min (digits_value 10 digits.now) NUMBER_LIMIT }
{
    let mut value = 0;
    for digit in digits {
        value = (value * 10 + u64::from(*digit - b'0')).min(NUMBER_LIMIT);
    }
    value
}

/// The number at the start, and what follows its digits.
pub fn read_number<'a>(text: Cursor<'a>) -> Option<(u32, Cursor<'a>)>
    ensures read { IfSome result (λ x. Number (unread text.entry) x.0 (unread x.1)) }
    ensures same { IfSome result (λ x. x.1.whole ≡ text.entry.whole) }
    ensures none { IfNone result ((n : ℕ) (rest : List ℕ) → Number (unread text.entry) n rest → ⊥) }
{
    let (digits, rest) = text.split(Class::Digit);
    let value = value_of(digits);
    if digits.is_empty() || value == 0 || value == NUMBER_LIMIT {
        return None;
    }
    Some((value as u32, rest))
}
