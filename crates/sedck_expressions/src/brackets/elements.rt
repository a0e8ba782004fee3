//! The elements of a bracket list, and the bytes that each of them stands for.

ghost use Rattle.std.specs.Prelude.{◌≡◌, ℕ, ◌==◌, ◌≤◌, length, drop, true, IsTrue, IfOk, IfErr, Err};
ghost use Rattle.sedck_text.specs.Text.{begins};
ghost use Rattle.sedck_expressions.specs.Brackets.{in_element};
ghost use Rattle.sedck_expressions.specs.Private.Sets.{HasJust};
ghost use Rattle.sedck_expressions.specs.BracketReading.{ranges, no_range, range_end_at, byte_or_range_at, whole_class_at, equivalents_at, last_dash_at, element_at};
ghost use Rattle.sedck_expressions.specs.Private.BracketCode.{class_of, element_of, closed_name, Reads, IsTaken, HasNoEscape, IsFlawIn};

use super::sets::{range, union};
use super::symbols::{Flaw, missing_end, read_byte, read_class, read_symbol};
use crate::tree::ByteSet;

/// A character class of the POSIX locale.
#[derive(Clone, Copy)]
pub(crate) enum Class {
    Upper,
    Lower,
    Alpha,
    Digit,
    Alnum,
    Xdigit,
    Space,
    Blank,
    Punct,
    Graph,
    Print,
    Cntrl,
}

/// An element of a bracket list.
#[derive(Clone, Copy)]
pub(crate) enum Element {
    /// One byte.
    One(u8),
    /// The bytes from the first to the second.
    Range(u8, u8),
    /// The bytes of a class.
    Members(Class),
}

/// The name of the class with the `:]` that closes it.
pub(crate) fn closed_name(class: Class) -> &'static [u8]
    ensures { result.now ≡ closed_name (class_of class) }
{
    match class {
        Class::Upper => b"upper:]",
        Class::Lower => b"lower:]",
        Class::Alpha => b"alpha:]",
        Class::Digit => b"digit:]",
        Class::Alnum => b"alnum:]",
        Class::Xdigit => b"xdigit:]",
        Class::Space => b"space:]",
        Class::Blank => b"blank:]",
        Class::Punct => b"punct:]",
        Class::Graph => b"graph:]",
        Class::Print => b"print:]",
        Class::Cntrl => b"cntrl:]",
    }
}

/// The set of the one byte.
fn single(byte: u8) -> ByteSet
    ensures { HasJust result.0 (λ b. b == byte) }
{
    range(byte, byte)
}

/// The bytes of the class.
fn class_members(class: Class) -> ByteSet
    ensures { HasJust result.0 (class_of class).1 }
{
    match class {
        Class::Upper => range(b'A', b'Z'),
        Class::Lower => range(b'a', b'z'),
        Class::Alpha => union(range(b'A', b'Z'), range(b'a', b'z')),
        Class::Digit => range(b'0', b'9'),
        Class::Alnum => union(
            union(range(b'0', b'9'), range(b'A', b'Z')),
            range(b'a', b'z'),
        ),
        Class::Xdigit => union(
            union(range(b'0', b'9'), range(b'A', b'F')),
            range(b'a', b'f'),
        ),
        Class::Space => union(range(9, 13), single(b' ')),
        Class::Blank => union(single(b'\t'), single(b' ')),
        Class::Punct => punctuation(),
        Class::Graph => range(33, 126),
        Class::Print => range(32, 126),
        Class::Cntrl => union(range(0, 31), single(127)),
    }
}

fn punctuation() -> ByteSet
    ensures { HasJust result.0 (class_of Class.Punct).1 }
{
    let low = union(range(33, 47), range(58, 64));
    union(union(low, range(91, 96)), range(123, 126))
}

/// The bytes of the element.
pub(crate) fn members(element: Element) -> ByteSet
    ensures { HasJust result.0 (λ b. in_element b (element_of element)) }
{
    match element {
        Element::One(byte) => single(byte),
        Element::Range(first, last) => range(first, last),
        Element::Members(class) => class_members(class),
    }
}

/// Whether what is before the text would begin a range.
fn begins_range(text: &[u8]) -> bool
    ensures value { result ≡ ranges text.now }
    ensures long { IsTrue result → 2 ≤ length text.now }
{
    match text {
        [sign, last, ..] => *sign == b'-' && *last != b']',
        _ => false,
    }
}

/// The element, which is the first bytes of the text and may be no end of a range.
fn refuse_range(element: Element, count: usize, text: &[u8]) -> Result<(Element, usize), Flaw>
    requires { IsTaken count text.now }
    ensures read { Reads (λ x. (element_of x.0, drop x.1 text.now)) result (no_range (element_of element, drop count text.now)) }
    ensures taken { IfOk result (λ x. IsTaken x.1 text.now) }
    ensures flaw { IfErr result HasNoEscape }
{
    if begins_range(&text[count..]) {
        Err(Flaw::Bad)
    } else {
        Ok((element, count))
    }
}

/// The range from the first byte on, of which so many bytes are read with its `-`.
fn read_range_end(first: u8, count: usize, text: &[u8]) -> Result<(Element, usize), Flaw>
    requires { count ≤ length text.now }
    ensures read { Reads (λ x. (element_of x.0, drop x.1 text.now)) result (range_end_at first (drop count text.now)) }
    ensures taken { IfOk result (λ x. IsTaken x.1 text.now) }
    ensures flaw { IfErr result (λ flaw. IsFlawIn text.now flaw) }
{
    let (last, more) = read_byte(&text[count..])?;
    if first <= last {
        Ok((Element::Range(first, last), count + more))
    } else {
        Err(Flaw::Bad)
    }
}

/// A byte or a range.
fn read_byte_or_range(text: &[u8]) -> Result<(Element, usize), Flaw>
    ensures read { Reads (λ x. (element_of x.0, drop x.1 text.now)) result (byte_or_range_at text.now) }
    ensures taken { IfOk result (λ x. IsTaken x.1 text.now) }
    ensures ended { length text.now ≡ 0 → result ≡ Err Flaw.Unclosed }
    ensures flaw { IfErr result (λ flaw. IsFlawIn text.now flaw) }
{
    let (first, count) = read_byte(text)?;
    if begins_range(&text[count..]) {
        read_range_end(first, count + 1, text)
    } else {
        Ok((Element::One(first), count))
    }
}

/// A whole class.
fn read_whole_class(text: &[u8]) -> Result<(Element, usize), Flaw>
    requires { 2 ≤ length text.now }
    ensures read { Reads (λ x. (element_of x.0, drop x.1 text.now)) result (whole_class_at (drop 2 text.now)) }
    ensures taken { IfOk result (λ x. IsTaken x.1 text.now) }
    ensures flaw { IfErr result HasNoEscape }
{
    match read_class(text) {
        Some((class, count)) => refuse_range(Element::Members(class), count, text),
        None => Err(missing_end(b':', &text[2..])),
    }
}

/// A whole equivalence class.
fn read_equivalents(text: &[u8]) -> Result<(Element, usize), Flaw>
    ensures read { Reads (λ x. (element_of x.0, drop x.1 text.now)) result (equivalents_at (drop 2 text.now)) }
    ensures taken { IfOk result (λ x. IsTaken x.1 text.now) }
    ensures flaw { IfErr result HasNoEscape }
{
    let (byte, count) = read_symbol(b'=', text)?;
    refuse_range(Element::One(byte), count, text)
}

/// A `-` that isn't first in its list: it has to be last.
fn read_last_dash(text: &[u8]) -> Result<(Element, usize), Flaw>
    requires { begins "-" text.now ≡ true }
    ensures read { Reads (λ x. (element_of x.0, drop x.1 text.now)) result (last_dash_at (drop 1 text.now)) }
    ensures taken { IfOk result (λ x. IsTaken x.1 text.now) }
    ensures flaw { IfErr result HasNoEscape }
{
    match text {
        [_, b']', ..] => Ok((Element::One(b'-'), 1)),
        [_, _, ..] => Err(Flaw::Bad),
        _ => Err(Flaw::Unclosed),
    }
}

/// The element at the start, and how many bytes it takes.
pub(crate) fn read_element(first: bool, text: &[u8]) -> Result<(Element, usize), Flaw>
    ensures read { Reads (λ x. (element_of x.0, drop x.1 text.now)) result (element_at first text.now) }
    ensures taken { IfOk result (λ x. IsTaken x.1 text.now) }
    ensures ended { length text.now ≡ 0 → result ≡ Err Flaw.Unclosed }
    ensures flaw { IfErr result (λ flaw. IsFlawIn text.now flaw) }
{
    match text {
        [b'[', b':', ..] => read_whole_class(text),
        [b'[', b'=', ..] => read_equivalents(text),
        [b'-', ..] if !first => read_last_dash(text),
        _ => read_byte_or_range(text),
    }
}
