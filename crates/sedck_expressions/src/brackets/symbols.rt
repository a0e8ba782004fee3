//! The bytes, symbols and classes of bracket lists.

ghost use Rattle.std.specs.Prelude.{◌≡◌, ◌≤◌, true, false, length, drop, IfOk, IfErr, IfSome, Err};
ghost use Rattle.std.specs.Option.{option_map};
ghost use Rattle.sedck_expressions.specs.Brackets.{classes};
ghost use Rattle.sedck_expressions.specs.BracketReading.{is_closed, missing_end, class_from, symbol_at, opened_at, escaped_at, byte_at};
ghost use Rattle.sedck_text.specs.Text.{begins};
ghost use Rattle.sedck_expressions.specs.Private.BracketCode.{class_of, element_of, behind_name, Reads, IsTaken, HasNoEscape, IsFlawIn};

use super::elements::{Class, Element, closed_name};

/// Why an element can't be read.
#[derive(Clone, Copy)]
pub(crate) enum Flaw {
    /// The text ends before the element or the list does.
    Unclosed,
    /// The element is closed, and none that a list may have.
    Bad,
    /// A backslash that no list may have, so many bytes before the end of the text.
    Escape { left: usize },
}

const CLASSES: [Class; 12] = [
    Class::Upper,
    Class::Lower,
    Class::Alpha,
    Class::Digit,
    Class::Alnum,
    Class::Xdigit,
    Class::Space,
    Class::Blank,
    Class::Punct,
    Class::Graph,
    Class::Print,
    Class::Cntrl,
];

/// Whether the text begins with the bracket that closes a symbol.
fn begins_closing(text: &[u8]) -> bool
    ensures { result ≡ begins "]" text.now }
{
    match text {
        [first, ..] => *first == b']',
        [] => false,
    }
}

/// Whether the mark and a `]` are in the text, one after another.
fn is_closed(mark: u8, text: &[u8]) -> bool
    ensures { result ≡ is_closed mark text.now }
{
    let mut rest = text;
    'ends: while let [first, after @ ..] = rest {
        if *first == mark && begins_closing(after) {
            return true;
        }
        rest = after;
    }
    false
}

/// What is wrong where the rest, which has to end in the mark and a `]`, isn't a class or a symbol.
pub(crate) fn missing_end(mark: u8, rest: &[u8]) -> Flaw
    ensures value { result ≡ missing_end mark rest.now }
    ensures flaw { HasNoEscape result }
{
    if is_closed(mark, rest) {
        Flaw::Bad
    } else {
        Flaw::Unclosed
    }
}

/// The class that a `[:` opens, and how many bytes it takes.
pub(crate) fn read_class(text: &[u8]) -> Option<(Class, usize)>
    requires { 2 ≤ length text.now }
    ensures value { option_map (λ x. (element_of (Element.Members x.0), drop x.1 text.now)) result ≡ class_from classes (drop 2 text.now) }
    ensures taken { IfSome result (λ x. IsTaken x.1 text.now) }
{
    'classes: for class in CLASSES {
        if let Some(count) = measure_class(class, text) {
            return Some((class, count));
        }
    }
    None
}

/// How many bytes are up to the end of this class, if the `[:` opens it.
fn measure_class(class: Class, text: &[u8]) -> Option<usize>
    requires { 2 ≤ length text.now }
    ensures value { option_map (λ n. drop n text.now) result ≡ behind_name (class_of class) (drop 2 text.now) }
    ensures taken { IfSome result (λ n. IsTaken n text.now) }
{
    let name = closed_name(class);
    if text[2..].starts_with(name) {
        Some(2 + name.len())
    } else {
        None
    }
}

/// The byte of the symbol that a `[.` or a `[=` opens, and how many bytes it takes. The mark itself has no symbol.
pub(crate) fn read_symbol(mark: u8, text: &[u8]) -> Result<(u8, usize), Flaw>
    ensures read { Reads (λ x. (x.0, drop x.1 text.now)) result (symbol_at mark (drop 2 text.now)) }
    ensures taken { IfOk result (λ x. IsTaken x.1 text.now) }
    ensures flaw { IfErr result HasNoEscape }
{
    match text {
        [_, _, byte, first, second, ..] => {
            if *byte != mark && *first == mark && *second == b']' {
                Ok((*byte, 5))
            } else {
                Err(missing_end(mark, &text[3..]))
            }
        }
        _ => Err(Flaw::Unclosed),
    }
}

/// A byte: itself, `\n`, `\\` or `[.c.]`, and how many bytes it takes.
pub(crate) fn read_byte(text: &[u8]) -> Result<(u8, usize), Flaw>
    ensures read { Reads (λ x. (x.0, drop x.1 text.now)) result (byte_at text.now) }
    ensures taken { IfOk result (λ x. IsTaken x.1 text.now) }
    ensures ended { length text.now ≡ 0 → result ≡ Err Flaw.Unclosed }
    ensures flaw { IfErr result (λ flaw. IsFlawIn text.now flaw) }
{
    match text {
        [] => Err(Flaw::Unclosed),
        [b'[', ..] => read_opened(text),
        [b'\\', b'c' | b'd' | b'o' | b'x', ..] => Err(Flaw::Escape { left: text.len() }),
        [b'\\', ..] => read_escaped(text),
        [byte, ..] => Ok((*byte, 1)),
    }
}

/// The byte that a bracket begins.
fn read_opened(text: &[u8]) -> Result<(u8, usize), Flaw>
    requires { begins "[" text.now ≡ true }
    ensures read { Reads (λ x. (x.0, drop x.1 text.now)) result (opened_at 91 (drop 1 text.now)) }
    ensures taken { IfOk result (λ x. IsTaken x.1 text.now) }
    ensures flaw { IfErr result HasNoEscape }
{
    match text {
        [_, b'.', ..] => read_symbol(b'.', text),
        [_, b':', rest @ ..] => Err(missing_end(b':', rest)),
        [_, b'=', _, rest @ ..] => Err(missing_end(b'=', rest)),
        [_, b'='] => Err(Flaw::Unclosed),
        _ => Ok((b'[', 1)),
    }
}

/// The byte that a backslash begins.
fn read_escaped(text: &[u8]) -> Result<(u8, usize), Flaw>
    requires begins { begins "\\" text.now ≡ true }
    requires other { begins "cdox" (drop 1 text.now) ≡ false }
    ensures read { Reads (λ x. (x.0, drop x.1 text.now)) result (escaped_at 92 (drop 1 text.now)) }
    ensures taken { IfOk result (λ x. IsTaken x.1 text.now) }
    ensures flaw { IfErr result HasNoEscape }
{
    match text {
        [_, b'n', ..] => Ok((b'\n', 2)),
        [_, b'\\', ..] => Ok((b'\\', 2)),
        _ => Ok((b'\\', 1)),
    }
}
