//! Bracket lists as they are written. A set of bytes doesn't say which characters its list has in a locale other than C, nor that a sed
//! takes a backslash and a letter in it for one byte.

ghost use Rattle.std.specs.Prelude.{map, ◌≡◌, ◌≤◌, ◌++◌, length, IfOk, OnOk};
ghost use Rattle.sedck_plain.specs.WrittenLists.{after, is_in_list};
ghost use Rattle.sedck_plain.specs.Private.Cutting.{kept, AreAdded, is_passed, AreCommandLists, AreLocations, HasLists, bytes_of};

use sedck_commands::Location;
use std::alloc::{AllocError, Global};

/// Where in an expression a byte is, outside of its bracket lists or in one (XBD 9.3.5): the definition of written lists names it.
#[derive(Clone, Copy)]
pub enum Position {
    Outside,
    /// After a backslash outside of lists.
    Escaped,
    /// After the `[` of a list.
    Opened,
    /// After the `[^` of a list.
    Negated,
    Inside,
    /// After a `[` in a list.
    Bracket,
    /// In a class, an equivalence class or a collating symbol, which a `[` and this byte begin.
    Symbol(u8),
    /// In one, after a byte that may end it with a `]`.
    SymbolEnd(u8),
}

/// The position after a byte (XBD 9.3.5).
pub(crate) fn after(position: Position, byte: u8) -> Position
    ensures { result ≡ after position byte }
{
    match (position, byte) {
        (Position::Outside, b'\\') => Position::Escaped,
        (Position::Outside, b'[') => Position::Opened,
        (Position::Outside | Position::Escaped, _) => Position::Outside,
        (Position::Opened, b'^') => Position::Negated,
        (Position::Bracket, b'.' | b'=' | b':') => Position::Symbol(byte),
        (Position::Inside | Position::Bracket, b']') => Position::Outside,
        (Position::SymbolEnd(_), b']') => Position::Inside,
        (Position::Symbol(begun) | Position::SymbolEnd(begun), _) if byte == begun => {
            Position::SymbolEnd(begun)
        }
        (Position::Symbol(begun) | Position::SymbolEnd(begun), _) => Position::Symbol(begun),
        (_, b'[') => Position::Bracket,
        _ => Position::Inside,
    }
}

/// Whether a list has begun and hasn't ended.
pub(crate) fn is_in_list(position: Position) -> bool
    ensures { result ≡ is_in_list position }
{
    !matches!(position, Position::Outside | Position::Escaped)
}

/// Adds the byte, where it is of a list. Answers the position after it.
fn push_byte(lists: &mut Vec<u8>, position: Position, byte: u8) -> Result<Position, AllocError>
    ensures position { IfOk result (λ next. next ≡ after position byte) }
    ensures lists { OnOk result (lists.new.items ≡ lists.old.items ++ kept position byte) }
{
    let next = after(position, byte);
    if is_in_list(position) || is_in_list(next) {
        lists.push(byte)?;
    }
    Ok(next)
}

/// Adds the lists of the expression that this delimiter ends, one after another, as a line of their own. Answers what follows it.
fn push_lists<'a>(
    lists: &mut Vec<u8>,
    delimiter: u8,
    text: &'a [u8],
) -> Result<&'a [u8], AllocError>
    ensures lists { IfOk result (λ rest. AreAdded delimiter text.entry.now lists.old.items lists.new.items rest.now) }
    ensures within { IfOk result (λ rest. length rest.now ≤ length text.entry.now) }
{
    let mut position = Position::Outside;
    let mut rest = text;
    'bytes: loop {
        match rest {
            [first, behind @ ..] if *first == delimiter => {
                lists.push(b'\n')?;
                return Ok(behind);
            }
            [first, behind @ ..] if *first != b'\\' => {
                position = push_byte(lists, position, *first)?;
                rest = behind;
            }
            [_, next, behind @ ..] if *next == delimiter => {
                position = push_byte(lists, position, *next)?;
                rest = behind;
            }
            [first, next, behind @ ..] => {
                let escaped = push_byte(lists, position, *first)?;
                position = push_byte(lists, escaped, *next)?;
                rest = behind;
            }
            _ => return Ok(rest),
        }
    }
}

/// Whether the byte is one of an address that begins no expression, or is between addresses and a verb.
pub(crate) fn is_passed(byte: u8) -> bool
    ensures { result ≡ is_passed byte }
{
    byte.is_ascii_digit() || b" \t!$,".contains(&byte)
}

/// The lists of the command at this location of the text: of its addresses, and of an `s`.
fn command_lists(alloc: Global, text: &[u8], location: Location) -> Result<Vec<u8>, AllocError>
    ensures { IfOk result (λ lists. AreCommandLists text.now location lists.items) }
{
    let mut lists = Vec::new(alloc);
    let mut rest = text.get(location.start..).unwrap_or(&[]);
    'pieces: loop {
        match rest {
            [first, behind @ ..] if is_passed(*first) => rest = behind,
            [first, inside @ ..] if *first == b'/' => rest = push_lists(&mut lists, b'/', inside)?,
            [first, delimiter, inside @ ..] if *first == b'\\' => {
                rest = push_lists(&mut lists, *delimiter, inside)?;
            }
            [first, delimiter, inside @ ..] if *first == b's' => {
                push_lists(&mut lists, *delimiter, inside)?;
                return Ok(lists);
            }
            _ => return Ok(lists),
        }
    }
}

/// The lists of the commands of the text, which are at these locations, command by command.
pub(crate) fn script_lists(
    alloc: Global,
    text: &[u8],
    locations: &[Location],
) -> Result<Vec<Vec<u8>>, AllocError>
    requires { AreLocations text.now locations.now }
    ensures { IfOk result (λ lists. HasLists text.now (map bytes_of lists.items)) }
{
    let mut all: Vec<Vec<u8>> = Vec::new(alloc);
    for location in locations {
        all.push(command_lists(alloc, text, *location)?)?;
    }
    Ok(all)
}
