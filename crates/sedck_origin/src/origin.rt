//! Where the bytes of a script come from.

ghost use Rattle.std.specs.Prelude.{◌≡◌, length};
ghost use Rattle.sedck_origin.specs.Traced.{escape_of, is_at, is_escape_at, has_origin, next_after, has_hole as has_hole_of, is_traced as is_traced_text};

use crate::hole::Hole;

/// Where a byte of a script comes from.
#[derive(Clone, Copy)]
pub enum Origin {
    /// The file has the byte at this offset.
    At(usize),
    /// An escape sequence of the file stands for it; its backslash is at this offset.
    Escape(usize),
    /// It is a part of a variable's value, which the file has at this offset.
    Value(usize),
    /// It is a part of a variable's value, which was given with the call of this program.
    Given,
    /// It is the newline between two parts of a script.
    Between,
    /// It takes the place of what isn't known.
    Hole(Hole),
}

/// Bytes, each with its origin.
#[derive(Drop)]
pub struct Traced {
    pub bytes: Vec<u8>,
    pub origins: Vec<Origin>,
}

/// The byte that a backslash with this letter stands for between `$'` and `'`, where that is one byte without more letters.
pub fn escape_byte(letter: u8) -> Option<u8>
    ensures { result ≡ escape_of letter }
{
    match letter {
        b'"' => Some(34),
        b'\'' => Some(39),
        b'\\' => Some(92),
        b'a' => Some(7),
        b'b' => Some(8),
        b'e' => Some(27),
        b'f' => Some(12),
        b'n' => Some(10),
        b'r' => Some(13),
        b't' => Some(9),
        b'v' => Some(11),
        _ => None,
    }
}

/// Whether one of the bytes takes the place of what isn't known.
pub fn has_hole(origins: &[Origin]) -> bool
    ensures { result ≡ has_hole_of origins.now }
{
    for origin in origins {
        if let Origin::Hole(_) = *origin {
            return true;
        }
    }
    false
}

/// Whether the file has each byte where its origin says, one after another.
pub fn is_traced(file: &[u8], bytes: &[u8], origins: &[Origin]) -> bool
    ensures { result ≡ is_traced_text file.now bytes.now origins.now }
{
    if bytes.len() != origins.len() {
        return false;
    }
    let mut from = 0usize;
    for index in 0..bytes.len() {
        if !is_origin(file, from, bytes[index], origins[index]) {
            return false;
        }
        from = next_from(file, from, origins[index]);
    }
    true
}

/// Whether it is an origin of the byte, where those before it end before `from`.
fn is_origin(file: &[u8], from: usize, byte: u8, origin: Origin) -> bool
    ensures { result ≡ has_origin file.now from byte origin }
{
    match origin {
        Origin::At(offset) => from <= offset && has_byte(file, offset, byte),
        Origin::Escape(offset) => from <= offset && has_escape(file, offset, byte),
        Origin::Value(offset) => has_byte(file, offset, byte),
        Origin::Given => true,
        Origin::Between => byte == b'\n',
        Origin::Hole(hole) => from <= hole.start && hole.start < hole.end && hole.end <= file.len(),
    }
}

/// Where the next byte may come from, after one with this origin.
fn next_from(file: &[u8], from: usize, origin: Origin) -> usize
    ensures { result ≡ next_after (length file.now) from origin }
{
    match origin {
        Origin::At(offset) | Origin::Escape(offset) if offset < file.len() => offset + 1,
        Origin::At(_) | Origin::Escape(_) => from,
        Origin::Hole(hole) => hole.start,
        Origin::Value(_) | Origin::Given | Origin::Between => from,
    }
}

/// Whether the file has the byte at the offset.
pub fn has_byte(file: &[u8], offset: usize, byte: u8) -> bool
    ensures { result ≡ is_at file.now offset byte }
{
    match file.get(offset) {
        Some(there) => *there == byte,
        None => false,
    }
}

/// Whether an escape sequence that stands for the byte begins at the offset.
fn has_escape(file: &[u8], offset: usize, byte: u8) -> bool
    ensures { result ≡ is_escape_at file.now offset byte }
{
    if !has_byte(file, offset, b'\\') {
        return false;
    }
    match file.get(offset.saturating_add(1)) {
        Some(letter) => escape_byte(*letter) == Some(byte),
        None => false,
    }
}
