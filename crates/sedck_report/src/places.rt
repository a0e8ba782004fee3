//! Lines and columns of a text.

ghost use Rattle.std.specs.Prelude.{◌≡◌, ◌+◌, ◌^◌, ◌++◌, ◌∷◌, [], ◌<◌, ◌≤◌, IfOk, List, ℕ, ◌==◌, drop, not, length, map};
ghost use Rattle.std.specs.List.{prefix_len};
ghost use Rattle.sedck_text.specs.Bytes.{newline};
ghost use Rattle.sedck_report.specs.Positions.{position_after, position_in};
ghost use Rattle.sedck_report.specs.Reported.{EndsInLine};

use memchr::memchr;
use std::alloc::{AllocError, Global};

/// Where a byte of a text, or its end, is.
#[derive(Clone, Copy)]
pub struct Position {
    /// In bytes, from 0.
    pub offset: usize,
    /// From 1. A newline belongs to the line that it ends.
    pub line: usize,
    /// In bytes, from 1.
    pub column: usize,
}

/// The position of each of the offsets, in their order. An offset after the text's end counts as the end.
///
/// Where the offsets increase, the time is linear in the text and in their number.
pub fn positions(alloc: Global, text: &[u8], offsets: &[usize]) -> Result<Vec<Position>, AllocError>
    ensures { IfOk result (λ positions. positions.items ≡ map (position_in text.now) offsets.now) }
{
    let mut positions = Vec::new(alloc);
    let mut from = FIRST;
    for offset in offsets {
        let start = if *offset < from.offset { FIRST } else { from };
        from = position_from(text, start, *offset);
        positions.push(from)?;
    }
    Ok(positions)
}

/// The position of the offset. An offset after the text's end counts as the end.
pub fn position_at(text: &[u8], offset: usize) -> Position
    ensures position { result ≡ position_in text.now offset }
    ensures own { result ≡ position_in text.now result.offset }
{
    position_from(text, FIRST, offset)
}

/// The position of a text's first byte.
const FIRST: Position = Position {
    offset: 0,
    line: 1,
    column: 1,
};

/// The position of the offset, from one that isn't after it. An offset after the text's end counts as the end.
///
/// The time is linear in the bytes between them.
pub fn position_from(text: &[u8], from: Position, offset: usize) -> Position
    requires from { from ≡ position_in text.now from.offset }
    requires order { from.offset ≤ offset }
    ensures position { result ≡ position_in text.now offset }
    ensures own { result ≡ position_in text.now result.offset }
{
    let mut position = from;
    for index in from.offset..offset.min(text.len()) {
        position = after(position, text[index]);
    }
    position
}

/// The position after this byte.
fn after(position: Position, byte: u8) -> Position
    requires lines { position.line ≤ position.offset + 1 }
    requires columns { position.column ≤ position.offset + 1 }
    requires offset { position.offset < 2 ^ 63 }
    ensures { (before : List ℕ) → position ≡ position_after before → result ≡ position_after (before ++ (byte ∷ [])) }
{
    let Position {
        offset,
        line,
        column,
    } = position;
    if byte == b'\n' {
        return Position {
            offset: offset + 1,
            line: line + 1,
            column: 1,
        };
    }
    Position {
        offset: offset + 1,
        line,
        column: column + 1,
    }
}

/// The end of this many bytes, or of the line where it has fewer.
pub fn end_behind(text: &[u8], start: Position, length: usize) -> Position
    ensures { EndsInLine text.now start result }
{
    let rest = skipped(text, start.offset);
    let length = line_len(&rest[..length.min(rest.len())]);
    match start.column.checked_add(length) {
        Some(column) => Position {
            offset: start.offset + length,
            line: start.line,
            column,
        },
        None => start,
    }
}

/// How many bytes the text has before its first newline.
pub fn line_len(text: &[u8]) -> usize
    ensures value { result ≡ prefix_len (λ b. not (b == newline)) text.now }
    ensures within { result ≤ length text.now }
{
    memchr(b'\n', text).unwrap_or(text.len())
}

/// What follows this many bytes.
pub fn skipped(rest: &[u8], count: usize) -> &[u8]
    ensures { result.now ≡ drop count rest.now }
{
    rest.get(count..).unwrap_or(&[])
}
