//! Whether the file has what was read of a call, which isn't trusted.

ghost use Rattle.std.specs.Prelude.{◌≡◌, map, IfOk};
ghost use Rattle.std.specs.List.{list_all, list_any};
ghost use Rattle.sedck_calls_in_files.specs.Judged.{words_of, piece_text, script_in, is_standard as is_standard_path, is_at_hand as is_piece_at_hand, is_file as is_file_piece, are_traced as are_traced_texts, is_in_file as is_call_in_file};

use sedck_call::{Call, Piece, joined};
use sedck_origin::{Traced, has_hole, is_traced};
use std::alloc::{AllocError, Global};

/// The words as slices.
pub fn slices_of<'a>(alloc: Global, words: &'a [Vec<u8>]) -> Result<Vec<&'a [u8]>, AllocError>
    ensures { IfOk result (λ slices. map (λ word. word.now) slices.items ≡ map (λ word. word.items) words.now) }
{
    let mut slices = Vec::new(alloc);
    for word in words {
        slices.push(word.as_slice())?;
    }
    Ok(slices)
}

/// The bytes of the words.
pub(crate) fn bytes_of<'a>(alloc: Global, words: &'a [Traced]) -> Result<Vec<&'a [u8]>, AllocError>
    ensures { IfOk result (λ slices. map (λ slice. slice.now) slices.items ≡ words_of words.now) }
{
    let mut slices = Vec::new(alloc);
    for word in words {
        slices.push(word.bytes.as_slice())?;
    }
    Ok(slices)
}

/// Whether the file has the words and the script where their origins say, no part of the script is in another file, and the words give just
/// this script.
pub(crate) fn is_in_file(
    alloc: Global,
    file: &[u8],
    words: &[Traced],
    call: &Call,
    text: &Traced,
) -> Result<bool, AllocError>
    ensures { IfOk result (λ is. is ≡ is_call_in_file file.now words.now call.now text.now) }
{
    if !are_traced(file, words) || !is_traced(file, &text.bytes, &text.origins) {
        return Ok(false);
    }
    let slices = bytes_of(alloc, words)?;
    if !are_at_hand(&slices, &call.pieces) {
        return Ok(false);
    }
    if has_hole(&text.origins) || has_file(&call.pieces) {
        return Ok(true);
    }
    let script = script_of(alloc, &slices, &call.pieces)?;
    Ok(script.as_slice() == text.bytes.as_slice())
}

/// Whether the file has each byte of the texts where its origin says.
fn are_traced(file: &[u8], texts: &[Traced]) -> bool
    ensures { result ≡ are_traced_texts file.now texts.now }
{
    texts
        .iter()
        .all(|text| is_traced(file, &text.bytes, &text.origins))
}

/// Whether no part of the script is in another file.
fn are_at_hand(words: &[&[u8]], pieces: &[Piece]) -> bool
    ensures { result ≡ list_all (is_piece_at_hand (map (λ word. word.now) words.now)) pieces.now }
{
    pieces.iter().all(|piece| is_at_hand(words, *piece))
}

/// Whether the part of the script is in a word, or is read from standard input.
fn is_at_hand(words: &[&[u8]], piece: Piece) -> bool
    ensures { result ≡ is_piece_at_hand (map (λ word. word.now) words.now) piece }
{
    match piece {
        Piece::Text(_) => true,
        Piece::File(origin) => is_standard(origin.text(words)),
    }
}

/// Whether the path is that of standard input.
fn is_standard(path: &[u8]) -> bool
    ensures { result ≡ is_standard_path path.now }
{
    path == b"-".as_slice() || path == b"/dev/stdin".as_slice()
}

/// Whether a part of the script is a file.
fn has_file(pieces: &[Piece]) -> bool
    ensures { result ≡ list_any is_file_piece pieces.now }
{
    pieces.iter().any(|piece| is_file(*piece))
}

/// Whether the part of the script is a file.
fn is_file(piece: Piece) -> bool
    ensures { result ≡ is_file_piece piece }
{
    matches!(piece, Piece::File(_))
}

/// The script that the words give.
fn script_of(alloc: Global, words: &[&[u8]], pieces: &[Piece]) -> Result<Vec<u8>, AllocError>
    ensures { IfOk result (λ script. script.items ≡ script_in (map (λ word. word.now) words.now) pieces.now) }
{
    let parts = parts_of(alloc, words, pieces)?;
    joined(alloc, &parts)
}

/// The parts of the script that are in words.
fn parts_of(alloc: Global, words: &[&[u8]], pieces: &[Piece]) -> Result<Vec<Vec<u8>>, AllocError>
    ensures { IfOk result (λ parts. map (λ part. part.items) parts.items ≡ map (piece_text (map (λ word. word.now) words.now)) pieces.now) }
{
    let mut parts = Vec::new(alloc);
    for piece in pieces {
        parts.push(part_of(alloc, words, *piece)?)?;
    }
    Ok(parts)
}

/// The part of the script that is in a word.
fn part_of(alloc: Global, words: &[&[u8]], piece: Piece) -> Result<Vec<u8>, AllocError>
    ensures { IfOk result (λ part. part.items ≡ piece_text (map (λ word. word.now) words.now) piece) }
{
    let mut part = Vec::new(alloc);
    if let Piece::Text(origin) = piece {
        part.extend_from_slice(origin.text(words))?;
    }
    Ok(part)
}
