//! The parts of a call's script: texts in its words, and files.

ghost use Rattle.std.specs.Prelude.{◌≡◌, ◌++◌, ◌∷◌, [], map, IfOk, OnOk};
ghost use Rattle.sedck_explanation.specs.Called.{IsPart, AreParts, known_bytes};
ghost use Rattle.sedck_engines.specs.Inputs.{IsRead};

use sedck_call::{Origin, Piece};
use sedck_cert::streams::{Failed, FromRead, Source};
use sedck_engines::{Opener, RunFault, read_script};
use std::alloc::{AllocError, Global};
use std::io::Input;

/// Why a call isn't explained.
#[derive(Clone, Copy, Drop)]
pub enum Unexplained {
    /// The file whose path this is can't be read.
    Unread(Origin),
    Write,
    OutOfMemory,
}

impl From<AllocError> for Unexplained {
    fn from(_: AllocError) -> Unexplained {
        Unexplained::OutOfMemory
    }
}

impl From<Failed> for Unexplained {
    fn from(_: Failed) -> Unexplained {
        Unexplained::Write
    }
}

/// The parts of the script, in order. The path `-` is standard input.
pub fn parts_of<O: Opener, R: Input>(
    alloc: Global,
    files: &O,
    input: &R,
    words: &[&[u8]],
    pieces: &[Piece],
) -> Result<Vec<Vec<u8>>, Unexplained>
    ensures { IfOk result (λ parts. AreParts (O.known files.now) (map (λ word. word.now) words.now) pieces.now (map (λ part. part.items) parts.items)) }
{
    let mut parts = Vec::new(alloc);
    for piece in pieces {
        let part = part_of(alloc, files, input, words, *piece)?;
        add_part(&mut parts, part)?;
    }
    Ok(parts)
}

/// Adds the part.
fn add_part(parts: &mut Vec<Vec<u8>>, part: Vec<u8>) -> Result<(), AllocError>
    ensures { OnOk result (parts.new.items ≡ parts.old.items ++ part ∷ []) }
{
    Ok(parts.push(part)?)
}

/// The bytes of a part.
fn part_of<O: Opener, R: Input>(
    alloc: Global,
    files: &O,
    input: &R,
    words: &[&[u8]],
    piece: Piece,
) -> Result<Vec<u8>, Unexplained>
    ensures { IfOk result (λ part. IsPart (O.known files.now) (map (λ word. word.now) words.now) piece part.items) }
{
    match piece {
        Piece::Text(origin) => Ok(copied(alloc, origin.text(words))?),
        Piece::File(origin) => {
            let Ok(path) = str::from_utf8(origin.text(words)) else {
                return Err(Unexplained::Unread(origin));
            };
            match read_part(alloc, files, input, path) {
                Ok(part) => Ok(part),
                Err(RunFault::Read(_)) => Err(Unexplained::Unread(origin)),
                Err(_) => Err(Unexplained::OutOfMemory),
            }
        }
    }
}

/// A copy of the bytes.
fn copied(alloc: Global, bytes: &[u8]) -> Result<Vec<u8>, AllocError>
    ensures { IfOk result (λ copy. copy.items ≡ bytes.now) }
{
    let mut copy = Vec::new(alloc);
    copy.extend_from_slice(bytes)?;
    Ok(copy)
}

/// Reads the file at the path.
fn read_part<O: Opener, R: Input>(
    alloc: Global,
    files: &O,
    input: &R,
    path: &str,
) -> Result<Vec<u8>, RunFault>
    ensures { IfOk result (λ part. IsRead 1048577 (known_bytes (O.known files.now) path.now) part.items) }
{
    if path == "-" {
        return read_all(alloc, FromRead::new(input.reader()));
    }
    match files.open(path) {
        Ok(file) => read_all(alloc, file),
        Err(_) => Err(RunFault::Read(sedck_engines::Input::Script)),
    }
}

/// Reads the source to its end.
fn read_all<S: Source + Drop>(alloc: Global, mut source: S) -> Result<Vec<u8>, RunFault>
    ensures { IfOk result (λ part. IsRead 1048577 (S.left source) part.items) }
{
    read_script(alloc, &mut source)
}
