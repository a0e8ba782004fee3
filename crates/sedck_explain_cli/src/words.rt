//! The words of the command line.

use bstr::ByteSlice;
use std::alloc::{AllocError, AllocGlobal, Global};
use std::env::FillError;
use std::rt::Env;

/// The words after the program's name.
#[derive(Drop)]
pub struct Words {
    /// Those of the program itself. A byte that isn't a part of UTF-8 becomes NUL, which no word of a command line has, and two digits: so
    /// a path with such a byte is refused by itself, and the other scripts are explained.
    pub own: Vec<String>,
    /// Those of a call of sed: they follow the first `--` after `--sed`.
    pub call: Option<Vec<Vec<u8>>>,
}

/// The words after the program's name.
pub fn arguments<R: Env + AllocGlobal>(rt: &R) -> Result<Words, AllocError> {
    let mut own = Vec::new(rt.alloc());
    let mut call: Option<Vec<Vec<u8>>> = None;
    let mut is_call = false;
    for index in 1..usize::MAX {
        let Some(bytes) = argument(rt, index)? else {
            break;
        };
        if let Some(words) = &mut call {
            words.push(bytes)?;
        } else if is_call && bytes.as_slice() == b"--".as_slice() {
            call = Some(Vec::new(rt.alloc()));
        } else {
            is_call = is_call || bytes.as_slice() == b"--sed".as_slice();
            own.push(decoded(rt.alloc(), &bytes)?)?;
        }
    }
    Ok(Words { own, call })
}

/// The bytes of a word, if there are so many words.
fn argument<R: Env + AllocGlobal>(rt: &R, index: usize) -> Result<Option<Vec<u8>>, AllocError> {
    let mut bytes = Vec::new(rt.alloc());
    let mut room = 256usize;
    for _ in 0..usize::BITS {
        bytes.resize(room, 0u8)?;
        match rt.arg(index, bytes.as_mut_slice()) {
            Ok(length) => {
                bytes.truncate(length);
                return Ok(Some(bytes));
            }
            Err(FillError::NotPresent) => return Ok(None),
            Err(FillError::TooLong) => room = room.saturating_add(room),
        }
    }
    Err(AllocError)
}

/// The bytes as text, with NUL and two hexadecimal digits for each byte that isn't a part of UTF-8.
fn decoded(alloc: Global, bytes: &[u8]) -> Result<String, AllocError> {
    let mut word = String::new(alloc);
    for chunk in bytes.utf8_chunks() {
        word.push_str(chunk.valid())?;
        for byte in chunk.invalid() {
            word.push_str(format!(in alloc; "\0{byte:02X}")?.as_str())?;
        }
    }
    Ok(word)
}
