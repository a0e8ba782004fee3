//! The text of a script in parts.

ghost use Rattle.std.specs.Prelude.{◌≡◌, map, IfOk};
ghost use Rattle.sedck_call.specs.Scripts.{joined_texts};

use std::alloc::{AllocError, Global};

/// The text of a script in parts: these, with a newline between.
pub fn joined(alloc: Global, parts: &[Vec<u8>]) -> Result<Vec<u8>, AllocError>
    ensures { IfOk result (λ text. text.items ≡ joined_texts (map (λ part. part.items) parts.now)) }
{
    let mut text = Vec::new(alloc);
    let [first, more @ ..] = parts else {
        return Ok(text);
    };
    text.extend_from_slice(first)?;
    for part in more {
        text.push(b'\n')?;
        text.extend_from_slice(part)?;
    }
    Ok(text)
}
