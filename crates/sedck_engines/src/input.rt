//! Reading an input whole.

ghost use Rattle.std.specs.Prelude.{◌≡◌, ◌⊎◌, IfOk, IfErr, IsTrue, vec_len};
ghost use Rattle.std.specs.Io.KnownBytes.{Consumes};
ghost use Rattle.sedck_engines.specs.declared.answer.Input.TheVariants as input;
ghost use Rattle.sedck_engines.specs.Inputs.{IsRead};

use crate::answer::{Input, RunFault};
use sedck_cert::streams::Source;
use std::alloc::{AllocError, Global};

/// How many bytes of a script are read: one more than it may have.
const SCRIPT_READ: usize = 1_048_577;

/// How many bytes of a certificate are read: 1.5 MiB and one more. No certificate's text has more than 1,388,247, so
/// what is longer spells none, however it goes on.
const CERTIFICATE_READ: usize = 1_572_865;

/// How many bytes one read asks for.
const BLOCK: usize = 65_536;

/// `len` zero bytes. A function, for its clause on the length.
fn zeros(alloc: Global, len: usize) -> Result<Vec<u8>, AllocError>
    ensures { IfOk result (λ bytes. vec_len bytes ≡ len) }
{
    vec![in alloc; 0u8; len]
}

/// Reads the source of a script to its end, or to one byte more than a script may have.
pub fn read_script<S: Source>(alloc: Global, source: &mut S) -> Result<Vec<u8>, RunFault>
    ensures read { IfOk result (λ bytes. IsRead 1048577 (S.left source.old) bytes.items) }
    ensures refused { IfErr result (λ fault. fault ≡ RunFault.OutOfMemory
        ⊎ ((fault ≡ RunFault.Read input.Script) × IsTrue (S.has_failed source.new))) }
{
    read_up_to(alloc, source, SCRIPT_READ, Input::Script)
}

/// Reads the source of a certificate to its end, or to more bytes than any certificate's text has.
pub fn read_certificate<S: Source>(alloc: Global, source: &mut S) -> Result<Vec<u8>, RunFault>
    ensures read { IfOk result (λ bytes. IsRead 1572865 (S.left source.old) bytes.items) }
    ensures refused { IfErr result (λ fault. fault ≡ RunFault.OutOfMemory
        ⊎ ((fault ≡ RunFault.Read input.Certificate) × IsTrue (S.has_failed source.new))) }
{
    read_up_to(alloc, source, CERTIFICATE_READ, Input::Certificate)
}

/// Reads the source to its end, or to so many bytes. A failed read is one of this input.
pub fn read_up_to<S: Source>(
    alloc: Global,
    source: &mut S,
    limit: usize,
    input: Input,
) -> Result<Vec<u8>, RunFault>
    ensures read { IfOk result (λ bytes. IsRead limit (S.left source.old) bytes.items) }
    ensures taken { IfOk result (λ bytes. Consumes (S.left source.old) (S.left source.new) bytes.items) }
    ensures refused { IfErr result (λ fault. fault ≡ RunFault.OutOfMemory
        ⊎ ((fault ≡ RunFault.Read input) × IsTrue (S.has_failed source.new))) }
{
    let mut block = zeros(alloc, BLOCK)?;
    let mut bytes = Vec::new(alloc);
    while bytes.len() < limit {
        let room = BLOCK.min(limit - bytes.len());
        let piece = &mut block[..room];
        let Ok(count) = source.read(piece) else {
            return Err(RunFault::Read(input));
        };
        if count == 0 {
            break;
        }
        bytes.extend_from_slice(&piece[..count])?;
    }
    Ok(bytes)
}
