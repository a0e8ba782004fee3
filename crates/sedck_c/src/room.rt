//! Texts that are put where the caller has room for them.

ghost use Rattle.std.specs.Prelude.{◌≡◌, ◌⊎◌, IfOk, IsTrue, false, length};
ghost use Rattle.sedck_cert.specs.Text.{files_text};
ghost use Rattle.sedck_c.specs.Answers.{IsPut, lists_of, IsTooSmall};

use crate::statuses::{ACCEPTED, MEMORY, ROOM};
use sedck_cert::streams::FromWrite;
use sedck_cert::{Cert, write_files};
use std::alloc::{AllocError, Global};

/// Puts the text at the beginning of the room, tells its length, and answers whether it fits. An empty room is none at all: then
/// the length alone is asked for.
pub(crate) fn put(text: &[u8], room: &mut [u8], needed: &mut usize) -> bool
    ensures needed { needed.new ≡ length text.now }
    ensures put { IsTrue result → IsPut text.now room.new }
    ensures small { result ≡ false → IsTooSmall room.old room.new needed.new }
    ensures kept { length room.new ≡ length room.old }
{
    *needed = text.len();
    if room.is_empty() {
        return true;
    }
    if room.len() < text.len() {
        return false;
    }
    room[..text.len()].copy_from_slice(text);
    true
}

/// The same, and the status of a text that was to be put.
pub(crate) fn put_with(status: u32, text: &[u8], room: &mut [u8], needed: &mut usize) -> u32
    ensures needed { needed.new ≡ length text.now }
    ensures put { ((result ≡ status) × IsPut text.now room.new) ⊎ ((result ≡ ROOM) × IsTooSmall room.old room.new needed.new) }
{
    if put(text, room, needed) {
        status
    } else {
        ROOM
    }
}

/// Puts the certificate's lists, as `sedck files` prints them, and answers the status.
pub(crate) fn put_lists(alloc: Global, cert: &Cert, room: &mut [u8], needed: &mut usize) -> u32
    ensures needed { (result ≡ MEMORY) ⊎ (needed.new ≡ length (lists_of cert.now)) }
    ensures put { (result ≡ MEMORY) ⊎ ((result ≡ ACCEPTED) × IsPut (lists_of cert.now) room.new)
        ⊎ ((result ≡ ROOM) × IsTooSmall room.old room.new needed.new) }
{
    match lists(alloc, cert) {
        Ok(text) => put_with(ACCEPTED, &text, room, needed),
        Err(_) => {
            *needed = 0;
            MEMORY
        }
    }
}

/// The names that the certificate lists.
fn lists(alloc: Global, cert: &Cert) -> Result<Vec<u8>, AllocError>
    ensures { IfOk result (λ text. text.items ≡ lists_of cert.now) }
{
    let mut out = FromWrite::new(Vec::new(alloc));
    match write_files(&mut out, cert.reads(), cert.writes()) {
        Ok(()) => Ok(out.into_inner()),
        Err(_) => Err(AllocError),
    }
}
