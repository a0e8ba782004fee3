//! What a file holds.

ghost use Rattle.std.specs.Prelude.{◌≡◌, false, IfOk, MatchOption};
ghost use Rattle.sedck_calls_in_files.specs.Private.Contents.{IsContents};

use sedck_cert::streams::Source;
use sedck_engines::{Input, RunFault, read_up_to};
use sedck_kinds::{Kind, kind_of};
use std::alloc::{AllocError, Global};

/// The most bytes of a file that are read.
const LIMIT: usize = 4_194_304;

/// How many bytes say of which kind a file is.
const HEAD: usize = 16_384;

/// What a file holds.
#[derive(Drop)]
pub(crate) enum Contents {
    /// A text of this kind.
    Text(Kind, Vec<u8>),
    /// What calls aren't looked for in.
    Other,
    TooLong,
    Unopened,
    Unreadable,
}

/// What is read of the file at this path: its first bytes alone where calls aren't looked for in it. A file that is given and has no
/// other kind is shell text.
pub(crate) fn contents_of<S: Source>(
    alloc: Global,
    path: &str,
    asked: Option<Kind>,
    is_given: bool,
    source: &mut S,
) -> Result<Contents, AllocError>
    ensures { IfOk result (IsContents is_given (S.left source.old) (S.has_failed source.new)) }
{
    let mut text = match read_up_to(alloc, source, HEAD, Input::Script) {
        Ok(head) => head,
        Err(RunFault::Read(_)) => return Ok(Contents::Unreadable),
        Err(_) => return Err(AllocError),
    };
    let Some(kind) = kind_among(path, &text, asked, is_given) else {
        return Ok(Contents::Other);
    };
    let rest = match read_up_to(alloc, source, LIMIT + 1 - HEAD, Input::Script) {
        Ok(rest) => rest,
        Err(RunFault::Read(_)) => return Ok(Contents::Unreadable),
        Err(_) => return Err(AllocError),
    };
    text.extend_from_slice(&rest)?;
    if text.len() > LIMIT {
        return Ok(Contents::TooLong);
    }
    Ok(Contents::Text(kind, text))
}

/// The kind of a file that begins with these bytes. One that is given and has no other kind is shell text.
fn kind_among(path: &str, head: &[u8], asked: Option<Kind>, is_given: bool) -> Option<Kind>
    ensures { MatchOption result (is_given ≡ false) (λ kind. Unit {0}) }
{
    if asked.is_some() {
        return asked;
    }
    match kind_of(path, head) {
        Some(kind) => Some(kind),
        None if is_given => Some(Kind::Shell),
        None => None,
    }
}
