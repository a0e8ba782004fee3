//! Words for a sed of which nothing is told, by the bytes of the file alone.

ghost use Rattle.std.specs.Prelude.{◌≡◌, map, IfOk};
ghost use Rattle.sedck_find.specs.Told.{has_macros as has_macros_of, name_of, IsTold};

use sedck_found::{Found, FoundCall};
use sedck_kinds::Kind;
use sedck_mentions::{Span, untold};
use sedck_origin::Result;
use std::alloc::Global;

/// What is found in the file of this kind, with the words for a sed of which neither these calls nor these places tell.
pub(crate) fn with_words(
    alloc: Global,
    kind: Kind,
    file: &[u8],
    calls: Vec<FoundCall>,
    unread: Vec<usize>,
) -> Result<Found>
    ensures { IfOk result (IsTold (has_macros_of kind) file.now) }
{
    let names = names_of(alloc, &calls)?;
    let words = untold(alloc, file, has_macros(kind), &names, &unread)?;
    let mut unread = unread;
    unread.extend_from_slice(&words)?;
    unread.sort()?;
    Ok(Found {
        calls,
        unread,
        words,
    })
}

/// Where the file has the names of the calls.
fn names_of(alloc: Global, calls: &[FoundCall]) -> Result<Vec<Span>>
    ensures { IfOk result (λ names. names.items ≡ map name_of calls.now) }
{
    let mut names = Vec::new(alloc);
    for call in calls {
        names.push(Span {
            start: call.start,
            end: call.end,
        })?;
    }
    Ok(names)
}

/// Whether a file of this kind has macros of M4.
fn has_macros(kind: Kind) -> bool
    ensures { result ≡ has_macros_of kind }
{
    matches!(kind, Kind::Autoconf)
}
