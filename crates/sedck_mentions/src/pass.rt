//! Words for a sed of which nothing is told.

ghost use Rattle.std.specs.Prelude.{◌≡◌, ◌<◌, ◌&&◌, ◌||◌, not, max, nat_lt, slice_index, take, drop, length, IfOk};
ghost use Rattle.sedck_mentions.specs.Words.{is_word as is_word_between, is_idle as is_idle_after};
ghost use Rattle.sedck_mentions.specs.Told.{untold as untold_in};

use crate::line::Line;
use crate::spans::{Span, ends_of, ends_of_places};
use crate::words::{is_idle, is_word};
use std::alloc::{AllocError, Global};

/// The offsets of the words for a sed in the file of which nothing is told, neither by one of these names of calls nor by one of these
/// places that aren't understood. A file with macros of M4 has comments after `dnl`, too.
pub fn untold(
    alloc: Global,
    file: &[u8],
    has_macros: bool,
    names: &[Span],
    places: &[usize],
) -> Result<Vec<usize>, AllocError>
    ensures { IfOk result (λ offsets. offsets.items ≡ untold_in has_macros file.now names.now places.now) }
{
    let name_ends = ends_of(alloc, file.len(), names)?;
    let place_ends = ends_of_places(alloc, file.len(), places)?;
    let mut offsets = Vec::new(alloc);
    let mut line = Line::first(file, has_macros);
    let mut named = 0usize;
    let mut told = 0usize;
    for offset in 0..file.len() {
        named = further(named, &name_ends, offset);
        told = further(told, &place_ends, offset);
        if is_untold(file, offset, line, named, told) {
            offsets.push(offset)?;
        }
        line = line.after(file, has_macros, offset);
    }
    Ok(offsets)
}

/// The further end, of this one and that of what begins at the offset.
fn further(end: usize, ends: &[usize], offset: usize) -> usize
    requires { offset < length ends.now }
    ensures { result ≡ max end (slice_index ends.now offset) }
{
    end.max(ends[offset])
}

/// Whether a word for a sed begins at the offset of this line, where names reach to before `named`, and a place before `told` isn't
/// understood.
fn is_untold(file: &[u8], offset: usize, line: Line, named: usize, told: usize) -> bool
    requires within { offset < length file.now }
    requires path { line.path < length file.now }
    ensures { result ≡ ((is_word_between (take offset file.now) (drop offset file.now)
        && not (line.is_comment || is_idle_after (take line.path file.now)))
        && not (nat_lt offset named || nat_lt line.start told)) }
{
    let (before, after) = file.split_at(offset);
    is_word(before, after)
        && !(line.is_comment || is_idle(&file[..line.path]))
        && !(offset < named || line.start < told)
}
