//! Spans of a file, and how far those reach that begin at each offset.

ghost use Rattle.std.specs.Prelude.{◌≡◌, ◌<◌, ℕ, length, map, max, vec_len, slice_index, IfOk};
ghost use Rattle.sedck_mentions.specs.Private.Pass.{end_at, end_if_at, place_span};

use std::alloc::{AllocError, Global};

/// A part of a file.
#[derive(Clone, Copy)]
pub struct Span {
    /// From this offset on ..
    pub start: usize,
    /// .. to before this one.
    pub end: usize,
}

/// The furthest end of the spans that begin at each offset below the count; 0 where none does.
pub(crate) fn ends_of(alloc: Global, count: usize, spans: &[Span]) -> Result<Vec<usize>, AllocError>
    ensures count { IfOk result (λ ends. vec_len ends ≡ count) }
    ensures ends { IfOk result (λ ends. (k : ℕ) → k < count → slice_index ends.items k ≡ end_at k spans.now) }
{
    let mut ends = none(alloc, count)?;
    for span in spans {
        note(&mut ends, *span);
    }
    Ok(ends)
}

/// The same of places, which are spans of one byte.
pub(crate) fn ends_of_places(
    alloc: Global,
    count: usize,
    places: &[usize],
) -> Result<Vec<usize>, AllocError>
    ensures count { IfOk result (λ ends. vec_len ends ≡ count) }
    ensures ends { IfOk result (λ ends. (k : ℕ) → k < count → slice_index ends.items k ≡ end_at k (map place_span places.now)) }
{
    let mut ends = none(alloc, count)?;
    for place in places {
        note_place(&mut ends, *place);
    }
    Ok(ends)
}

/// As many zeros.
fn none(alloc: Global, count: usize) -> Result<Vec<usize>, AllocError>
    ensures count { IfOk result (λ ends. vec_len ends ≡ count) }
    ensures ends { IfOk result (λ ends. (k : ℕ) → k < count → slice_index ends.items k ≡ 0) }
{
    vec![in alloc; 0usize; count]
}

/// Notes the end of the span where it begins, if that is among the ends.
fn note(ends: &mut [usize], span: Span)
    ensures count { length ends.new ≡ length ends.old }
    ensures ends { (k : ℕ) → k < length ends.old → slice_index ends.new k ≡ max (slice_index ends.old k) (end_if_at k span) }
{
    if span.start < ends.len() {
        ends[span.start] = ends[span.start].max(span.end);
    }
}

/// The same of a place.
fn note_place(ends: &mut [usize], place: usize)
    ensures count { length ends.new ≡ length ends.old }
    ensures ends { (k : ℕ) → k < length ends.old → slice_index ends.new k ≡ max (slice_index ends.old k) (end_if_at k (place_span place)) }
{
    if place < ends.len() {
        ends[place] = ends[place].max(place + 1);
    }
}
