//! Scripts whose commands have their delimiters in lists, with other delimiters.

use crate::words::{add, empty, quoted};
use sedck_found::{OpenHole, Role};
use sedck_origin::{Hole, Origin, Result, Traced};
use sedck_parts::{Mend, Reading, escapes_delimiter, mends_in};
use std::alloc::Global;

/// The script with another delimiter for each command that has its own in a list, where the file has that. Of such a command the delimiters
/// are holes, escaped ones lose their backslashes, and it is a condition.
pub(crate) fn mended(
    alloc: Global,
    file: &[u8],
    text: Traced,
    holes: &mut Vec<OpenHole>,
) -> Result<Traced> {
    let mut mends = mends_in(alloc, &text.bytes)?;
    mends.retain(|mend| is_in_file(&text.origins, *mend));
    let mut written = empty(alloc);
    let mut reading = Reading::SCRIPT;
    for (offset, (byte, origin)) in text.bytes.iter().zip(&text.origins).enumerate() {
        reading = reading.after(*byte);
        let next = text.bytes.get(offset.saturating_add(1));
        match mends.get(mends.partition_point(|mend| mend.last < offset)) {
            Some(mend) if mend.has(offset) => {
                add_delimiter(&mut written, holes, (*mend, offset), file, &text.origins)?
            }
            Some(mend) if mend.is_around(offset) && escapes_delimiter(reading, next) => {}
            _ => add(&mut written, *byte, *origin)?,
        }
    }
    Ok(written)
}

/// Adds the other delimiter in place of that at the offset, and with the first one the condition.
fn add_delimiter(
    written: &mut Traced,
    holes: &mut Vec<OpenHole>,
    (mend, offset): (Mend, usize),
    file: &[u8],
    origins: &[Origin],
) -> Result<()> {
    let hole = hole_between(origins, offset, offset);
    if offset == mend.first {
        let whole = hole_between(origins, mend.first, mend.last);
        let part = origins.get(mend.first..mend.last).unwrap_or(&[]);
        let is_whole = is_unquoted(file, part, whole.start);
        let is_bare = mend.is_bare;
        let role = Role::Delimiter { is_whole, is_bare };
        holes.push(OpenHole::new(whole, role, mend.other))?;
        if is_bare {
            add(written, b'\\', Origin::Hole(hole))?;
        }
    }
    add(written, mend.other, Origin::Hole(hole))
}

/// Whether the file has each of the delimiters.
fn is_in_file(origins: &[Origin], mend: Mend) -> bool {
    let is_at = |index: usize| matches!(origins.get(index), Some(Origin::At(_)));
    is_at(mend.first) && mend.middle.is_none_or(is_at) && is_at(mend.last)
}

/// Whether the file has these bytes and holes one right after another, from this offset on, and in the place of each hole just the name of
/// a variable: more may have the delimiter, too.
fn is_unquoted(file: &[u8], origins: &[Origin], start: usize) -> bool {
    let mut next = start;
    for origin in origins {
        next = match *origin {
            Origin::At(offset) if offset == next => offset.saturating_add(1),
            // Several bytes may be in the place of one hole.
            Origin::Hole(hole) if (hole.start == next || hole.end == next) && is_name(file, hole) =>
                { hole.end }
            _ => return false,
        };
    }
    true
}

/// Whether a variable is written in the place of the hole with no more than its name.
fn is_name(file: &[u8], hole: Hole) -> bool {
    let written = file.get(hole.start..hole.end).unwrap_or(&[]);
    written.iter().all(|byte| byte.is_ascii_alphanumeric() || b"${}()_".contains(byte))
}

/// What the file has from the one of these bytes to the other one.
fn hole_between(origins: &[Origin], first: usize, last: usize) -> Hole {
    let offset_of = |index: usize| match origins.get(index) {
        Some(Origin::At(offset)) => *offset,
        _ => 0,
    };
    quoted(offset_of(first), offset_of(last).saturating_add(1))
}
