//! Labels that are read as POSIX has them, and otherwise by some seds.

use crate::bytes::{OF_NAMES, byte_at, first_name, is_among, without_blanks};
use crate::looks::{Look, push_any};
use sedck_parts::{Place, Reading};
use sedck_report::{Code, end_behind, position_at};
use sedck_script::Location;
use std::alloc::{AllocError, Global};
use std::collections::BTreeMap;

/// How many bytes of a label all seds look at.
const COUNTED: usize = 8;

/// Of the first label that something follows on its line, and of the first one that is like another in the bytes by which all seds tell
/// labels apart.
pub(crate) fn label_looks(
    alloc: Global,
    text: &[u8],
    locations: &[Location],
) -> Result<Vec<Look>, AllocError> {
    let alike = alike_label(alloc, text, locations)?;
    let mut looks = Vec::new(alloc);
    push_any(&mut looks, followed_label(text, locations))?;
    push_any(&mut looks, alike)?;
    Ok(looks)
}

/// Of the first label of `:`, `b` or `t` that something follows on its line, also where it is left out.
fn followed_label(text: &[u8], locations: &[Location]) -> Option<Look> {
    for location in locations {
        let verb = byte_at(text, location.verb);
        if is_among(verb, ":bt") && byte_at(text, location.end) != b'\n' {
            let position = position_at(text, location.end);
            return Some(Look {
                position,
                end: Some(end_behind(text, position, text.len())),
                code: Code::LabelToTheLineEnd,
                message: "a sed that ends labels at the end of their lines, as those of the BSDs and macOS, reads this as a part of the label",
                hint: "write it on a line of its own",
                fix: None,
            });
        }
    }
    None
}

/// Of the first label that is like an earlier one in the bytes that all seds look at.
fn alike_label(
    alloc: Global,
    text: &[u8],
    locations: &[Location],
) -> Result<Option<Look>, AllocError> {
    let mut seen: BTreeMap<&[u8], ()> = BTreeMap::new(alloc);
    for location in locations {
        let label = label_of(text, *location);
        let Some(counted) = label.get(..COUNTED) else {
            continue;
        };
        if seen.insert(counted, ())?.is_some() {
            return Ok(Some(Look {
                position: position_at(text, location.verb),
                end: None,
                code: Code::LongLabels,
                message: "another label has the same first 8 bytes, and POSIX lets a sed look at no more of a label",
                hint: "let the labels differ in their first 8 bytes",
                fix: None,
            }));
        }
    }
    Ok(None)
}

/// The label of a `:`; an empty one of another command.
fn label_of(text: &[u8], location: Location) -> &[u8] {
    let command = text.get(location.verb..location.end).unwrap_or(&[]);
    let Some(rest) = command.strip_prefix(b":") else {
        return &[];
    };
    first_name(without_blanks(rest))
}

/// The most labels that are listed.
const LISTED: usize = 8;

/// The labels of a script that is read but for where branches lead, each between backquotes, and dots for those above the most. Nothing
/// where there are none.
pub fn listed_labels(alloc: Global, text: &[u8]) -> Result<String, AllocError> {
    let mut listed = String::new(alloc);
    let mut count = 0usize;
    let mut reading = Reading::SCRIPT;
    // A newline ends a label that is the script's end, too.
    for offset in 0..text.len().saturating_add(1) {
        let byte = byte_at(text, offset);
        let before = reading.place;
        reading = reading.after(byte);
        if reading.command == b':' {
            let words = match (before, reading.place) {
                (Place::LabelBegin, Place::Label) => {
                    count = count.saturating_add(1);
                    opening(count)
                }
                (Place::Label, Place::Label) => "",
                (Place::Label, _) if count <= LISTED => "`",
                _ => "",
            };
            listed.push_str(words)?;
            if matches!(reading.place, Place::Label)
                && count <= LISTED
                && is_among(byte, OF_NAMES)
            {
                listed.push(char::from(byte))?;
            }
        }
    }
    Ok(listed)
}

/// What precedes the label with this number, from 1.
fn opening(number: usize) -> &'static str {
    match number {
        1 => "`",
        number if number <= LISTED => ", `",
        number if number == LISTED.saturating_add(1) => ", ...",
        _ => "",
    }
}
