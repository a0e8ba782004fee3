//! What `s` makes of a text.

use crate::matching::{Anchors, Found, first_match};
use sedck_bre::Bre;
use sedck_model::{Budget, Undecided};
use sedck_script::{Part, Substitution};
use std::alloc::AllocError;

/// The text after the substitution, or none where nothing is replaced.
pub(crate) fn substituted(
    substitution: &Substitution,
    expression: &Bre,
    anchors: Anchors,
    text: &[u8],
    budget: &mut Budget,
) -> Result<Option<Vec<u8>>, Undecided> {
    let wanted = substitution.nth.unwrap_or(1);
    let mut made = Made {
        new: Vec::new(budget.alloc),
        copied: 0,
        count: 0,
        is_changed: false,
    };
    let mut from = 0;
    let mut last = None;
    // Each round goes on by a byte at least.
    for _ in 0..=text.len() {
        let Some(found) = first_match(expression, anchors, text, from, budget)? else {
            break;
        };
        let end = found.spot.at;
        from = if found.start == end {
            end.saturating_add(1)
        } else {
            end
        };
        // An empty match isn't one where the match before it ended.
        if found.start == end && last == Some(end) {
            continue;
        }
        last = Some(end);
        made.count = made.count.saturating_add(1);
        if made.count >= wanted {
            made.replace(&substitution.parts, text, found)?;
            if !substitution.global {
                break;
            }
        }
    }
    Ok(made.ended(text)?)
}

/// The new text as far as it is made.
#[derive(Drop)]
struct Made {
    new: Vec<u8>,
    /// How many bytes of the old text are in it, or were replaced.
    copied: usize,
    /// How many matches were found.
    count: u32,
    is_changed: bool,
}

impl Made {
    /// Adds what is before the match, and what takes its place.
    fn replace(&mut self, parts: &[Part], text: &[u8], found: Found) -> Result<(), AllocError> {
        let before = text.get(self.copied..found.start).unwrap_or(b"");
        self.new.extend_from_slice(before)?;
        for part in parts {
            match part {
                Part::Text(bytes) => self.new.extend_from_slice(bytes)?,
                Part::Newline => self.new.push(b'\n')?,
                Part::Tab => self.new.push(b'\t')?,
                Part::Whole => {
                    let whole = text.get(found.start..found.spot.at).unwrap_or(b"");
                    self.new.extend_from_slice(whole)?;
                }
                Part::Group(group) => {
                    let own = found.spot.group_text(text, *group);
                    self.new.extend_from_slice(own)?;
                }
            }
        }
        self.copied = found.spot.at;
        self.is_changed = true;
        Ok(())
    }

    /// The whole new text, if a match was replaced.
    fn ended(self, text: &[u8]) -> Result<Option<Vec<u8>>, AllocError> {
        if !self.is_changed {
            return Ok(None);
        }
        let mut new = self.new;
        new.extend_from_slice(text.get(self.copied..).unwrap_or(b""))?;
        Ok(Some(new))
    }
}
