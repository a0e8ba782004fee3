//! The comments of a script, and those that some seds take for `#n`, by which a sed prints no line on its own.

use crate::bytes::{first_line, is_blank};
use sedck_parts::{Place, Reading};
use sedck_report::skipped;
use std::alloc::{AllocError, Global};

/// A comment of a script.
#[derive(Clone, Copy)]
pub(crate) struct Comment<'a> {
    pub offset: usize,
    /// From its `#` to the end of its line.
    pub bytes: &'a [u8],
    /// Whether only blanks are before it in its line.
    pub is_alone: bool,
    /// Whether it is right after the flags of an `s`.
    pub follows_flags: bool,
}

/// The comments of the script, in order.
pub(crate) fn comments_in(alloc: Global, text: &[u8]) -> Result<Vec<Comment>, AllocError> {
    let mut comments = Vec::new(alloc);
    let mut reading = Reading::SCRIPT;
    let mut is_alone = true;
    for (offset, byte) in text.iter().enumerate() {
        let before = reading.place;
        reading = reading.after(*byte);
        if matches!(reading.place, Place::Comment) && !matches!(before, Place::Comment) {
            comments.push(Comment {
                offset,
                bytes: first_line(skipped(text, offset)),
                is_alone,
                follows_flags: matches!(before, Place::Flags),
            })?;
        }
        is_alone = *byte == b'\n' || is_alone && is_blank(*byte);
    }
    Ok(comments)
}

/// How many comments at most are warned of, so that no report is far longer than its script.
const MOST: usize = 100;

/// Where the first comments are that begin with an `n`, but for a first line that is `#n` alone, and but for those that BusyBox skips
/// unread after an `s`.
pub(crate) fn silencing(alloc: Global, text: &[u8]) -> Result<Vec<usize>, AllocError> {
    let mut offsets = Vec::new(alloc);
    for comment in &comments_in(alloc, text)? {
        let is_quiet = comment.offset == 0 && comment.bytes == b"#n".as_slice();
        if comment.bytes.starts_with(b"#n")
            && !is_quiet
            && !comment.follows_flags
            && offsets.len() < MOST
        {
            offsets.push(comment.offset)?;
        }
    }
    Ok(offsets)
}
