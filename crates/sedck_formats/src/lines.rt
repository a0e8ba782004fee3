//! A line of a script around some of its bytes, and a command as it is written.

use crate::letters::{Letters, line_in, width_of};
use crate::names::Names;
use sedck_answer::Explanation;
use sedck_report::{Finding, Position, line_len};
use sedck_script::{Location, Script, ScriptFault, locate};
use std::alloc::{AllocError, Global};

/// What stands for a part of a line that is left out.
const CUT: &str = "...";

/// A script as reports name it and show it.
#[derive(Clone, Copy)]
pub struct Shown<'a> {
    pub names: Names<'a>,
    pub text: &'a [u8],
    /// Where its commands are in the text.
    pub positions: &'a [Position],
    /// The script's own text: the text may be that of a file with a call.
    pub source: &'a [u8],
    /// Where its commands are in its own text.
    pub commands: &'a [Location],
    /// The script, where it isn't refused.
    pub script: Option<&'a Script<'a>>,
    pub letters: Letters,
}

/// Where the commands of what is explained are in the script's own text; none where it is refused.
pub fn commands_of(alloc: Global, explanation: &Explanation) -> Result<Vec<Location>, AllocError> {
    if explanation.script.is_none() {
        return Ok(Vec::new(alloc));
    }
    match locate(alloc, explanation.source) {
        Ok(located) => Ok(located.locations),
        Err(ScriptFault::OutOfMemory) => Err(AllocError),
        Err(_) => Ok(Vec::new(alloc)),
    }
}

/// The script of what is explained, by these names, with the places of its commands.
pub fn shown_of<'a>(
    names: Names<'a>,
    explanation: &'a Explanation<'a>,
    commands: &'a [Location],
    letters: Letters,
) -> Shown<'a> {
    Shown {
        names,
        text: explanation.text,
        positions: &explanation.positions,
        source: explanation.source,
        commands,
        script: explanation.script.as_ref(),
        letters,
    }
}

/// A line around some of its bytes, as it is shown.
#[derive(Drop)]
pub struct LinePart {
    /// What precedes the bytes.
    pub front: String,
    /// The bytes that are meant.
    pub meant: String,
    /// What follows them.
    pub back: String,
}

/// The line in which the position is, around it: whole where that is at most `limit` characters wide, else so much of it, with
/// dots for what is left out. What is meant is of this length, from the position on. The time doesn't depend on the line's length.
pub fn excerpt(
    alloc: Global,
    shown: &Shown,
    position: Position,
    length: usize,
    limit: usize,
) -> Result<LinePart, AllocError> {
    let letters = shown.letters;
    let before = before(shown.text, position);
    let after = text_after(shown.text, position, limit);
    let needed = width(letters, last_part(before, limit));
    let room = limit.saturating_sub(width(letters, after)).max(limit / 2);
    let left = fitting_end(letters, before, room.min(needed));
    let right = fitting_start(letters, after, limit.saturating_sub(width(letters, left)));
    let front = cut_where(left.len() < before.len());
    let back = cut_where(right.len() < after.len());
    let (meant, rest) = right.split_at(letters.start_at_or_after(right, length).min(right.len()));
    let left = line_in(alloc, letters, left)?;
    let rest = line_in(alloc, letters, rest)?;
    Ok(LinePart {
        front: format!(in alloc; "{front}{left}")?,
        meant: line_in(alloc, letters, meant)?,
        back: format!(in alloc; "{rest}{back}")?,
    })
}

/// How many bytes of its first line the finding is about, from its position on.
pub fn length_of(finding: &Finding) -> usize {
    match (finding.position, finding.end) {
        (Some(start), Some(end)) => end.offset.saturating_sub(start.offset),
        _ => 1,
    }
}

/// Dots where something is left out.
fn cut_where(is_cut: bool) -> &'static str {
    if is_cut { CUT } else { "" }
}

/// A command with its addresses, cut to `limit` characters; of one that goes over several lines the line with its verb. Nothing for the
/// script's end.
pub fn command_line(
    alloc: Global,
    shown: &Shown,
    command: u16,
    limit: usize,
) -> Result<String, AllocError> {
    let Some(location) = shown.commands.get(usize::from(command)) else {
        return Ok(String::new(alloc));
    };
    let start = location.start.min(location.verb);
    let whole = shown.source.get(start..location.end).unwrap_or(&[]);
    let last = location.verb.saturating_sub(start).saturating_add(limit);
    let part = whole.get(..last.saturating_add(1)).unwrap_or(whole);
    let bytes = part[..line_len(part)].trim_ascii();
    let part = fitting_start(shown.letters, bytes, limit);
    let line = line_in(alloc, shown.letters, part)?;
    let back = cut_where(part.len() < bytes.len());
    format!(in alloc; "{line}{back}")
}

/// What precedes the position in its line.
fn before(text: &[u8], position: Position) -> &[u8] {
    let start = position
        .offset
        .saturating_sub(position.column.saturating_sub(1));
    text.get(start..position.offset).unwrap_or(&[])
}

/// What follows the position in its line, from the byte there: no more than one byte over the limit.
fn text_after(text: &[u8], position: Position, limit: usize) -> &[u8] {
    let rest = text.get(position.offset..).unwrap_or(&[]);
    let part = rest.get(..limit.saturating_add(1)).unwrap_or(rest);
    &part[..line_len(part)]
}

/// The last bytes, no more than one over the limit.
fn last_part(bytes: &[u8], limit: usize) -> &[u8] {
    let start = bytes.len().saturating_sub(limit.saturating_add(1));
    bytes.get(start..).unwrap_or(bytes)
}

/// The most bytes from the start that are shown in the room, and no part of a character at their end.
fn fitting_start(letters: Letters, bytes: &[u8], room: usize) -> &[u8] {
    let mut used = 0usize;
    for (count, byte) in bytes.iter().enumerate() {
        used = used.saturating_add(width_of(letters, *byte));
        if used > room {
            let end = letters.start_at_or_before(bytes, count);
            return bytes.get(..end).unwrap_or(&[]);
        }
    }
    bytes
}

/// The most bytes before the end that are shown in the room, and no part of a character at their front.
fn fitting_end(letters: Letters, bytes: &[u8], room: usize) -> &[u8] {
    let mut used = 0usize;
    for (count, byte) in bytes.iter().rev().enumerate() {
        used = used.saturating_add(width_of(letters, *byte));
        if used > room {
            let start = letters.start_at_or_after(bytes, bytes.len().saturating_sub(count));
            return bytes.get(start..).unwrap_or(&[]);
        }
    }
    bytes
}

/// How many characters the bytes are shown as, at most.
fn width(letters: Letters, bytes: &[u8]) -> usize {
    let mut sum = 0usize;
    for byte in bytes {
        sum = sum.saturating_add(width_of(letters, *byte));
    }
    sum
}
