//! Words that several formats share, and their colours.

use crate::letters::is_hidden;
use crate::names::{Names, Place};
use crate::written::Written;
use sedck_report::{Finding, Level, Position};
use std::alloc::{AllocError, Global};

/// The version of the program and of its formats.
pub const VERSION: &str = "1.1.0";

/// The word for a level.
pub fn level_word(level: Level) -> &'static str {
    match level {
        Level::Error => "error",
        Level::Warning => "warning",
        Level::Note => "note",
    }
}

/// `LINE:COLUMN`, or `end` for the script's end. Where the script has several parts, the part's name precedes it.
pub fn place_words(
    alloc: Global,
    names: Names,
    position: Option<Position>,
) -> Result<String, AllocError> {
    let Some(position) = position else {
        return String::from_str(alloc, "end");
    };
    let Place { name, line, column } = names.place_of(position);
    if names.part_count() > 1 {
        return format!(in alloc; "{name}:{line}:{column}");
    }
    format!(in alloc; "{line}:{column}")
}

/// `FILE:LINE:COLUMN: ` with the name of the part, or `FILE: ` without a position.
pub(crate) fn prefix(
    alloc: Global,
    names: Names,
    position: Option<Position>,
) -> Result<String, AllocError> {
    let Some(position) = position else {
        let name = names.whole();
        return format!(in alloc; "{name}: ");
    };
    let Place { name, line, column } = names.place_of(position);
    format!(in alloc; "{name}:{line}:{column}: ")
}

/// Adds the place, and `LEVEL: MESSAGE [code]` with the level in the colour.
pub(crate) fn push_headline(out: &mut Written, place: &str, ink: &str, finding: &Finding) {
    out.text(place);
    push_inked(out, ink, level_word(finding.level));
    out.text(": ").text(finding.message.as_str());
    out.text(" [").text(finding.code.name()).text("]\n");
}

/// Colours of a terminal.
pub(crate) const RED: &str = "\x1b[1;31m";

pub(crate) const GREEN: &str = "\x1b[1;32m";

pub(crate) const YELLOW: &str = "\x1b[1;33m";

pub(crate) const CYAN: &str = "\x1b[1;36m";

/// What ends a colour.
pub(crate) const PLAIN: &str = "\x1b[0m";

/// The colour where colours are wanted, and nothing where not.
pub(crate) fn ink_where(colour: bool, ink: &'static str) -> &'static str {
    if colour { ink } else { "" }
}

/// Adds the words in this colour, or without one where it is nothing.
pub(crate) fn push_inked(out: &mut Written, ink: &str, words: &str) {
    let plain = if ink.is_empty() { "" } else { PLAIN };
    out.text(ink).text(words).text(plain);
}

/// Adds how many steps aren't listed.
pub fn push_left_out(out: &mut Written, left_out: usize) {
    out.counted(left_out, " step left out", " steps left out");
}

/// A path as it is shown. Behind `./` where it begins with a colon, perhaps after blanks: lines of reports begin with it, and hosts of code
/// take a line that begins with `::` for a command.
pub fn shown_path(alloc: Global, path: &str) -> Result<String, AllocError> {
    let mut shown = String::new(alloc);
    if path.trim_start().starts_with(':') {
        shown.push_str("./")?;
    }
    for letter in path.chars() {
        shown.push(shown_letter(letter))?;
    }
    Ok(shown)
}

/// `?` for a character that isn't seen, or could move a terminal's cursor, end a line, or turn or hide what is around it; any other as it is.
pub fn shown_letter(letter: char) -> char {
    if is_hidden(letter) { '?' } else { letter }
}
