//! The report for people at a terminal: each finding with its line, and what an accepted script may do.

use crate::letters::Letters;
use crate::lines::{Shown, command_line, commands_of, excerpt, length_of, shown_of};
use crate::listed::{is_listed, listed_steps};
use crate::names::Names;
use crate::pages::{page_of, page_words};
use crate::summary::push_summary;
use crate::words::{
    CYAN, PLAIN, RED, YELLOW, ink_where, place_words, prefix, push_headline, push_inked,
    push_left_out,
};
use crate::written::Written;
use sedck_answer::Explanation;
use sedck_report::{Finding, Level, Page, Position, Step};
use std::alloc::{AllocError, Global};

/// The most characters of a line that are shown above a caret.
const LINE_WIDTH: usize = 160;

/// The most characters of a line that are shown beside a step.
const STEP_WIDTH: usize = 40;

/// Each finding of at least this level with its line, carets under what is meant, its steps, its hint and its page; then the
/// answer with the limit on steps and the files, but for what is refused or not judged. `colour` adds the colours of ANSI terminals.
pub fn text_report(
    alloc: Global,
    names: Names,
    explanation: &Explanation,
    least: Level,
    colour: bool,
) -> Result<Vec<u8>, AllocError> {
    let mut out = Written::new(alloc);
    push_findings(&mut out, names, explanation, least, colour)?;
    push_summary(&mut out, names, explanation, colour);
    out.finished()
}

/// Each finding of at least this level with its line, carets under what is meant, its steps, its hint and its page.
pub fn text_findings(
    alloc: Global,
    names: Names,
    explanation: &Explanation,
    least: Level,
    colour: bool,
) -> Result<Vec<u8>, AllocError> {
    let mut out = Written::new(alloc);
    push_findings(&mut out, names, explanation, least, colour)?;
    out.finished()
}

/// Adds the findings of at least this level.
fn push_findings(
    out: &mut Written,
    names: Names,
    explanation: &Explanation,
    least: Level,
    colour: bool,
) -> Result<(), AllocError> {
    let commands = commands_of(out.alloc(), explanation)?;
    let shown = shown_of(names, explanation, &commands, Letters::Ascii);
    let mut pages: Vec<Page> = Vec::new(out.alloc());
    for finding in &explanation.findings {
        if is_listed(finding, least) {
            let gutter = push_finding(out, &shown, finding, colour)?;
            let page = page_of(finding);
            if !matches!(finding.level, Level::Note) && !pages.contains(&page) {
                pages.push(page)?;
                let page = page_words(out.alloc(), page)?;
                let see = format!(in out.alloc(); "docs/{page}")?;
                push_remark(out, gutter, "see", see.as_str(), colour);
            }
        }
    }
    Ok(())
}

/// Adds a finding; how wide the column of line numbers is.
fn push_finding(
    out: &mut Written,
    shown: &Shown,
    finding: &Finding,
    colour: bool,
) -> Result<usize, AllocError> {
    let ink = match finding.level {
        Level::Error => ink_where(colour, RED),
        Level::Warning => ink_where(colour, YELLOW),
        Level::Note => ink_where(colour, CYAN),
    };
    let place = prefix(out.alloc(), shown.names, finding.position)?;
    push_headline(out, place.as_str(), ink, finding);
    let gutter = match finding.position {
        Some(position) => push_line(out, shown, position, length_of(finding), ink)?,
        None => 4,
    };
    let rows = rows_of(out.alloc(), shown, &finding.steps)?;
    push_rows(out, &rows, gutter);
    if let Some(hint) = finding.hint {
        push_remark(out, gutter, "hint", hint, colour);
    }
    Ok(gutter)
}

/// Adds a remark on a finding: what it is, and its words.
fn push_remark(out: &mut Written, gutter: usize, what: &str, words: &str, colour: bool) {
    out.spaces(gutter).text(" = ");
    push_inked(out, ink_where(colour, CYAN), what);
    out.text(": ").text(words).text("\n");
}

/// Adds the line in which the position is, after its number, and carets under what is meant; how wide the number's column is.
fn push_line(
    out: &mut Written,
    shown: &Shown,
    position: Position,
    length: usize,
    ink: &str,
) -> Result<usize, AllocError> {
    let line = shown.names.place_of(position).line;
    let number = format!(in out.alloc(); "{line}")?;
    let gutter = number.len().saturating_add(2).max(4);
    let part = excerpt(out.alloc(), shown, position, length, LINE_WIDTH)?;
    push_aligned(out, number.as_str(), gutter);
    out.text(" | ").text(part.front.as_str());
    out.text(part.meant.as_str()).text(part.back.as_str());
    out.text("\n").spaces(gutter).text(" | ");
    out.spaces(width_of(part.front.as_str()));
    push_carets(out, ink, width_of(part.meant.as_str()));
    out.text("\n");
    Ok(gutter)
}

/// Adds so many carets, and at least one.
fn push_carets(out: &mut Written, ink: &str, width: usize) {
    out.text(ink);
    for _ in 0..width.max(1) {
        out.byte(b'^');
    }
    out.text(if ink.is_empty() { "" } else { PLAIN });
}

/// A step as it is printed.
#[derive(Drop)]
struct Row<'a> {
    /// How many steps before it aren't listed.
    left_out: usize,
    place: String,
    source: String,
    message: &'a str,
}

/// The steps that are listed, as they are printed.
fn rows_of<'a>(
    alloc: Global,
    shown: &Shown,
    steps: &'a [Step],
) -> Result<Vec<Row<'a>>, AllocError> {
    let stretches = listed_steps(alloc, shown.script, steps)?;
    let mut rows = Vec::new(alloc);
    for stretch in &stretches {
        let mut left_out = stretch.left_out;
        for step in stretch.steps {
            rows.push(Row {
                left_out,
                place: place_words(alloc, shown.names, step.position)?,
                source: command_line(alloc, shown, step.node.at, STEP_WIDTH)?,
                message: step.message.as_str(),
            })?;
            left_out = 0;
        }
    }
    Ok(rows)
}

/// Adds the rows of steps in columns, and how many steps are left out.
fn push_rows(out: &mut Written, rows: &[Row], gutter: usize) {
    let before = gutter.saturating_add(3);
    let (place, source) = widths(rows);
    for row in rows {
        if row.left_out > 0 {
            out.spaces(before).text("... ");
            push_left_out(out, row.left_out);
            out.text("\n");
        }
        out.spaces(before);
        push_aligned(out, row.place.as_str(), place);
        out.text("  ").text(row.source.as_str());
        out.spaces(source.saturating_sub(row.source.len()))
            .text("  ")
            .text(row.message)
            .text("\n");
    }
}

/// How wide the places and the lines are.
fn widths(rows: &[Row]) -> (usize, usize) {
    let mut place = 0;
    let mut source = 0;
    for row in rows {
        place = width_of(row.place.as_str()).max(place);
        source = row.source.len().max(source);
    }
    (place, source)
}

/// Adds spaces up to the width, and the words.
fn push_aligned(out: &mut Written, words: &str, width: usize) {
    out.spaces(width.saturating_sub(width_of(words)))
        .text(words);
}

/// How many characters the words have.
fn width_of(words: &str) -> usize {
    words.chars().count()
}
