//! One line for each finding, as compilers print them, for editors and continuous integration.

use crate::letters::Letters;
use crate::lines::{Shown, command_line, commands_of, shown_of};
use crate::listed::{is_listed, listed_steps};
use crate::names::Names;
use crate::words::{prefix, push_headline, push_left_out};
use crate::written::Written;
use sedck_answer::Explanation;
use sedck_report::{Finding, Level, Step};
use std::alloc::{AllocError, Global};

/// The most characters of a line that are shown in a note.
const NOTE_WIDTH: usize = 40;

/// `FILE:LINE:COLUMN: LEVEL: MESSAGE [code]` for each finding of at least this level, and a `note` for each of its steps and for its
/// hint. A finding without a position has none. Nothing is printed where nothing was found.
pub fn gcc_report(
    alloc: Global,
    names: Names,
    explanation: &Explanation,
    least: Level,
) -> Result<Vec<u8>, AllocError> {
    let mut out = Written::new(alloc);
    let commands = commands_of(alloc, explanation)?;
    let shown = shown_of(names, explanation, &commands, Letters::Ascii);
    for finding in &explanation.findings {
        if is_listed(finding, least) {
            let place = prefix(alloc, names, finding.position)?;
            push_finding(&mut out, &shown, place.as_str(), finding)?;
        }
    }
    out.finished()
}

/// Adds the finding with its steps and its hint.
fn push_finding(
    out: &mut Written,
    shown: &Shown,
    place: &str,
    finding: &Finding,
) -> Result<(), AllocError> {
    push_headline(out, place, "", finding);
    let stretches = listed_steps(out.alloc(), shown.script, &finding.steps)?;
    for stretch in &stretches {
        if stretch.left_out > 0 {
            out.text(place).text("note: ");
            push_left_out(out, stretch.left_out);
            out.text("\n");
        }
        push_steps(out, shown, stretch.steps);
    }
    if let Some(hint) = finding.hint {
        out.text(place).text("note: hint: ").text(hint).text("\n");
    }
    Ok(())
}

/// Adds a note for each step: the line of its command between backquotes, or the script's end, and what it does.
fn push_steps(out: &mut Written, shown: &Shown, steps: &[Step]) {
    for step in steps {
        out.words(prefix(out.alloc(), shown.names, step.position));
        out.text("note: ");
        if step.position.is_some() {
            let line = command_line(out.alloc(), shown, step.node.at, NOTE_WIDTH);
            out.text("`").words(line).text("`");
        } else {
            out.text("the script's end");
        }
        out.text(" ").text(step.message.as_str()).text("\n");
    }
}
