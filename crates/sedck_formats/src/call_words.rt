//! A call of sed in a file, in words.

use crate::answers::CallAnswer;
use crate::words::{GREEN, RED, YELLOW, ink_where, push_inked};
use crate::written::Written;
use sedck_answer::Explanation;
use sedck_report::{NamedFile, Position, shown_name};
use std::alloc::{AllocError, Global};

/// A call of sed in a file.
#[derive(Drop)]
pub struct CallAt<'a> {
    /// The file's path.
    pub file: &'a str,
    /// Where the command's name is in the file.
    pub position: Position,
    /// The words after the name, as they can be shown.
    pub words: Vec<String>,
}

/// A line with the answer and the files: `FILE:LINE:COLUMN: accepted, no file`.
pub fn text_answer(
    alloc: Global,
    call: &CallAt,
    explanation: &Explanation,
    colour: bool,
) -> Result<Vec<u8>, AllocError> {
    let mut out = Written::new(alloc);
    let Position { line, column, .. } = call.position;
    out.text(call.file).text(":").number(line);
    out.text(":").number(column).text(": ");
    let answer = CallAnswer::of(explanation);
    let ink = match answer {
        CallAnswer::Accepted => GREEN,
        CallAnswer::AcceptedIf | CallAnswer::Unknown => YELLOW,
        _ => RED,
    };
    push_inked(&mut out, ink_where(colour, ink), answer.word());
    if explanation.script.is_some() {
        push_files(&mut out, explanation);
    }
    out.text("\n");
    out.finished()
}

/// Adds which files the script reads and writes.
fn push_files(out: &mut Written, explanation: &Explanation) {
    if explanation.reads.is_empty() && explanation.writes.is_empty() {
        out.text(", no file");
    }
    push_names(out, ", reads ", &explanation.reads);
    push_names(out, ", writes ", &explanation.writes);
}

/// Adds the names, each in quotes, after these words.
fn push_names(out: &mut Written, what: &str, files: &[NamedFile]) {
    let mut before = what;
    for file in files {
        let name = shown_name(out.alloc(), file.name);
        out.text(before).text("\"").words(name).text("\"");
        before = " ";
    }
}
