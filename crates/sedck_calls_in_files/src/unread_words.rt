//! What is said of words for a sed of which the reader of shell text says nothing.

ghost use Rattle.std.specs.Prelude.{◌≡◌};
ghost use Rattle.sedck_report.specs.Positions.{position_in};

use crate::answers::{path_report, write_report};
use crate::file::call_position;
use crate::request::FileScan;
use sedck_cert::streams::Sink;
use sedck_explanation::{
    Code, Explanation, Level, Position, Status, Unexplained, call_finding, not_judged, position_at,
};
use std::alloc::{AllocError, Global};

/// The most further lines that are named.
const NAMED: usize = 10;

/// What may be done about such words.
const HINT: &str = "if it runs, write the call where it can be read, or explain the text that runs";

/// Whether the place is one of these words, which are in the file's order.
pub(crate) fn is_word(words: &[usize], place: usize) -> bool {
    words.binary_search(&place).is_ok()
}

/// Writes one report for all of these words of the file, at the first of them.
pub(crate) fn report_words<W: Sink>(
    asked: &FileScan,
    words: &[usize],
    out: &mut W,
) -> Result<(), Unexplained> {
    let Some(first) = words.first() else {
        return Ok(());
    };
    let text = asked.file.text;
    let explanation = explain_words(asked.alloc, text, position_at(text, *first), words)?;
    let report = path_report(asked.alloc, asked.scan, asked.file.path, &explanation, true);
    write_report(out, report)
}

/// The explanation of these words, of which the file has the first one at this position.
fn explain_words<'a>(
    alloc: Global,
    text: &'a [u8],
    first: Position,
    words: &[usize],
) -> Result<Explanation<'a>, AllocError>
    requires { first ≡ position_in text.now first.offset }
{
    let message = message_of(alloc, &further_lines(alloc, text, first, words)?)?;
    let code = Code::NotUnderstood;
    let mut finding = call_finding(alloc, Level::Warning, code, message, Some(HINT));
    finding.position = Some(first);
    let mut findings = Vec::new(alloc);
    findings.push(finding)?;
    let mut explanation = not_judged(alloc, text, findings);
    explanation.status = Status::Unknown;
    Ok(explanation)
}

/// The lines of the words after that of the first one, each once.
fn further_lines(
    alloc: Global,
    text: &[u8],
    first: Position,
    words: &[usize],
) -> Result<Vec<usize>, AllocError>
    requires { first ≡ position_in text.now first.offset }
{
    let mut lines = Vec::new(alloc);
    let mut position = first;
    for offset in words {
        let next = call_position(text, position, *offset);
        if next.line > position.line {
            lines.push(next.line)?;
        }
        position = next;
    }
    Ok(lines)
}

/// What is said of a word, and of those on further lines.
fn message_of(alloc: Global, lines: &[usize]) -> Result<String, AllocError> {
    let mut message = String::from_str(
        alloc,
        "this word for a sed isn't read as a call, and what it may run isn't judged",
    )?;
    let named = lines.get(..NAMED).unwrap_or(lines);
    for (number, line) in named.iter().enumerate() {
        let before = match number {
            0 => "; so it is on line",
            _ => ",",
        };
        let part = format!(in alloc; "{before} {line}")?;
        message.push_str(part.as_str())?;
    }
    if lines.len() > NAMED {
        let more = lines.len() - NAMED;
        let part = format!(in alloc; ", and on {more} more")?;
        message.push_str(part.as_str())?;
    }
    Ok(message)
}
