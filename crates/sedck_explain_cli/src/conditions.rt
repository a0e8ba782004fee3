//! What is said under the condition that sed takes a delimiter in a list for a part of it.

ghost use Rattle.std.specs.Prelude.{◌≡◌};

use sedck_explanation::{
    Code, Explanation, Finding, Fix, Level, NamedFile, NewText, Position, Step, call_finding,
    shown_name,
};
use sedck_parts::{Mend, delimited};
use sedck_report::positions;
use std::alloc::{AllocError, Global};

/// The most bytes of a command that are shown as it was given.
const SHOWN: usize = 40;

/// How a command does without its delimiter in a list.
const DELIMITER: &str = "write another delimiter, which the command doesn't have";

/// A warning for each of these commands of the text: the condition, and the fix that does without it.
pub(crate) fn warnings_of(
    alloc: Global,
    text: &[u8],
    mends: &[Mend],
) -> Result<Vec<Finding>, AllocError> {
    let mut firsts = Vec::new(alloc);
    let mut ends = Vec::new(alloc);
    for mend in mends {
        firsts.push(mend.first)?;
        ends.push(mend.last.saturating_add(1))?;
    }
    let starts = positions(alloc, text, &firsts)?;
    let ends = positions(alloc, text, &ends)?;
    let mut warnings = Vec::new(alloc);
    for (mend, (start, end)) in mends.iter().zip(starts.iter().zip(ends.iter())) {
        warnings.push(warning_of(alloc, text, *mend, (*start, *end))?)?;
    }
    Ok(warnings)
}

/// The warning for one of them, which begins with its first delimiter and ends after its last one.
fn warning_of(
    alloc: Global,
    text: &[u8],
    mend: Mend,
    (start, end): (Position, Position),
) -> Result<Finding, AllocError> {
    let part = text.get(start.offset..end.offset).unwrap_or(&[]);
    let message = condition(alloc, part, mend)?;
    let hint = Some(DELIMITER);
    let mut finding = call_finding(alloc, Level::Warning, Code::OpenHole, message, hint);
    finding.position = Some(start);
    finding.end = Some(end);
    finding.fix = part.is_ascii().then_some(Fix {
        start,
        end,
        text: NewText::Delimited {
            other: mend.other,
            is_bare: mend.is_bare,
        },
    });
    Ok(finding)
}

/// On what the answer depends, in words, with the command as all seds read it alike.
fn condition(alloc: Global, part: &[u8], mend: Mend) -> Result<String, AllocError> {
    let mut message = String::from_str(alloc, "\"")?;
    let shown = shown_name(alloc, part.get(..SHOWN).unwrap_or(part))?;
    message.push_str(shown.as_str())?;
    if part.len() > SHOWN {
        message.push_str("...")?;
    }
    message.push_str(
        "\" has its delimiter in a list: the answer holds if sed takes it for a part of the list, as GNU sed, BusyBox and toybox do; for all seds write \"",
    )?;
    let mended = delimited(alloc, part, mend.other, mend.is_bare)?;
    let mended = shown_name(alloc, &mended)?;
    message.push_str(mended.as_str())?;
    message.push_str("\"")?;
    Ok(message)
}

/// The explanation of a mended script with the positions of the text that was given, where these are the places of the script's bytes.
pub(crate) fn placed<'a>(
    text: &'a [u8],
    places: &[Position],
    explanation: Explanation<'a>,
) -> Explanation<'a>
    ensures status { result.status ≡ explanation.entry.status }
    ensures script { result.script ≡ explanation.entry.script }
    ensures source { result.source.now ≡ explanation.entry.source.now }
{
    let mut explanation = explanation;
    explanation.text = text;
    place_all(places, &mut explanation.positions);
    place_files(places, &mut explanation.reads);
    place_files(places, &mut explanation.writes);
    place_findings(places, &mut explanation.findings);
    explanation
}

/// Places the positions.
fn place_all(places: &[Position], positions: &mut Vec<Position>) {
    for position in positions.iter_mut() {
        *position = place(places, *position);
    }
}

/// Places the positions of the files' names.
fn place_files(places: &[Position], files: &mut Vec<NamedFile>) {
    for file in files.iter_mut() {
        place_all(places, &mut file.positions);
    }
}

/// Places the findings. A change of the mended script's text needn't be one of the text that was given.
fn place_findings(places: &[Position], findings: &mut Vec<Finding>) {
    for finding in findings.iter_mut() {
        finding.end = match (finding.position, finding.end) {
            (Some(start), Some(end)) => Some(place_end(places, start, end)),
            _ => None,
        };
        finding.position = place_some(places, finding.position);
        finding.fix = None;
        place_steps(places, &mut finding.steps);
    }
}

/// Places the steps.
fn place_steps(places: &[Position], steps: &mut Vec<Step>) {
    for step in steps.iter_mut() {
        step.position = place_some(places, step.position);
    }
}

/// The place of the position, if there is one.
fn place_some(places: &[Position], position: Option<Position>) -> Option<Position> {
    match position {
        Some(position) => Some(place(places, position)),
        None => None,
    }
}

/// The place of the byte at the position.
fn place(places: &[Position], position: Position) -> Position {
    match places.get(position.offset) {
        Some(place) => *place,
        None => position,
    }
}

/// The end of the part from the one position to before the other one, which are in one line.
fn place_end(places: &[Position], start: Position, end: Position) -> Position {
    if end.offset <= start.offset {
        return place(places, start);
    }
    match places.get(end.offset.saturating_sub(1)) {
        Some(last) => Position {
            offset: last.offset.saturating_add(1),
            line: last.line,
            column: last.column.saturating_add(1),
        },
        None => end,
    }
}
