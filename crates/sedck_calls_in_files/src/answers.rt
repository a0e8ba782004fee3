//! The reports of calls, one after another.

use crate::request::{FileScan, Look, Scan};
use sedck_cert::streams::{Sink, write_all};
use sedck_explanation::{Explanation, Level, Position, Unexplained, shown_name};
use sedck_formats::{
    CallAt, Names, gcc_report, json_call, json_place, json_report, shown_path, text_answer,
    text_findings, text_report as text_report_of,
};
use sedck_found::FoundCall;
use std::alloc::{AllocError, Global};

/// The report on a call of the file.
pub(crate) fn call_report(
    asked: &FileScan,
    position: Position,
    found: &FoundCall,
    explanation: &Explanation,
) -> Result<Vec<u8>, AllocError> {
    let (alloc, least) = (asked.alloc, asked.scan.least);
    match asked.scan.look {
        Look::Json => {
            let call = CallAt {
                file: asked.file.path,
                position,
                words: shown_words(alloc, found)?,
            };
            json_call(alloc, call, explanation, least)
        }
        Look::Gcc => {
            let shown = shown_path(alloc, asked.file.path)?;
            gcc_report(alloc, Names::of_file(shown.as_str()), explanation, least)
        }
        Look::Text { colour } => text_report(asked, colour, position, explanation),
    }
}

/// The report on a place of the file at the path that isn't understood, or on a script below a folder.
pub(crate) fn path_report(
    alloc: Global,
    scan: &Scan,
    path: &str,
    explanation: &Explanation,
    is_place: bool,
) -> Result<Vec<u8>, AllocError> {
    let shown = shown_path(alloc, path)?;
    let names = Names::of_file(shown.as_str());
    let least = scan.least;
    match scan.look {
        Look::Json if is_place => json_place(alloc, path, explanation, least),
        Look::Json => json_report(alloc, Names::of_file(path), explanation, least),
        Look::Gcc => gcc_report(alloc, names, explanation, least),
        Look::Text { colour } if is_place => {
            text_findings(alloc, names, explanation, least, colour)
        }
        Look::Text { colour } => text_report_of(alloc, names, explanation, least, colour),
    }
}

/// The report for people: the findings, and a line with the answer where notes are reported, or where it isn't a plain yes.
fn text_report(
    asked: &FileScan,
    colour: bool,
    position: Position,
    explanation: &Explanation,
) -> Result<Vec<u8>, AllocError> {
    let (alloc, least) = (asked.alloc, asked.scan.least);
    let shown = shown_path(alloc, asked.file.path)?;
    let path = shown.as_str();
    let mut report = text_findings(alloc, Names::of_file(path), explanation, least, colour)?;
    if least != Level::Note && explanation.status.is_accepted() {
        return Ok(report);
    }
    let call = CallAt {
        file: path,
        position,
        words: Vec::new(alloc),
    };
    let answer = text_answer(alloc, &call, explanation, colour)?;
    report.extend_from_slice(&answer)?;
    Ok(report)
}

/// Writes the report.
pub(crate) fn write_report<W: Sink>(
    out: &mut W,
    report: Result<Vec<u8>, AllocError>,
) -> Result<(), Unexplained> {
    Ok(write_all(out, &report?)?)
}

/// The words of the call as they can be shown.
fn shown_words(alloc: Global, found: &FoundCall) -> Result<Vec<String>, AllocError> {
    let mut words = Vec::new(alloc);
    for word in &found.words {
        words.push(shown_name(alloc, &word.bytes)?)?;
    }
    Ok(words)
}
