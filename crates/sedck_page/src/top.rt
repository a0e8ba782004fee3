//! The top of a page: the answer, and what was found.

use crate::boxes::{is_at_top, push_box};
use crate::markup::push_prose;
use sedck_answer::{Answer, Explanation, Status};
use sedck_formats::{
    Names, Shown, Written, is_listed, level_word, place_words, push_memory, push_steps,
};
use sedck_report::{Finding, Level};
use std::alloc::AllocError;

/// What precedes the findings.
const HEADING: &str = "<h2>Findings</h2>\n";

/// Adds the answer, the limits and the findings: errors and those without a line in full, then a list with links to those that are
/// beside a line.
pub(crate) fn push_top(
    out: &mut Written,
    shown: &Shown,
    explanation: &Explanation,
    least: Level,
) -> Result<(), AllocError> {
    let (class, answer) = answer_words(explanation);
    out.text("<p class=\"answer ").text(class);
    out.text("\">").text(answer).text("</p>\n");
    push_steps(out, "<p>Steps of a run: ", &explanation.answer, ".</p>\n");
    push_memory(out, "<p>Memory of a run: ", &explanation.answer, ".</p>\n");
    push_counts(out, explanation);
    let mut heading = HEADING;
    for (index, finding) in explanation.findings.iter().enumerate() {
        if is_at_top(finding) && is_listed(finding, least) {
            out.text(heading);
            push_box(out, shown, finding, index)?;
            heading = "";
        }
    }
    push_entries(out, shown.names, &explanation.findings, least, heading);
    Ok(())
}

/// The class and the words of the answer.
fn answer_words(explanation: &Explanation) -> (&'static str, &'static str) {
    if matches!(explanation.status, Status::Unknown) {
        return (
            "warning",
            "Accepted under conditions: if they hold, every run of the script ends.",
        );
    }
    if explanation.is_denied() {
        return ("error", "Denied, though every run of the script ends.");
    }
    match &explanation.answer {
        Answer::Accepted { .. } => ("accepted", "Accepted: every run of the script ends."),
        Answer::Rejected { .. } => ("error", "The certificate is rejected."),
        Answer::Endless(_) => ("error", "Loop: a run may never end."),
        Answer::ScriptRefused(_) => ("error", "The script is refused."),
        Answer::CertificateRefused(_) => ("error", "The certificate is refused."),
        Answer::NotJudged => ("error", "The script is not judged."),
    }
}

/// Adds how many commands and files the script has, unless it is refused.
fn push_counts(out: &mut Written, explanation: &Explanation) {
    if explanation.script.is_none() {
        return;
    }
    out.text("<p>Commands: ")
        .grouped(explanation.positions.len() as u64);
    out.text(". <a href=\"#files\">Files</a> that are read: ")
        .grouped(explanation.reads.len() as u64);
    out.text(", and written: ")
        .grouped(explanation.writes.len() as u64);
    out.text(".</p>\n");
}

/// Adds the findings that are beside a line as a list, after this heading.
fn push_entries(
    out: &mut Written,
    names: Names,
    findings: &[Finding],
    least: Level,
    heading: &str,
) {
    let mut is_first = true;
    for (index, finding) in findings.iter().enumerate() {
        if is_listed(finding, least) && !is_at_top(finding) {
            if is_first {
                out.text(heading).text("<ul>\n");
            }
            push_entry(out, names, finding, index);
            is_first = false;
        }
    }
    out.text(if is_first { "" } else { "</ul>\n" });
}

/// Adds a line for the finding with this number, as a link to it.
fn push_entry(out: &mut Written, names: Names, finding: &Finding, number: usize) {
    out.text("<li><a href=\"#F").number(number).text("\">");
    let place = place_words(out.alloc(), names, finding.position);
    out.html_words(place).text(" ");
    out.text(level_word(finding.level)).text("</a>: ");
    push_prose(out, finding.message.as_str());
    out.text("</li>\n");
}
