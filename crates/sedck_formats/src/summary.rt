//! The answer, and what the script may do: its limits on steps and on memory, and its files.

use crate::answers::answer_word;
use crate::names::Names;
use crate::words::{GREEN, RED, YELLOW, ink_where, place_words, push_inked};
use crate::written::Written;
use sedck_answer::{Answer, Explanation, Status};
use sedck_cert::Bound;
use sedck_report::{NamedFile, Position, shown_name};

/// The most positions of one file that are listed.
const POSITIONS: usize = 8;

/// Adds the answer, the limits and the files. Of what is refused it adds nothing, and of what isn't judged no files.
pub(crate) fn push_summary(
    out: &mut Written,
    names: Names,
    explanation: &Explanation,
    colour: bool,
) {
    let (ink, rest) = match &explanation.answer {
        Answer::Accepted { .. } if matches!(explanation.status, Status::Unknown) => {
            (YELLOW, ": every run ends if the conditions hold\n")
        }
        Answer::Accepted { .. } if explanation.is_denied() => ("", ", though every run ends\n"),
        Answer::Accepted { .. } => (GREEN, ": every run ends\n"),
        Answer::Rejected { .. } => (RED, ": the certificate doesn't fit the script\n"),
        Answer::Endless(_) => (RED, ": a run may never end\n"),
        Answer::NotJudged => {
            out.text(names.whole()).text(": not judged\n");
            return;
        }
        Answer::ScriptRefused(_) | Answer::CertificateRefused(_) => return,
    };
    out.text(names.whole()).text(": ");
    push_inked(out, ink_where(colour, ink), answer_word(explanation));
    out.text(rest);
    push_steps(out, "  steps: ", &explanation.answer, "\n");
    push_memory(out, "  memory: ", &explanation.answer, "\n");
    push_files(out, names, "  reads: ", &explanation.reads);
    push_files(out, names, "  writes: ", &explanation.writes);
}

/// Adds the limit on steps of an accepted script between these words, with an example, or that none is known. It is the one by lines alone
/// where that is known, since it is never more than the other one.
pub fn push_steps(out: &mut Written, before: &str, answer: &Answer, after: &str) {
    let Answer::Accepted { limits, .. } = answer else {
        return;
    };
    out.text(before);
    if let Some(bound) = limits.by_lines.or(limits.steps) {
        push_bound(out, bound);
    } else {
        out.text("no limit is known");
    }
    out.text(after);
}

/// Adds a limit on steps with an example.
fn push_bound(out: &mut Written, bound: Bound) {
    out.text("at most ");
    if bound.per_byte > 0 {
        out.grouped(bound.per_byte).text(" a byte, plus ");
    }
    out.grouped(bound.per_line).text(" a line, plus ");
    out.grouped(bound.fixed);
    if let Some(steps) = example_steps(bound) {
        out.text("; for 1,000 lines of 80 bytes at most ")
            .grouped(steps);
    }
}

/// Adds the limit on the spaces of an accepted script between these words, or that none is known.
pub fn push_memory(out: &mut Written, before: &str, answer: &Answer, after: &str) {
    let Answer::Accepted { limits, .. } = answer else {
        return;
    };
    out.text(before);
    if limits.is_growing() {
        out.text("no limit is known");
    } else {
        out.text("each space at most as long as the input");
    }
    out.text(after);
}

/// The limit for 1,000 lines of 80 bytes, where it is below 2^64.
fn example_steps(bound: Bound) -> Option<u64> {
    bound
        .per_byte
        .checked_mul(80_000)?
        .checked_add(bound.per_line.checked_mul(1_000)?)?
        .checked_add(bound.fixed)
}

/// Adds a line for each file, or one that says there is none.
fn push_files(out: &mut Written, names: Names, what: &str, files: &[NamedFile]) {
    if files.is_empty() {
        out.text(what).text("no file\n");
    }
    for file in files {
        let name = shown_name(out.alloc(), file.name);
        out.text(what).text("\"").words(name).text("\" (");
        push_positions(out, names, &file.positions);
        out.text(")\n");
    }
}

/// Adds the first positions, and how many more there are.
fn push_positions(out: &mut Written, names: Names, positions: &[Position]) {
    let listed = positions.get(..POSITIONS).unwrap_or(positions);
    let mut between = "";
    for position in listed {
        let place = place_words(out.alloc(), names, Some(*position));
        out.text(between).words(place);
        between = ", ";
    }
    let more = positions.len().saturating_sub(POSITIONS);
    if more > 0 {
        out.text(" and ").number(more).text(" more");
    }
}
