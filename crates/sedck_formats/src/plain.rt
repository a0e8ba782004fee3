//! The format `sed`: an accepted script in its plain spelling, and of any other a report for people.

ghost use Rattle.std.specs.Prelude.{◌≡◌, IfOk};
ghost use Rattle.sedck_script.specs.Spelling.{Spells};
ghost use Rattle.sedck_plain.specs.WrittenLists.{HaveSameLists};
ghost use Rattle.sedck_formats.specs.Plain.{IsPlainReport, IsPlainStatus};

use crate::names::Names;
use crate::text::text_findings;
use sedck_answer::{Explanation, Status, not_judged};
use sedck_plain::{Comments, Fault, plain_of};
use sedck_report::{Code, Finding, Level, Position};
use sedck_script::Script;
use std::alloc::{AllocError, Global};

/// What is written of a script, and the exit status: of an accepted one its plain spelling, for the output; else a report for people, for
/// standard error: this one, unless the script is accepted and has no plain spelling.
///
/// The status is the explanation's, but `Refused` for an accepted script without a plain spelling.
pub fn plain_report(
    alloc: Global,
    names: Names,
    explanation: &Explanation,
    comments: Comments,
    report: Vec<u8>,
) -> Result<(Vec<u8>, Status), AllocError>
    ensures { IfOk result (λ made. IsPlainReport explanation.now made.0.items made.1) }
{
    match explanation.status {
        Status::Accepted => match &explanation.script {
            Some(script) => spelled(alloc, names, explanation, script, comments),
            None => Ok((report, Status::Accepted)),
        },
        status => Ok((report, status)),
    }
}

/// The script of the explanation in its plain spelling, or that it has none.
fn spelled(
    alloc: Global,
    names: Names,
    explanation: &Explanation,
    script: &Script,
    comments: Comments,
) -> Result<(Vec<u8>, Status), AllocError>
    ensures spelled { IfOk result (λ made. made.1 ≡ Status.Accepted → Spells made.0.items script.now) }
    ensures lists { IfOk result (λ made. made.1 ≡ Status.Accepted → HaveSameLists explanation.now.source.now made.0.items) }
    ensures status { IfOk result (λ made. IsPlainStatus Status.Accepted made.1) }
{
    let why = match plain_of(alloc, explanation.source, script, comments) {
        Ok(text) => return Ok((text, Status::Accepted)),
        Err(Fault::NoSpelling(place)) => Reason {
            position: explanation.positions.get(place).copied(),
            message: "the script is accepted, but this command has no plain spelling",
            hint: "leave one sign that could be a delimiter out of its lists, or out of its replacement",
        },
        Err(Fault::TooLong) => Reason {
            position: None,
            message: "the script is accepted, but its plain spelling would be longer than a script may be",
            hint: "run the script as it is: that one is accepted",
        },
        Err(_) => return Err(AllocError),
    };
    let report = unspelled(alloc, names, explanation, why)?;
    Ok((report, Status::Refused))
}

/// Why an accepted script has no plain spelling.
#[derive(Clone, Copy)]
struct Reason {
    position: Option<Position>,
    message: &'static str,
    hint: &'static str,
}

/// The report on an accepted script that has no plain spelling.
fn unspelled(
    alloc: Global,
    names: Names,
    explanation: &Explanation,
    why: Reason,
) -> Result<Vec<u8>, AllocError> {
    let message = String::from_str(alloc, why.message)?;
    let mut finding = Finding::new(alloc, Level::Error, Code::NoPlainSpelling, message);
    finding.position = why.position;
    finding.hint = Some(why.hint);
    let mut findings = Vec::new(alloc);
    findings.push(finding)?;
    let refused = not_judged(alloc, explanation.text, findings);
    text_findings(alloc, names, &refused, Level::Error, false)
}
