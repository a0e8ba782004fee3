//! An explanation with the positions of its file.

ghost use Rattle.std.specs.Prelude.{◌≡◌};
ghost use Rattle.std.specs.List.{All};
ghost use Rattle.sedck_calls_in_files.specs.Placed.{IsFindingIn, IsSomeIn};
ghost use Rattle.sedck_report.specs.Files.{names_of};
ghost use Rattle.sedck_calls_in_files.specs.Judged.{Agrees};
ghost use Rattle.sedck_calls_in_files.specs.Private.Kinds.{kinds_of};

use crate::places::Places;
use sedck_explanation::{Explanation, Finding, NamedFile, Position, Step};

/// The explanation with the positions of the file; what has none is at the call.
pub(crate) fn placed<'a>(
    file: &'a [u8],
    places: &mut Places,
    explanation: Explanation<'a>,
) -> Explanation<'a>
    requires { places.old.file.now ≡ file.now }
    ensures file { places.new.file ≡ places.old.file }
    ensures agrees { Agrees explanation.entry result }
    ensures status { result.status ≡ explanation.entry.status }
    ensures findings { All (IsFindingIn file.now) result.findings.items }
{
    let mut explanation = explanation;
    explanation.text = file;
    place_all(places, &mut explanation.positions);
    place_files(places, &mut explanation.reads);
    place_files(places, &mut explanation.writes);
    place_findings(places, &mut explanation.findings);
    explanation
}

/// Places the positions.
fn place_all(places: &mut Places, positions: &mut Vec<Position>)
    ensures { places.new.file ≡ places.old.file }
{
    for position in positions.iter_mut() {
        *position = places.place(*position);
    }
}

/// Places the positions of the files' names.
fn place_files(places: &mut Places, files: &mut Vec<NamedFile>)
    ensures file { places.new.file ≡ places.old.file }
    ensures names { names_of files.new.items ≡ names_of files.old.items }
{
    for file in files.iter_mut() {
        place_all(places, &mut file.positions);
    }
}

/// Places the findings.
pub(crate) fn place_findings(places: &mut Places, findings: &mut Vec<Finding>)
    ensures file { places.new.file ≡ places.old.file }
    ensures findings { All (IsFindingIn places.old.file.now) findings.new.items }
    ensures kinds { kinds_of findings.new.items ≡ kinds_of findings.old.items }
{
    for finding in findings.iter_mut() {
        place_finding(places, finding);
    }
}

/// Places the finding and its steps. A change of the script's text needn't be one of the file's, which quotes it.
fn place_finding(places: &mut Places, finding: &mut Finding)
    ensures file { places.new.file ≡ places.old.file }
    ensures finding { IsFindingIn places.old.file.now finding.new }
    ensures level { finding.new.level ≡ finding.old.level }
    ensures code { finding.new.code ≡ finding.old.code }
{
    finding.end = match (finding.position, finding.end) {
        (Some(start), Some(end)) => Some(places.end(start, end)),
        _ => None,
    };
    finding.position = match finding.position {
        Some(position) => Some(places.place(position)),
        None => Some(places.call()),
    };
    finding.fix = None;
    place_steps(places, &mut finding.steps);
}

/// Places the steps.
fn place_steps(places: &mut Places, steps: &mut Vec<Step>)
    ensures file { places.new.file ≡ places.old.file }
    ensures steps { All (λ step. IsSomeIn places.old.file.now step.position) steps.new.items }
{
    for step in steps.iter_mut() {
        place_step(places, step);
    }
}

/// Places the step.
fn place_step(places: &mut Places, step: &mut Step)
    ensures file { places.new.file ≡ places.old.file }
    ensures step { IsSomeIn places.old.file.now step.new.position }
{
    step.position = match step.position {
        Some(position) => Some(places.place(position)),
        None => None,
    };
}
