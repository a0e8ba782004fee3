//! What is said of a call of sed that was found in a file.

ghost use Rattle.std.specs.Prelude.{◌≡◌, ◌≤◌, true, length, IfOk};
ghost use Rattle.std.specs.List.{All};
ghost use Rattle.sedck_report.specs.Positions.{position_in};
ghost use Rattle.sedck_calls_in_files.specs.Placed.{IsFindingIn};
ghost use Rattle.sedck_calls_in_files.specs.Private.Kinds.{IsWarningIn};
ghost use Rattle.sedck_calls_in_files.specs.Judged.{Agrees, IsUnjudged, status_with, words_of, IsSaidOf, IsSaidOfText, IsSaidOfCall, IsSaidOfFound, IsJudged, IsAcceptedFound, denied_of, is_open as is_open_script, is_set_in as is_set_in_call};
ghost use Rattle.sedck_calls_in_files.specs.Scanned.{asked_of};

use crate::holes::{
    open_warnings, overwriting_warning, unknown_warning, unread_warning, value_notes, written_words,
};
use crate::placed::{place_findings, placed};
use crate::places::Places;
use crate::request::Scan;
use crate::tracing::{bytes_of, is_in_file, slices_of};
use crate::values::is_set_in;
use sedck_call::{Call, CallFault, call_of};
use sedck_explanation::{
    Denied, Explanation, Finding, Position, Status, explain_called, foreign_findings, has_foreign,
    not_judged, refusal_of,
};
use sedck_found::{Assumed, FoundCall, FoundScript, OpenHole, Unknown};
use sedck_origin::{Traced, has_hole};
use std::alloc::{AllocError, Global};

/// Explains a call that was found in the file, which has it at this position. The explanation's positions are those of the file.
///
/// It is accepted only where the words and the script are in the file, nothing of the script is unknown, no variable is replaced by a value
/// that the file sets, nothing must hold so that the words are as they are read, and the script is accepted; `Unknown` where something
/// is unknown before a run, and nothing worse is found; else its status is that of a call that is given by its words.
pub fn explain_found<'a>(
    alloc: Global,
    file: &'a [u8],
    position: Position,
    found: &'a FoundCall,
    scan: &Scan,
) -> Result<Explanation<'a>, AllocError>
    requires { position ≡ position_in file.now position.offset }
    ensures said { IfOk result (IsSaidOfFound file.now (asked_of scan.now) found.now) }
    ensures places { IfOk result (λ e. All (IsFindingIn file.now) e.findings.items) }
    ensures yes { IfOk result (λ e. e.status ≡ Status.Accepted → IsAcceptedFound file.now (asked_of scan.now) found.now) }
{
    let written = written_words(alloc, file, &found.words)?;
    let shown = slices_of(alloc, &written)?;
    let given = Given {
        alloc,
        file,
        position,
        words: &found.words,
        shown: &shown,
        denied: with_locale(scan.denied, found),
    };
    let explanation = explain_found_script(&given, &found.script)?;
    with_values(&given, explanation, found, scan.assumed.variables)
}

/// A call in a file.
#[derive(Drop)]
struct Given<'a, 'b> {
    alloc: Global,
    file: &'a [u8],
    /// Where the file has it.
    position: Position,
    words: &'b [Traced],
    /// The words as they are shown.
    shown: &'b [&'b [u8]],
    denied: Denied,
}

/// What is denied, with the locale as far as the words before the call's name set it.
fn with_locale(denied: Denied, found: &FoundCall) -> Denied
    ensures { result ≡ denied_of found.now denied }
{
    Denied {
        c_locale: denied.c_locale || found.c_locale,
        ..denied
    }
}

/// Explains the call by what was found of its script.
fn explain_found_script<'a>(
    given: &Given<'a, '_>,
    script: &'a FoundScript,
) -> Result<Explanation<'a>, AllocError>
    requires { given.now.position ≡ position_in given.now.file.now given.now.position.offset }
    ensures said { IfOk result (IsSaidOf given.now.file.now given.now.denied given.now.words.now script.now) }
    ensures places { IfOk result (λ e. All (IsFindingIn given.now.file.now) e.findings.items) }
{
    match script {
        FoundScript::Text { text, holes, .. } => explain_words(given, text, holes),
        FoundScript::Foreign(call) => {
            let findings = foreign_findings(given.alloc, given.shown, &call.given)?;
            reasons(given, findings)
        }
        FoundScript::Refused(fault) => {
            let findings = refusal_of(given.alloc, given.shown, *fault)?;
            reasons(given, findings)
        }
        FoundScript::Unknown(why) => unknown(given, *why),
    }
}

/// The explanation with a warning for each variable that is replaced by its value, and for an output that goes to what is read. It is no
/// yes where the file sets such a value.
fn with_values<'a>(
    given: &Given<'a, '_>,
    explanation: Explanation<'a>,
    found: &FoundCall,
    assumed: &[Assumed],
) -> Result<Explanation<'a>, AllocError>
    requires position { given.now.position ≡ position_in given.now.file.now given.now.position.offset }
    requires findings { All (IsFindingIn given.now.file.now) explanation.findings.items }
    ensures agrees { IfOk result (Agrees explanation.entry) }
    ensures status { IfOk result (λ e. e.status ≡ status_with (is_set_in_call assumed.now found.now) explanation.entry.status) }
    ensures places { IfOk result (λ e. All (IsFindingIn given.now.file.now) e.findings.items) }
{
    let mut explanation = explanation;
    let mut warnings = value_warnings(given, found)?;
    explanation.findings.append(&mut warnings)?;
    explanation.status = status_of(explanation.status, is_set_in(assumed, found));
    Ok(explanation)
}

/// Those warnings.
fn value_warnings(given: &Given, found: &FoundCall) -> Result<Vec<Finding>, AllocError>
    requires { given.now.position ≡ position_in given.now.file.now given.now.position.offset }
    ensures { IfOk result (λ warnings. All (IsWarningIn given.now.file.now) warnings.items) }
{
    let Given {
        alloc,
        file,
        position,
        ..
    } = *given;
    let mut places = Places::new(alloc, file, position, &[])?;
    let mut warnings = Vec::new(alloc);
    if let Some(one) = found.overwritten {
        let warning = overwriting_warning(alloc, file, &mut places, one)?;
        warnings.push(warning)?;
    }
    let mut notes = value_notes(alloc, file, &mut places, &found.followed)?;
    warnings.append(&mut notes)?;
    Ok(warnings)
}

/// The status of what is said of a call, where a value that the file sets may be put in.
fn status_of(status: Status, is_set: bool) -> Status
    ensures { result ≡ status_with is_set status }
{
    if is_set && status.is_accepted() {
        return Status::Unknown;
    }
    status
}

/// Explains the call, whose script is this text.
fn explain_words<'a>(
    given: &Given<'a, '_>,
    text: &'a Traced,
    holes: &[OpenHole],
) -> Result<Explanation<'a>, AllocError>
    requires { given.now.position ≡ position_in given.now.file.now given.now.position.offset }
    ensures said { IfOk result (IsSaidOfText given.now.file.now given.now.denied given.now.words.now text.now holes.now) }
    ensures places { IfOk result (λ e. All (IsFindingIn given.now.file.now) e.findings.items) }
{
    let bytes = bytes_of(given.alloc, given.words)?;
    match call_of(given.alloc, &bytes) {
        Ok(call) => explain_script(given, &call, text, holes),
        Err(CallFault::OutOfMemory) => Err(AllocError),
        Err(_) => unknown(given, Unknown::Words),
    }
}

/// The same, whose words are this call.
fn explain_script<'a>(
    given: &Given<'a, '_>,
    call: &Call,
    text: &'a Traced,
    holes: &[OpenHole],
) -> Result<Explanation<'a>, AllocError>
    requires { given.now.position ≡ position_in given.now.file.now given.now.position.offset }
    ensures said { IfOk result (IsSaidOfCall given.now.file.now given.now.denied given.now.words.now call.now text.now holes.now) }
    ensures places { IfOk result (λ e. All (IsFindingIn given.now.file.now) e.findings.items) }
{
    if has_foreign(&call.given) {
        let findings = foreign_findings(given.alloc, given.shown, &call.given)?;
        return reasons(given, findings);
    }
    if !is_in_file(given.alloc, given.file, given.words, call, text)? {
        return unknown(given, Unknown::Part);
    }
    judged(given, call, text, holes)
}

/// The same, whose script is known but for holes.
fn judged<'a>(
    given: &Given<'a, '_>,
    call: &Call,
    text: &'a Traced,
    holes: &[OpenHole],
) -> Result<Explanation<'a>, AllocError>
    requires { given.now.position ≡ position_in given.now.file.now given.now.position.offset }
    ensures said { IfOk result (IsJudged given.now.denied call.now text.now holes.now) }
    ensures places { IfOk result (λ e. All (IsFindingIn given.now.file.now) e.findings.items) }
{
    let Given { alloc, file, .. } = *given;
    let explanation = explain_called(alloc, &text.bytes, given.shown, call, given.denied)?;
    let mut places = Places::new(alloc, file, given.position, &text.origins)?;
    let explanation = placed(file, &mut places, explanation);
    if is_open(text, holes) {
        let warnings = open_warnings(alloc, file, &mut places, holes)?;
        return opened(alloc, file, explanation, warnings);
    }
    Ok(explanation)
}

/// Whether something is unknown of the script, or of what its words depend on.
fn is_open(text: &Traced, holes: &[OpenHole]) -> bool
    ensures { result ≡ is_open_script text.now holes.now }
{
    !holes.is_empty() || has_hole(&text.origins)
}

/// The explanation of a script of which something is unknown, with these warnings after its errors.
fn opened<'a>(
    alloc: Global,
    file: &[u8],
    explanation: Explanation<'a>,
    warnings: Vec<Finding>,
) -> Result<Explanation<'a>, AllocError>
    requires findings { All (IsFindingIn file.now) explanation.findings.items }
    requires warnings { All (IsWarningIn file.now) warnings.items }
    ensures agrees { IfOk result (Agrees explanation.entry) }
    ensures status { IfOk result (λ e. e.status ≡ status_with true explanation.entry.status) }
    ensures places { IfOk result (λ e. All (IsFindingIn file.now) e.findings.items) }
{
    let mut explanation = explanation;
    let mut warnings = warnings;
    let errors = error_count(&explanation.findings);
    let mut rest = explanation.findings.split_off(errors)?;
    explanation.findings.append(&mut warnings)?;
    explanation.findings.append(&mut rest)?;
    if explanation.status.is_accepted() {
        explanation.status = Status::Unknown;
    }
    Ok(explanation)
}

/// How many findings at the beginning are errors.
fn error_count(findings: &[Finding]) -> usize
    ensures { result ≤ length findings.now }
{
    let mut count = 0;
    for finding in findings {
        if !finding.is_error() {
            break;
        }
        count += 1;
    }
    count
}

/// The explanation of a script that isn't judged, for these reasons at the call.
fn reasons<'a>(given: &Given<'a, '_>, findings: Vec<Finding>) -> Result<Explanation<'a>, AllocError>
    requires { given.now.position ≡ position_in given.now.file.now given.now.position.offset }
    ensures said { IfOk result (IsUnjudged Status.Refused) }
    ensures places { IfOk result (λ e. All (IsFindingIn given.now.file.now) e.findings.items) }
{
    let mut findings = findings;
    let mut places = Places::new(given.alloc, given.file, given.position, &[])?;
    place_findings(&mut places, &mut findings);
    Ok(not_judged(given.alloc, given.file, findings))
}

/// The explanation of a place that isn't understood.
pub(crate) fn explain_unread<'a>(
    alloc: Global,
    file: &'a [u8],
    position: Position,
) -> Result<Explanation<'a>, AllocError>
    requires { position ≡ position_in file.now position.offset }
    ensures status { IfOk result (λ e. e.status ≡ Status.Unknown) }
    ensures places { IfOk result (λ e. All (IsFindingIn file.now) e.findings.items) }
{
    let mut explanation = not_judged(alloc, file, unread_warning(alloc, file, position)?);
    explanation.status = Status::Unknown;
    Ok(explanation)
}

/// The explanation of a script that is unknown.
fn unknown<'a>(given: &Given<'a, '_>, why: Unknown) -> Result<Explanation<'a>, AllocError>
    requires { given.now.position ≡ position_in given.now.file.now given.now.position.offset }
    ensures said { IfOk result (IsUnjudged Status.Unknown) }
    ensures places { IfOk result (λ e. All (IsFindingIn given.now.file.now) e.findings.items) }
{
    let warnings = unknown_warning(given.alloc, given.file, given.position, why)?;
    let mut explanation = not_judged(given.alloc, given.file, warnings);
    explanation.status = Status::Unknown;
    Ok(explanation)
}
