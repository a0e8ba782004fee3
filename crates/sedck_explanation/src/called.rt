//! What is said of a call of sed: of one that can be judged, and of one that can't.

ghost use Rattle.std.specs.Prelude.{◌≡◌, None, [], IfOk};
ghost use Rattle.sedck_explanation.specs.Called.{IsCalled, IsDenied, is_denied_call as is_denied};
ghost use Rattle.sedck_explanation.specs.Explanations.{IsExplanation, Keeps};
ghost use Rattle.sedck_answer.specs.Status.{IsOfAnswer};

use crate::explaining::{Beside, explain_call};
use crate::options::{call_warnings, denied_overwriting, is_in_place};
use sedck_answer::{Explanation, Status};
use sedck_call::{Call, CallOption, Given, Piece};
use sedck_errors::{Denied, LineEnd};
use sedck_report::{Code, Finding, Level};
use std::alloc::{AllocError, Global};

/// Explains a call whose script is this text: as the text is explained, with a warning where the call overwrites operands, which is an
/// error where writing is denied.
pub fn explain_called<'a>(
    alloc: Global,
    text: &'a [u8],
    words: &[&[u8]],
    call: &Call,
    denied: Denied,
) -> Result<Explanation<'a>, AllocError>
    ensures few { IfOk result (λ e. IsOfAnswer e.status) }
    ensures called { IfOk result (IsCalled text.now denied call.now) }
    ensures yes { IfOk result (λ e. e.status ≡ Status.Accepted → IsExplanation text.now None denied e) }
{
    let warnings = call_warnings(alloc, words, call, !text.is_empty())?;
    let inputs = inputs_of(alloc, words, call)?;
    let own = script_files(alloc, words, call)?;
    let beside = Beside {
        own: &own,
        inputs: &inputs,
        line_end: line_end_of(call),
    };
    let explanation = explain_call(alloc, text, beside, warnings, denied)?;
    if is_denied_call(denied, call, explanation.status) {
        return denied_call(alloc, words, call, explanation);
    }
    Ok(explanation)
}

/// The operands of the call that are inputs.
fn inputs_of<'a>(
    alloc: Global,
    words: &[&'a [u8]],
    call: &Call,
) -> Result<Vec<&'a [u8]>, AllocError> {
    let mut inputs = Vec::new(alloc);
    for number in &call.inputs {
        if let Some(word) = words.get(*number) {
            inputs.push(*word)?;
        }
    }
    Ok(inputs)
}

/// The files that the script is in, by their paths. The path `-` is standard input.
fn script_files<'a>(
    alloc: Global,
    words: &[&'a [u8]],
    call: &Call,
) -> Result<Vec<&'a [u8]>, AllocError> {
    let mut files = Vec::new(alloc);
    for piece in &call.pieces {
        if let Piece::File(origin) = *piece {
            let path = origin.text(words);
            if path != b"-".as_slice() {
                files.push(path)?;
            }
        }
    }
    Ok(files)
}

/// With what lines end for the call.
fn line_end_of(call: &Call) -> LineEnd {
    for given in &call.given {
        if let Given::Alone(CallOption::NullData, _) = *given {
            return LineEnd::Zero;
        }
    }
    LineEnd::Newline
}

/// Whether the script is accepted, but the call overwrites operands where writing is denied.
fn is_denied_call(denied: Denied, call: &Call, status: Status) -> bool
    ensures { result ≡ is_denied denied call.now status }
{
    status.is_accepted() && denied.writes && is_in_place(call)
}

/// The explanation of an accepted script whose call overwrites operands where writing is denied.
fn denied_call<'a>(
    alloc: Global,
    words: &[&[u8]],
    call: &Call,
    mut explanation: Explanation<'a>,
) -> Result<Explanation<'a>, AllocError>
    requires { Keeps explanation.text.now explanation.answer explanation }
    ensures { IfOk result (IsDenied explanation.entry.text.now explanation.entry) }
{
    explanation.status = Status::Rejected;
    let error = denied_overwriting(alloc, words, call)?;
    explanation.findings.insert(0, error)?;
    Ok(explanation)
}

/// A finding on the words of a call, which have no position in the script.
pub fn call_finding(
    alloc: Global,
    level: Level,
    code: Code,
    message: String,
    hint: Option<&'static str>,
) -> Finding
    ensures level { result.level ≡ level }
    ensures code { result.code ≡ code }
    ensures position { result.position ≡ None }
    ensures end { result.end ≡ None }
    ensures steps { result.steps.items ≡ [] }
{
    let mut finding = Finding::new(alloc, level, code, message);
    finding.hint = hint;
    finding
}
