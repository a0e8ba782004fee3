//! What is said of the options of a call, and of words that no sed takes.

ghost use Rattle.std.specs.Prelude.{◌≡◌, ◌&&◌, Bool, false, IfOk};
ghost use Rattle.sedck_report.specs.declared.finding.Level.TheVariants.{Error};
ghost use Rattle.std.specs.List.{list_any};
ghost use Rattle.sedck_report.specs.Levels.{has_warning, has_locale, has_error, warns_of};
ghost use Rattle.sedck_report.specs.declared.code.Code.{Code};
ghost use Rattle.sedck_report.specs.declared.code.Code.TheVariants.{InPlace};
ghost use Rattle.sedck_explanation.specs.Called.{is_foreign as is_foreign_option, has_foreign as has_foreign_option};
ghost use Rattle.sedck_explanation.specs.Called.{is_overwriting as is_overwriting_option, is_in_place as is_in_place_call};

use crate::called::call_finding;
use sedck_call::{Call, CallFault, CallOption, Given, Origin};
use sedck_report::{Code, Finding, Level, shown_name};
use std::alloc::{AllocError, Global};

/// The option and its word's number, from 0; none for an operand.
fn option_of(given: Given) -> Option<(CallOption, usize)> {
    match given {
        Given::Alone(option, word) => Some((option, word)),
        Given::With(option, origin) => Some((option, origin.word)),
        Given::Operand(_) => None,
    }
}

/// Whether one of the options changes the language.
pub fn has_foreign(given: &[Given]) -> bool
    ensures { result ≡ has_foreign_option given.now }
{
    given.iter().any(|item| is_foreign(*item))
}

/// Whether the option changes the language.
fn is_foreign(given: Given) -> bool
    ensures { result ≡ is_foreign_option given }
{
    match given {
        Given::Alone(option, _) | Given::With(option, _) => matches!(option, CallOption::Extended),
        Given::Operand(_) => false,
    }
}

/// An error for each option that changes the language.
pub fn foreign_findings(
    alloc: Global,
    words: &[&[u8]],
    given: &[Given],
) -> Result<Vec<Finding>, AllocError> {
    let hint =
        "write basic expressions: `\\(`, `\\)`, `\\{` and `\\}` for groups and intervals, `x\\{1,\\}` for `x+`, and several commands for `|`";
    let mut findings = Vec::new(alloc);
    for item in given {
        let Some((CallOption::Extended, word)) = option_of(*item) else {
            continue;
        };
        let number = word.saturating_add(1);
        let shown = shown_name(alloc, Origin { word, from: 0 }.text(words))?;
        let message = format!(in alloc;
            "word {number}, \"{shown}\": with this option regular expressions are extended ones, so the script is not judged"
        )?;
        findings.push(call_finding(
            alloc,
            Level::Error,
            Code::OtherLanguage,
            message,
            Some(hint),
        ))?;
    }
    Ok(findings)
}

/// What is asked of a call with `-i` and an empty script: the seds of macOS and the BSDs take the word after `-i` for its suffix.
const EMPTY_SCRIPT: &str =
    "is the empty script meant? Only the seds of macOS and the BSDs take the word after `-i` for its suffix; `-i.bak` is read alike by all";

/// A warning of the operands that `-i` overwrites, if there are any. An empty script with `-i` may be a mistake.
pub(crate) fn call_warnings(
    alloc: Global,
    words: &[&[u8]],
    call: &Call,
    has_script: bool,
) -> Result<Vec<Finding>, AllocError>
    ensures errors { IfOk result (λ findings. has_error findings.items ≡ false) }
    ensures warnings { IfOk result (λ findings. has_warning findings.items ≡ is_in_place_call call.now) }
    ensures kinds { IfOk result (λ findings. (kind : Code → Bool) → warns_of kind findings.items ≡ (is_in_place_call call.now && kind InPlace)) }
    ensures locale { IfOk result (λ findings. has_locale findings.items ≡ false) }
{
    let mut findings = Vec::new(alloc);
    if is_in_place(call) {
        let message = overwritten(alloc, words, call)?;
        let hint = if has_script { None } else { Some(EMPTY_SCRIPT) };
        findings.push(call_finding(alloc, Level::Warning, Code::InPlace, message, hint))?;
    }
    Ok(findings)
}

/// The error of a call that overwrites its operands where writing is denied.
pub(crate) fn denied_overwriting(
    alloc: Global,
    words: &[&[u8]],
    call: &Call,
) -> Result<Finding, AllocError>
    ensures { IfOk result (λ finding. finding.level ≡ Error) }
{
    let message = overwritten(alloc, words, call)?;
    Ok(call_finding(alloc, Level::Error, Code::DeniedWrites, message, None))
}

/// Whether the call overwrites an operand.
pub(crate) fn is_in_place(call: &Call) -> bool
    ensures { result ≡ is_in_place_call call.now }
{
    !call.inputs.is_empty() && has_overwriting(&call.given)
}

/// Whether one of the options makes sed overwrite its operands.
fn has_overwriting(given: &[Given]) -> bool
    ensures { result ≡ list_any is_overwriting_option given.now }
{
    given.iter().any(|item| is_overwriting(*item))
}

/// Whether it is `-i`, or `-I` of the BSDs.
fn is_overwriting(given: Given) -> bool
    ensures { result ≡ is_overwriting_option given }
{
    match given {
        Given::Alone(option, _) | Given::With(option, _) => matches!(
            option,
            CallOption::InPlace | CallOption::InPlaceSuffix
        ),
        Given::Operand(_) => false,
    }
}

/// Which operands are overwritten, in words.
fn overwritten(alloc: Global, words: &[&[u8]], call: &Call) -> Result<String, AllocError> {
    let mut message = String::from_str(alloc, "`-i` overwrites")?;
    for (index, number) in call.inputs.iter().enumerate() {
        message.push_str(if index > 0 { ", \"" } else { " \"" })?;
        if let Some(word) = words.get(*number) {
            message.push_str(shown_name(alloc, word)?.as_str())?;
        }
        message.push('"')?;
    }
    Ok(message)
}

/// The error of words that no sed takes.
pub fn refusal_of(
    alloc: Global,
    words: &[&[u8]],
    fault: CallFault,
) -> Result<Vec<Finding>, AllocError> {
    let (message, hint) = match fault {
        CallFault::OutOfMemory => return Err(AllocError),
        CallFault::NoScript => (
            String::from_str(alloc, "there is no script")?,
            "a script is the first operand, or what `-e` or `-f` gives",
        ),
        CallFault::BadWord(word) => {
            let number = word.saturating_add(1);
            let shown = shown_name(alloc, Origin { word, from: 0 }.text(words))?;
            let message = format!(in alloc;
                "word {number}, \"{shown}\": unknown option, or its argument is missing"
            )?;
            (message, "put operands that begin with a hyphen after `--`")
        }
    };
    let mut findings = Vec::new(alloc);
    findings.push(call_finding(alloc, Level::Error, Code::BadCall, message, Some(hint)))?;
    Ok(findings)
}
