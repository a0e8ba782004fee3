//! What is reported of a script's text that is refused.

ghost use Rattle.std.specs.Prelude.{◌≡◌, ◌≢◌, ◌<◌, ◌≤◌, ◌+◌, ◌-◌, ℕ, List, length, drop, Some, IfOk};
ghost use Rattle.sedck_script.specs.Faults.{StandsAt};
ghost use Rattle.sedck_script.specs.Parts.{DelimitedExpression};
ghost use Rattle.sedck_report.specs.Positions.{position_in};
ghost use Rattle.sedck_report.specs.declared.finding.Level.TheVariants.{Error};
ghost use Rattle.sedck_errors.specs.Errors.{IsFaultOffset, bytes_before, IsReportable};
ghost use Rattle.sedck_errors.specs.Private.Errors.{is_escaped, is_pair};

use crate::ends::fault_length;
use sedck_advice::{
    Mend, Spot, has_escaped_text, has_open_class, is_misjudged, listed_labels, misjudged_reason,
    other_kind, script_hint, script_mend,
};
use sedck_bre::ReFault;
use sedck_report::{Code, Finding, Fix, Level, end_behind, position_at, skipped};
use sedck_script::ScriptFault;
use std::alloc::{AllocError, Global};

/// The finding for the fault of this text.
pub fn script_refusal(alloc: Global, text: &[u8], fault: ScriptFault) -> Result<Finding, AllocError>
    requires { IsReportable text.now fault }
    ensures level { IfOk result (λ finding. finding.level ≡ Error) }
    ensures code { IfOk result (λ finding. finding.code ≡ Code.Script fault) }
    ensures position { IfOk result (λ finding. (offset : ℕ) × IsFaultOffset text.now fault offset
        × (finding.position ≡ Some (position_in text.now offset))) }
{
    let offset = offset_of(text, fault);
    let spot = Spot {
        before: text.get(..offset).unwrap_or(&[]),
        rest: text.get(offset..).unwrap_or(&[]),
        expression: expression_of(fault),
    };
    let (message, hint, mend) = match other_kind(text) {
        Some(foreign) => (foreign.message, Some(foreign.hint), None),
        None => (
            reason_of(fault, spot),
            script_hint(fault, spot),
            script_mend(text, fault, spot),
        ),
    };
    let position = position_at(text, offset);
    let message = refusal_words(alloc, text, fault, message)?;
    let mut finding = Finding::new(alloc, Level::Error, Code::Script(fault), message);
    finding.position = Some(position);
    finding.end = Some(end_behind(text, position, fault_length(fault, spot)));
    finding.hint = hint;
    finding.fix = mend.map(|mend| fix_at(text, offset, mend));
    Ok(finding)
}

/// The message, with the labels that there are where one is missing.
fn refusal_words(
    alloc: Global,
    text: &[u8],
    fault: ScriptFault,
    message: &str,
) -> Result<String, AllocError> {
    let ScriptFault::UnknownLabel { .. } = fault else {
        return String::from_str(alloc, message);
    };
    let labels = listed_labels(alloc, text)?;
    if labels.is_empty() {
        return format!(in alloc; "{message}, and the script has none");
    }
    format!(in alloc; "{message}: there are {labels}")
}

/// What the mend of a fault at this offset replaces, and by what.
fn fix_at(text: &[u8], offset: usize, mend: Mend) -> Fix
    ensures start { result.start ≡ position_in text.now (offset - mend.before) }
    ensures text { result.text ≡ mend.text }
{
    Fix {
        start: position_at(text, offset.saturating_sub(mend.before)),
        end: position_at(text, offset.saturating_add(mend.after)),
        text: mend.text,
    }
}

/// Where the expression begins in which the fault is; 0 for any other fault.
fn expression_of(fault: ScriptFault) -> usize {
    match fault {
        ScriptFault::BadExpression { place, .. } => place,
        _ => 0,
    }
}

/// Where the fault is in the script's text.
fn offset_of(text: &[u8], fault: ScriptFault) -> usize
    requires { IsReportable text.now fault }
    ensures { IsFaultOffset text.now fault result }
{
    match fault {
        ScriptFault::BadExpression { place, fault } => {
            offset_in_expression(text, place, fault.place().unwrap_or(0))
        }
        fault => fault.place().unwrap_or(0),
    }
}

/// Where a byte of an expression is in the script's text, which has a backslash before each delimiter in it. The
/// expression begins at `start`, after its delimiter.
fn offset_in_expression(text: &[u8], start: usize, offset: usize) -> usize
    requires { start ≤ length text.now }
    ensures { (delimiter : ℕ) (expression rest : List ℕ) → StandsAt text.now (start - 1) delimiter
        → (cut : DelimitedExpression delimiter (drop start text.now) expression rest)
        → offset < length expression → result ≡ start + bytes_before cut offset }
{
    let delimiter = byte_before(text, start);
    let mut rest = skipped(text, start);
    let mut left = offset;
    while left > 0 {
        if is_escaped(rest, delimiter) {
            rest = skipped(rest, 2);
            left -= 1;
        } else if left > 1 && is_pair(rest) {
            rest = skipped(rest, 2);
            left -= 2;
        } else {
            rest = skipped(rest, 1);
            left -= 1;
        }
    }
    text.len() - rest.len()
}

/// The byte before this offset, which there is for every expression: its opening delimiter.
fn byte_before(text: &[u8], offset: usize) -> u8
    ensures { (byte : ℕ) → StandsAt text.now (offset - 1) byte → result ≡ byte }
{
    text.get(offset.saturating_sub(1)).copied().unwrap_or(b'/')
}

/// Whether a backslash and this delimiter are first.
fn is_escaped(rest: &[u8], delimiter: u8) -> bool
    ensures { result ≡ is_escaped delimiter rest.now }
{
    matches!(rest, [b'\\', next, ..] if *next == delimiter)
}

/// Whether a backslash and another byte are first.
fn is_pair(rest: &[u8]) -> bool
    ensures { result ≡ is_pair rest.now }
{
    matches!(rest, [b'\\', _, ..])
}

/// Why the text is no script.
fn reason_of(fault: ScriptFault, spot: Spot) -> &'static str {
    match fault {
        ScriptFault::TooLong { .. } => "the script is longer than 1,048,576 bytes",
        ScriptFault::NulByte { .. } => "a script can't contain a NUL byte",
        ScriptFault::UnknownCommand { .. } => "expected a sed command",
        ScriptFault::BadAddress { .. } => "expected an address",
        ScriptFault::TooManyAddresses { .. } => "this command takes fewer addresses, or no `!`",
        ScriptFault::BadExpression { fault, .. } => expression_reason(fault, spot),
        ScriptFault::Unterminated { .. } => "a delimiter is missing or invalid",
        ScriptFault::BadReplacement { .. } => {
            "the replacement has an unknown escape, or a group that the expression doesn't have"
        }
        ScriptFault::BadFlag { .. } => "unknown flag, or the same flag twice",
        ScriptFault::BadTransliteration { .. } => {
            "the lists of `y` differ in length, have an escape other than `\\\\`, `\\n` and that of the delimiter, or leave a `[` open in the first"
        }
        ScriptFault::MissingText { .. } if has_escaped_text(spot.rest) => {
            "a text on the line of its command can't begin with a backslash"
        }
        ScriptFault::MissingText { .. } => "the command has no text",
        ScriptFault::MissingName { .. } => "the file name is missing",
        ScriptFault::BadLabel { .. } => "a label is missing, or has a byte that a label can't have",
        ScriptFault::DuplicateLabel { .. } => "this label is already defined",
        ScriptFault::UnknownLabel { .. } => "this label isn't defined",
        ScriptFault::UnopenedBlock { .. } => "this `}` closes no block",
        ScriptFault::UnclosedBlock { .. } => "this block isn't closed",
        ScriptFault::TooDeep { .. } => "this block is inside 64 others, which is the limit",
        ScriptFault::TooManyCommands { .. } =>
            "this is the 4,096th command, one more than a script may have",
        ScriptFault::ExtraText { .. } => extra_reason(spot.rest),
        ScriptFault::NoPreviousExpression { .. } => {
            "an empty expression repeats the one used last, and the script has none"
        }
        ScriptFault::EscapedDelimiter { .. } => {
            "this delimiter can't be escaped: seds differ on what it then means"
        }
        ScriptFault::OutOfMemory => "out of memory",
    }
}

/// What is extra after a command, or in a comment or a name.
fn extra_reason(rest: &[u8]) -> &'static str {
    match (rest.first(), rest.get(1)) {
        (Some(b'\r'), _) => "unexpected carriage return",
        (Some(b'\\'), Some(b'\n')) => "unexpected backslash at the end of the line",
        (Some(0..=31 | 127), _) | (Some(194), Some(128..=159)) => "unexpected control character",
        _ => "unexpected text after a command",
    }
}

/// Why the text is no expression.
fn expression_reason(fault: ReFault, spot: Spot) -> &'static str {
    if is_misjudged(fault, spot) {
        return misjudged_reason(fault);
    }
    match fault {
        ReFault::TrailingBackslash { .. } => "the expression ends in a backslash",
        ReFault::BadEscape { .. } => {
            "POSIX defines no such escape in a basic regular expression, and seds differ on it"
        }
        ReFault::UnclosedBracket { .. } if has_open_class(spot) => {
            "a class or symbol that begins in the bracket list, with `[:`, `[.` or `[=`, isn't closed"
        }
        ReFault::UnclosedBracket { .. } => "the bracket list isn't closed before the delimiter",
        ReFault::BadBracket { .. } =>
            "invalid range, class or hyphen in a bracket list, or an element that seds read differently",
        ReFault::EmptySet { .. } => "the bracket list matches nothing",
        ReFault::UnclosedGroup { .. } => "this group isn't closed",
        ReFault::UnopenedGroup { .. } => "this `\\)` closes no group",
        ReFault::BadInterval { .. } =>
            "an interval is \\{m\\}, \\{m,\\} or \\{m,n\\} with numbers up to 255",
        ReFault::NothingToRepeat { .. } => "there is nothing before this interval to repeat",
        ReFault::DoubleRepeat { .. } => "this is already repeated, and can't be repeated again",
        ReFault::BadReference { .. } => "no group with this number is closed before this reference",
        ReFault::TooDeep { .. } => "this group is inside 32 others, which is the limit",
        ReFault::TooManyGroups { .. } =>
            "this is the hundredth group, one more than an expression may have",
        ReFault::OutOfMemory => "out of memory",
    }
}
