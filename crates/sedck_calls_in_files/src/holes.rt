//! What is said of what is unknown before a run.

ghost use Rattle.std.specs.Prelude.{◌≡◌, IfOk};
ghost use Rattle.std.specs.List.{All};
ghost use Rattle.sedck_report.specs.Positions.{position_in};
ghost use Rattle.sedck_calls_in_files.specs.Placed.{IsFindingIn};
ghost use Rattle.sedck_calls_in_files.specs.Private.Kinds.{IsWarningIn};

use crate::places::Places;
use sedck_explanation::{Code, Finding, Level, Position, call_finding, shown_name};
use sedck_found::{Followed, KnownValue, OpenHole, Overwritten, Role, Unknown};
use sedck_origin::{Hole, Origin, Traced, Way, hole_name};
use sedck_parts::delimited;
use std::alloc::{AllocError, Global};

/// The most bytes of a hole that are shown.
const SHOWN: usize = 40;

/// How a value is made sure of in the shell.
const CASE: &str = "before it in the shell: case $value in '' | *[!A-Za-z0-9_]*) exit 1;; esac";

/// How operands are kept from being options.
const DASHES: &str =
    "give the script with -e, and put -- before the operands: sed -e p -- \"$file\"";

/// The same of a value that is there before a shell reads the text, as one of make.
const MADE: &str = "make sure of it where it is set, or write the value in its place";

/// How a call says which sed runs.
const NAMED: &str = "write the name of the sed, or quote the variable that has it";

/// How a value that the file sets is made sure of.
const VALUE: &str = "write the value in its place";

/// How a command does without its delimiter in a list.
const DELIMITER: &str = "write another delimiter, which the command doesn't have";

/// How an output is kept from what is read.
const OTHER_FILE: &str = "write to another file, and rename that after the call";

/// A warning for each hole: what its value may not have, so that the answer holds.
pub(crate) fn open_warnings(
    alloc: Global,
    file: &[u8],
    places: &mut Places,
    holes: &[OpenHole],
) -> Result<Vec<Finding>, AllocError>
    requires { places.old.file.now ≡ file.now }
    ensures { IfOk result (λ findings. All (IsWarningIn file.now) findings.items) }
{
    let mut findings = Vec::new(alloc);
    for hole in holes {
        findings.push(open_warning(alloc, file, places, *hole)?)?;
    }
    Ok(findings)
}

/// The warning for one hole.
fn open_warning(
    alloc: Global,
    file: &[u8],
    places: &mut Places,
    hole: OpenHole,
) -> Result<Finding, AllocError>
    requires { places.old.file.now ≡ file.now }
    ensures file { places.new.file ≡ places.old.file }
    ensures finding { IfOk result (IsWarningIn file.now) }
{
    let Hole { start, end, .. } = hole.hole;
    let message = hole_words(alloc, file, hole)?;
    let hint = Some(hint_of(hole));
    let mut finding = call_finding(alloc, Level::Warning, Code::OpenHole, message, hint);
    finding.position = Some(places.place_offset(start));
    finding.end = Some(places.place_offset(end));
    Ok(finding)
}

/// A warning for each variable that is replaced by its value.
pub(crate) fn value_notes(
    alloc: Global,
    file: &[u8],
    places: &mut Places,
    followed: &[Followed],
) -> Result<Vec<Finding>, AllocError>
    requires { places.old.file.now ≡ file.now }
    ensures { IfOk result (λ findings. All (IsWarningIn file.now) findings.items) }
{
    let mut findings = Vec::new(alloc);
    for one in followed {
        findings.push(value_note(alloc, file, places, *one)?)?;
    }
    Ok(findings)
}

/// The warning for one variable.
fn value_note(
    alloc: Global,
    file: &[u8],
    places: &mut Places,
    followed: Followed,
) -> Result<Finding, AllocError>
    requires { places.old.file.now ≡ file.now }
    ensures file { places.new.file ≡ places.old.file }
    ensures finding { IfOk result (IsWarningIn file.now) }
{
    let message = followed_words(alloc, file, followed)?;
    let is_given = matches!(followed.value, KnownValue::Given | KnownValue::Unset);
    let hint = if is_given { None } else { Some(VALUE) };
    let mut finding = call_finding(alloc, Level::Warning, Code::KnownValue, message, hint);
    finding.position = Some(places.place_offset(followed.start));
    finding.end = Some(places.place_offset(followed.end));
    Ok(finding)
}

/// Where the value of a variable comes from, in words.
pub(crate) fn followed_words(
    alloc: Global,
    file: &[u8],
    followed: Followed,
) -> Result<String, AllocError> {
    let written = shown_part(alloc, file, followed.start, followed.end)?;
    let value = shown_part(alloc, file, followed.from, followed.to)?;
    let message = value_words(alloc, written.as_str(), value.as_str(), followed.value)?;
    let part = file.get(followed.start..followed.end).unwrap_or(&[]);
    match (followed.value, hole_name(part)) {
        (KnownValue::Given | KnownValue::Unset, _) | (_, None) => Ok(message),
        (_, Some(name)) => with_assumption(alloc, message, name, "=VALUE"),
    }
}

/// Where the value of what is written comes from, in words. What the file sets is a condition: the environment, the arguments or another
/// command may give another value.
fn value_words(
    alloc: Global,
    written: &str,
    value: &str,
    known: KnownValue,
) -> Result<String, AllocError> {
    match known {
        KnownValue::Line(line) => format!(in alloc;
            "the answer holds if \"{written}\" is \"{value}\", as line {line} sets it"
        ),
        KnownValue::Empty => {
            format!(in alloc; "the answer holds if \"{written}\" is empty, as the file sets it")
        }
        KnownValue::Given => format!(in alloc; "\"{written}\" has the value that is assumed"),
        KnownValue::Unset => String::from_str(alloc, "POSIXLY_CORRECT isn't set, as is assumed"),
    }
}

/// The warning of the file to which the output of a call goes, where the call reads it.
pub(crate) fn overwriting_warning(
    alloc: Global,
    file: &[u8],
    places: &mut Places,
    one: Overwritten,
) -> Result<Finding, AllocError>
    requires { places.old.file.now ≡ file.now }
    ensures file { places.new.file ≡ places.old.file }
    ensures finding { IfOk result (IsWarningIn file.now) }
{
    let written = shown_part(alloc, file, one.start, one.end)?;
    let message = overwriting_words(alloc, written.as_str(), one)?;
    let hint = Some(OTHER_FILE);
    let mut finding = call_finding(alloc, Level::Warning, Code::WritesItsInput, message, hint);
    finding.position = Some(places.place_offset(one.start));
    finding.end = Some(places.place_offset(one.end));
    Ok(finding)
}

/// What happens to a file that is opened for writing where a call reads it, in words.
fn overwriting_words(alloc: Global, written: &str, one: Overwritten) -> Result<String, AllocError> {
    if !one.is_output {
        return format!(in alloc; "the shell empties \"{written}\" before the call reads it");
    }
    let what = if one.is_emptied {
        "it is emptied before it is read, and then may grow while it is read, without an end"
    } else {
        "it may grow while it is read, so that the run never ends"
    };
    format!(in alloc; "the output goes to \"{written}\", which the call reads: {what}")
}

/// On what the answer depends by the hole, in words, and how to assume it where that can be done.
pub(crate) fn hole_words(alloc: Global, file: &[u8], hole: OpenHole) -> Result<String, AllocError> {
    let Hole { start, end, .. } = hole.hole;
    let written = shown_part(alloc, file, start, end)?;
    if let Role::Delimiter { is_whole, is_bare } = hole.role {
        let part = if is_whole { file.get(start..end) } else { None };
        let mended = match part {
            Some(part) => Some(delimited(alloc, part, hole.delimiter, is_bare)?),
            None => None,
        };
        return mend_words(alloc, written.as_str(), mended.as_deref());
    }
    let message = condition(alloc, written.as_str(), hole)?;
    let value = match hole.role {
        Role::Options => return with_assumption(alloc, message, b"POSIXLY_CORRECT", ""),
        Role::Sed => "=sed",
        Role::Runner => "=",
        _ => "=VALUE",
    };
    match hole_name(file.get(start..end).unwrap_or(&[])) {
        Some(name) if hole.is_variable => with_assumption(alloc, message, name, value),
        _ => Ok(message),
    }
}

/// The words of a condition, and with which value of which variable it is assumed.
fn with_assumption(
    alloc: Global,
    message: String,
    name: &[u8],
    value: &str,
) -> Result<String, AllocError> {
    let name = shown_name(alloc, name)?;
    let (message, name) = (message.as_str(), name.as_str());
    format!(in alloc; "{message}; or give --assume {name}{value}")
}

/// On what the answer depends where a command has its delimiter in a list, and the command with another delimiter, where the file has it
/// whole.
fn mend_words(alloc: Global, written: &str, mended: Option<&[u8]>) -> Result<String, AllocError> {
    let mut message = format!(in alloc;
        "\"{written}\" has its delimiter in a list: the answer holds if sed takes it for a part of the list, as GNU sed, BusyBox and toybox do"
    )?;
    if let Some(mended) = mended {
        let mended = shown_name(alloc, mended)?;
        let mended = mended.as_str();
        let more = format!(in alloc; "; for all seds write \"{mended}\"")?;
        message.push_str(more.as_str())?;
    }
    Ok(message)
}

/// On what the answer depends, in words. An empty expression is the one before, and an empty list would go on after its bracket.
fn condition(alloc: Global, written: &str, hole: OpenHole) -> Result<String, AllocError> {
    let delimiter = shown_name(alloc, &[hole.delimiter])?;
    let mark = delimiter.as_str();
    let rest = match hole.role {
        Role::Expression => format!(in alloc;
            "it isn't empty, and has no `{mark}`, no newline, and none of `\\[.*^$`"
        )?,
        Role::List => format!(in alloc;
            "it isn't empty, and has no `{mark}`, no newline, and none of `\\[]^-`"
        )?,
        Role::Replacement => {
            format!(in alloc; "it has no `{mark}`, no newline, and none of `\\&`")?
        }
        role => String::from_str(alloc, words_of_role(role))?,
    };
    let (rest, way) = (rest.as_str(), words_of_way(hole.hole.way, hole.role));
    format!(in alloc; "\"{written}\" is unknown: the answer holds if {rest}{way}")
}

/// What a hole must be that isn't in an expression or a replacement.
fn words_of_role(role: Role) -> &'static str {
    match role {
        Role::TextBegin => "it isn't empty, begins with no blank, and has no newline and no `\\`",
        Role::Comment => "it has no newline, no carriage return and no `\\`",
        Role::Word => "it is a part of one word",
        Role::Operand => "no word of it begins with `-`",
        Role::Pattern =>
            "no file's name matches it, and it stays as it is then: `nullglob` isn't set",
        Role::Names => "no file's name that matches it begins with `-`",
        Role::Sed => "it is the name of a sed, without options",
        Role::Runner => "it is nothing, or what runs the words after it",
        Role::Added => "no operand that xargs adds begins with `-`",
        Role::Options => "POSIXLY_CORRECT isn't set, with which an option after an operand is none",
        _ => "it has no newline and no `\\`",
    }
}

/// What the value must not have by how it becomes a part of the word.
fn words_of_way(way: Way, role: Role) -> &'static str {
    match (way, role) {
        (_, Role::Pattern | Role::Names | Role::Added | Role::Options | Role::Runner) => "",
        (Way::MadeQuoted, _) => {
            "; and, since it is put in before a shell reads the line, it has none of `'\"\\$` and no backquote"
        }
        (Way::MadeBare, Role::Operand) => {
            "; and, since it is put in before a shell reads the line, it has none of `'\"\\$;&|<>()#{~` and no backquote"
        }
        (Way::MadeBare, _) => {
            "; and, since it is put in before a shell reads the line, it has no blank, none of `'\"\\$;&|<>()#*?[{~` and no backquote"
        }
        (Way::Bare, Role::Operand | Role::Sed) | (Way::Several | Way::Quoted, _) => "",
        (Way::Bare, _) => {
            "; and, since it isn't quoted, it has no blank, no other byte of `IFS`, and none of `*?[`"
        }
    }
}

/// How the call is mended.
fn hint_of(hole: OpenHole) -> &'static str {
    match hole.role {
        Role::Word | Role::Pattern => "quote it",
        Role::Operand | Role::Names | Role::Added => DASHES,
        Role::Options => "write the options before the operands",
        Role::Sed => NAMED,
        Role::Runner => "write what runs the sed",
        Role::Delimiter { .. } => DELIMITER,
        _ if hole.hole.way.is_made() => MADE,
        _ => CASE,
    }
}

/// The part of the file as it is shown, cut where it is long.
fn shown_part(alloc: Global, file: &[u8], start: usize, end: usize) -> Result<String, AllocError> {
    let limit = start.saturating_add(SHOWN);
    let part = file.get(start..end.min(limit)).unwrap_or(&[]);
    let mut shown = shown_name(alloc, part)?;
    if end > limit {
        shown.push_str("...")?;
    }
    Ok(shown)
}

/// The words of a call as messages have them: with what is written in place of what is unknown.
pub(crate) fn written_words(
    alloc: Global,
    file: &[u8],
    words: &[Traced],
) -> Result<Vec<Vec<u8>>, AllocError> {
    let mut written = Vec::new(alloc);
    for word in words {
        written.push(written_word(alloc, file, word)?)?;
    }
    Ok(written)
}

/// The same of a word.
fn written_word(alloc: Global, file: &[u8], word: &Traced) -> Result<Vec<u8>, AllocError> {
    let mut written = Vec::new(alloc);
    let mut last = None;
    for (byte, origin) in word.bytes.iter().zip(word.origins.iter()) {
        if let Origin::Hole(hole) = *origin {
            // Several bytes may be in the place of one hole.
            if last != Some(hole) {
                let limit = hole.start.saturating_add(SHOWN);
                let part = file.get(hole.start..hole.end.min(limit)).unwrap_or(&[]);
                written.extend_from_slice(part)?;
            }
            last = Some(hole);
        } else {
            written.push(*byte)?;
        }
    }
    Ok(written)
}

/// The warning of what isn't understood.
pub(crate) fn unread_warning(
    alloc: Global,
    file: &[u8],
    position: Position,
) -> Result<Vec<Finding>, AllocError>
    requires { position ≡ position_in file.now position.offset }
    ensures { IfOk result (λ findings. All (IsFindingIn file.now) findings.items) }
{
    let hint = if begins_with_value(file, position.offset) {
        "write the name of the command as it is, or give the values of its variables with --assume NAME=VALUE"
    } else {
        "close what is open, if anything is, or write the call where it can be read"
    };
    let words = (
        "what begins here isn't understood, and calls of sed in it or after it may be missed",
        hint,
    );
    warning_at(alloc, file, position, Code::NotUnderstood, words)
}

/// Whether the word that begins at the offset of the file has a variable in it.
fn begins_with_value(file: &[u8], offset: usize) -> bool {
    let text = file.get(offset..).unwrap_or(&[]);
    let mut words = text.split(|byte| b" \t\n;&|<>`".contains(byte));
    let word = words.next().unwrap_or(&[]);
    let mut pairs = word.windows(2);
    pairs.any(|pair| pair.starts_with(b"$") && !pair.ends_with(b"("))
}

/// The warning of a script that is unknown.
pub(crate) fn unknown_warning(
    alloc: Global,
    file: &[u8],
    position: Position,
    why: Unknown,
) -> Result<Vec<Finding>, AllocError>
    requires { position ≡ position_in file.now position.offset }
    ensures { IfOk result (λ findings. All (IsFindingIn file.now) findings.items) }
{
    let words = match why {
        Unknown::Words => (
            "a variable or a command gives the script or options of this call, so it is not judged",
            "write the script as it is, or give the value with --assume NAME=VALUE",
        ),
        Unknown::Part => (
            "a variable or a command gives more than a text of this script, so it is not judged",
            "let values be parts of expressions, replacements or texts alone, or give the value with --assume NAME=VALUE",
        ),
        Unknown::File => (
            "the script is in a file or comes from standard input, so it is not judged here",
            "explain that file as a script",
        ),
        Unknown::Macro => (
            "macros of M4 may change this script, so it is not judged",
            "explain the script that M4 makes of this file",
        ),
        Unknown::Suffix => (
            "the script is empty after -i: the seds of the BSDs take that word for the suffix, and the next one for the script",
            "write -i.bak, or give the script with -e",
        ),
    };
    warning_at(alloc, file, position, Code::Unknowable, words)
}

/// A warning at the position: these words and a hint.
fn warning_at(
    alloc: Global,
    file: &[u8],
    position: Position,
    code: Code,
    words: (&'static str, &'static str),
) -> Result<Vec<Finding>, AllocError>
    requires { position ≡ position_in file.now position.offset }
    ensures { IfOk result (λ findings. All (IsFindingIn file.now) findings.items) }
{
    let message = String::from_str(alloc, words.0)?;
    let mut finding = call_finding(alloc, Level::Warning, code, message, Some(words.1));
    finding.position = Some(position);
    let mut findings = Vec::new(alloc);
    findings.push(finding)?;
    Ok(findings)
}
