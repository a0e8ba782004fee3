//! Where ends what a finding is about: exactly where that is known, else after one byte.

ghost use Rattle.std.specs.Prelude.{◌≡◌};
ghost use Rattle.sedck_report.specs.Reported.{IsRange, head_of};

use memchr::memmem;
use sedck_advice::{Spot, is_blank};
use sedck_bre::ReFault;
use sedck_parts::Reading;
use sedck_report::{Finding, end_behind, line_len};
use sedck_script::{Location, ScriptFault};

/// The finding with its end: one that it has already, or that of the command at its position, or else of its first byte.
pub fn with_end(text: &[u8], locations: &[Location], finding: Finding) -> Finding
    ensures level { result.level ≡ finding.level }
    ensures head { head_of result ≡ head_of finding }
    ensures range { IsRange text.now result.position result.end }
{
    let mut finding = finding;
    finding.end = match finding.position {
        Some(start) => {
            let length = match finding.end {
                Some(end) => end.offset.saturating_sub(start.offset),
                None => command_length(text, locations, start.offset),
            };
            Some(end_behind(text, start, length))
        }
        None => None,
    };
    finding
}

/// The length of the command whose verb is at this offset, from there on. One byte where there is none.
fn command_length(text: &[u8], locations: &[Location], start: usize) -> usize {
    let Ok(index) = locations.binary_search_by(|location| location.verb.cmp(&start)) else {
        return 1;
    };
    match locations.get(index) {
        Some(location) => trimmed_length(text.get(start..location.end).unwrap_or(&[])),
        None => 1,
    }
}

/// The length without the blanks at the end, and at least one byte.
fn trimmed_length(text: &[u8]) -> usize {
    match text.iter().rposition(|byte| !is_blank(*byte)) {
        Some(last) => last.saturating_add(1),
        None => 1,
    }
}

/// How many bytes a script's fault is about.
pub(crate) fn fault_length(fault: ScriptFault, spot: Spot) -> usize {
    match fault {
        ScriptFault::BadExpression { fault, .. } => expression_fault_length(fault, spot),
        ScriptFault::BadReplacement { .. }
        | ScriptFault::BadTransliteration { .. }
        | ScriptFault::EscapedDelimiter { .. } => escape_length(spot.rest),
        ScriptFault::BadAddress { .. } => number_length(spot.rest),
        ScriptFault::DuplicateLabel { .. } | ScriptFault::UnknownLabel { .. } => {
            label_length(spot.rest)
        }
        ScriptFault::Unterminated { .. } => trimmed_length(line_of(spot.rest)),
        _ => 1,
    }
}

/// How many bytes an expression's fault is about.
fn expression_fault_length(fault: ReFault, spot: Spot) -> usize {
    match fault {
        ReFault::TrailingBackslash { .. } => 1,
        ReFault::UnclosedBracket { .. } | ReFault::EmptySet { .. } => list_length(spot),
        ReFault::BadBracket { .. } => element_length(spot.rest),
        ReFault::BadInterval { .. }
        | ReFault::NothingToRepeat { .. }
        | ReFault::DoubleRepeat { .. } => interval_length(spot.rest),
        _ => escape_length(spot.rest),
    }
}

/// A backslash with the byte after it, else one byte.
fn escape_length(rest: &[u8]) -> usize {
    if rest.starts_with(b"\\") && rest.len() > 1 {
        2
    } else {
        1
    }
}

/// A bracket list to its `]`, or to the delimiter before that.
fn list_length(spot: Spot) -> usize {
    let length = spot.left().len().saturating_sub(1);
    let mut reading = Reading::START;
    for (index, byte) in spot.rest.iter().take(length).enumerate() {
        reading = reading.after(*byte);
        if !reading.is_in_list() {
            return index.saturating_add(1);
        }
    }
    length
}

/// An element of a bracket list: a class or a symbol with its end, a range, or one byte.
fn element_length(rest: &[u8]) -> usize {
    if let Some(inside) = rest.strip_prefix(b"[")
        && let Some(end) = symbol_end(inside.first())
    {
        return match memmem::find(inside.get(1..).unwrap_or(&[]), end) {
            Some(at) => at.saturating_add(4),
            None => 2,
        };
    }
    match (rest.get(1), rest.get(2)) {
        (Some(b'-'), Some(end)) if *end != b']' => 3,
        _ => 1,
    }
}

/// What ends the class or the symbol that begins with a bracket and this byte.
fn symbol_end(mark: Option<&u8>) -> Option<&'static [u8]> {
    match *mark? {
        b':' => Some(b":]"),
        b'.' => Some(b".]"),
        b'=' => Some(b"=]"),
        _ => None,
    }
}

/// An interval to its `\}` in the same line.
fn interval_length(rest: &[u8]) -> usize {
    let line = line_of(rest);
    if !line.starts_with(b"\\{") {
        return 1;
    }
    match memmem::find(line, b"\\}") {
        Some(at) => at.saturating_add(2),
        None => 2,
    }
}

/// A number, or one byte.
fn number_length(rest: &[u8]) -> usize {
    let digits = rest.iter().position(|byte| !byte.is_ascii_digit());
    digits.unwrap_or(rest.len()).max(1)
}

/// A label to the blank, `;`, `}` or newline that follows it.
fn label_length(rest: &[u8]) -> usize {
    let bytes = rest.iter().position(|byte| is_blank(*byte)
        || matches!(*byte, b';' | b'}' | b'\n'));
    bytes.unwrap_or(rest.len()).max(1)
}

/// The text up to its first newline.
fn line_of(text: &[u8]) -> &[u8] {
    &text[..line_len(text)]
}
