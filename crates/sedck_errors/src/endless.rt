//! How the message of a loop ends: what is known of its runs.

use crate::certain::never_ends;
use sedck_endless::{drawn_lines, endless_input};
use sedck_script::{Script, Verb};
use sedck_search::Walk;
use std::alloc::{AllocError, Global};

/// With what the lines of the input end.
#[derive(Clone, Copy, PartialEq, Eq)]
pub enum LineEnd {
    /// A newline.
    Newline,
    /// A byte 0, as with `-z`.
    Zero,
}

/// Adds what is known: that the loop never ends once it is entered, lines on which the script never ends, or that it may run forever.
pub(crate) fn add_ending(
    alloc: Global,
    message: &mut String,
    script: &Script,
    walk: &Walk,
    line_end: LineEnd,
) -> Result<(), AllocError> {
    let is_certain = never_ends(script, walk);
    if is_certain {
        message.push_str("it never ends once it is entered")?;
    }
    let drawn = if is_searched(script, line_end) {
        drawn_lines(alloc, script)?
    } else {
        Vec::new(alloc)
    };
    match endless_input(alloc, script, &drawn)? {
        Some(lines) => {
            message.push_str(if is_certain { ", and " } else { "" })?;
            add_lines(message, &lines, line_end)
        }
        None if is_certain => Ok(()),
        None => message.push_str("it may run forever"),
    }
}

/// Whether a run on lines with such ends is one on lines that end with newlines: else a command mustn't put an end between two lines, or
/// look for one.
fn is_searched(script: &Script, line_end: LineEnd) -> bool {
    match line_end {
        LineEnd::Newline => true,
        LineEnd::Zero => !script
            .commands()
            .iter()
            .any(|command| is_about_ends(&command.verb)),
    }
}

fn is_about_ends(verb: &Verb) -> bool {
    matches!(
        verb,
        Verb::GetAppend
            | Verb::HoldAppend
            | Verb::NextAppend
            | Verb::DeleteFirstLine
            | Verb::PrintFirstLine
    )
}

/// Adds that the script never ends on these lines, of which there are one or two. A search knows nothing of other locales.
fn add_lines(message: &mut String, lines: &[&[u8]], line_end: LineEnd) -> Result<(), AllocError> {
    let is_one = lines.len() == 1;
    message.push_str("in the POSIX locale the script never ends on the line")?;
    message.push_str(if is_one { " " } else { "s " })?;
    for (index, line) in lines.iter().enumerate() {
        if index > 0 {
            message.push_str(" and ")?;
        }
        add_line(message, line)?;
    }
    message.push_str(match (line_end, is_one) {
        (LineEnd::Newline, true) => " with a newline",
        (LineEnd::Newline, false) => " with newlines",
        (LineEnd::Zero, true) => " with a byte 0",
        (LineEnd::Zero, false) => " with bytes 0",
    })
}

/// Adds a line, which is printable ASCII without quotes.
fn add_line(message: &mut String, line: &[u8]) -> Result<(), AllocError> {
    message.push('`')?;
    for byte in line {
        message.push(char::from(*byte))?;
    }
    message.push('`')
}
