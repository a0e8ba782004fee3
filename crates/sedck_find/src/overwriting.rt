//! Calls whose output goes to a file that they read, or for which the shell empties one: `sed p f > f`.

use crate::script::Around;
use crate::units::is_one_in;
use crate::words::STANDARD;
use sedck_call::{CallOption, Given};
use sedck_found::{FoundScript, Overwritten};
use sedck_shell::{ShellCommand, ShellWord, Target};

/// The most redirections and operands of a call that are looked at, so that the time stays linear.
const MOST: usize = 100;

/// A file that the command opens for writing, which is this call, if the call reads it: one to which its output goes, or that the shell
/// empties. That is so where an operand or the input is the same word in the file.
pub(crate) fn overwritten_by(
    file: &[u8],
    command: &ShellCommand,
    script: &FoundScript,
    around: Around<'_>,
) -> Option<Overwritten> {
    let FoundScript::Text { call, .. } = script else {
        return None;
    };
    // With -i no line goes to the output.
    let has_no_output = call.given.iter().any(is_in_place);
    for target in command.targets.iter().take(MOST) {
        let (start, end) = place_of_word(&target.word);
        let name = file.get(start..end).unwrap_or(&[]);
        let mut is_standard = call.inputs.is_empty();
        let mut is_read = false;
        for number in call.inputs.iter().take(MOST) {
            if let Some(word) = around.words.get(*number) {
                is_read |= file.get(word.place.start..word.place.end) == Some(name);
                is_standard |= is_one_in(&word.traced.bytes, STANDARD);
            }
        }
        if let Some(source) = command.source.as_ref().filter(|_| is_standard) {
            let (start, end) = place_of_word(source);
            is_read |= file.get(start..end) == Some(name);
        }
        let is_written = target.is_emptied || (target.is_output && !has_no_output);
        // A command may give another name each time.
        if is_read && is_written && !name.iter().any(|byte| b"(`*?[".contains(byte)) {
            return Some(overwritten(target));
        }
    }
    None
}

/// The file of the redirection.
fn overwritten(target: &Target) -> Overwritten {
    let (start, end) = place_of_word(&target.word);
    let first = target.word.units.first();
    Overwritten {
        start: first.map_or(start, |first| first.start()),
        end,
        is_emptied: target.is_emptied,
        is_output: target.is_output,
    }
}

/// Where the file has the word.
fn place_of_word(word: &ShellWord) -> (usize, usize) {
    let end = word.units.last().map_or(word.start, |last| last.end());
    (word.start, end)
}

/// Whether an option has the operands overwritten.
fn is_in_place(item: &Given) -> bool {
    matches!(
        *item,
        Given::Alone(CallOption::InPlace | CallOption::InPlaceSuffix, _)
            | Given::With(CallOption::InPlace | CallOption::InPlaceSuffix, _)
    )
}
