//! Scripts that are read as POSIX has them, and look as if something else was meant.

ghost use Rattle.std.specs.Prelude.{◌≡◌, false, OnOk};
ghost use Rattle.sedck_report.specs.Levels.{is_error, is_locale};
ghost use Rattle.sedck_advice.specs.Added.{AddsOthers};

use crate::bytes::{after_any, byte_at, ends_word, first_line, is_among, without_blanks};
use crate::comments::silencing;
use crate::extended::extended_in;
use sedck_call::last_part;
use sedck_parts::{Place, Reading};
use sedck_report::{
    Code, Finding, Fix, Level, NewText, Position, end_behind, position_at, positions, skipped,
};
use sedck_script::Location;
use std::alloc::{AllocError, Global};

/// What is said of a place in a script.
#[derive(Clone, Copy)]
pub(crate) struct Look {
    pub position: Position,
    pub end: Option<Position>,
    pub code: Code,
    pub message: &'static str,
    pub hint: &'static str,
    pub fix: Option<Fix>,
    ghost other: { is_locale code ≡ false },
}

impl Look {
    /// A note where all that is read so otherwise is a label, else a warning.
    fn level(self) -> Level
        ensures { is_error result ≡ false }
    {
        match self.code {
            Code::LabelToTheLineEnd | Code::LongLabels => Level::Note,
            _ => Level::Warning,
        }
    }
}

/// Adds a warning or a note for each of them.
pub(crate) fn push_looks(
    alloc: Global,
    findings: &mut Vec<Finding>,
    looks: &[Look],
) -> Result<(), AllocError>
    ensures { OnOk result (AddsOthers findings.old.items findings.new.items) }
{
    for look in looks {
        let message = String::from_str(alloc, look.message)?;
        let mut finding = Finding::new(alloc, look.level(), look.code, message);
        finding.position = Some(look.position);
        finding.end = look.end;
        finding.hint = Some(look.hint);
        finding.fix = look.fix;
        findings.push(finding)?;
    }
    Ok(())
}

/// Of options in the first line, of each `}` after a label, of each comment that begins with an `n`, and of the first text on the line of
/// its command and the first expression that looks like an extended one: where one is written so, all are.
pub(crate) fn looks_of(
    alloc: Global,
    text: &[u8],
    locations: &[Location],
) -> Result<Vec<Look>, AllocError> {
    let mut looks = Vec::new(alloc);
    if has_options(text) {
        looks.push(options_look(text))?;
    }
    for position in &positions(alloc, text, &braces(alloc, text, locations)?)? {
        looks.push(brace_look(*position))?;
    }
    for position in &positions(alloc, text, &silencing(alloc, text)?)? {
        looks.push(comment_look(text, *position))?;
    }
    push_any(&mut looks, text_look(text, locations))?;
    if let Some(offset) = extended_in(alloc, text, locations)? {
        let is_dollar = byte_at(text, offset) == b'$';
        let position = position_at(text, offset);
        looks.push(if is_dollar {
            dollar_look(position)
        } else {
            extended_look(position)
        })?;
    }
    Ok(looks)
}

/// Adds what is said, if anything is.
pub(crate) fn push_any(looks: &mut Vec<Look>, look: Option<Look>) -> Result<(), AllocError> {
    if let Some(look) = look {
        looks.push(look)?;
    }
    Ok(())
}

/// What is said of options in the first line.
fn options_look(text: &[u8]) -> Look {
    let start = position_at(text, 0);
    Look {
        position: start,
        end: Some(end_behind(text, start, text.len())),
        code: Code::OptionsInFirstLine,
        message: "this line gives sed options other than -n and -f, or a file after -f, and nothing is known of runs with them",
        hint: "with `-E` the expressions mean something else, `-i` writes files, `-s` and `-z` divide the input differently",
        fix: None,
    }
}

/// What is said of a `}` that follows a label.
fn brace_look(position: Position) -> Look {
    Look {
        position,
        end: None,
        code: Code::BraceBehindLabel,
        message: "BusyBox reads this as part of the label, so that the block isn't closed",
        hint: "write a `;` or a newline before the `}`",
        fix: Some(Fix {
            start: position,
            end: position,
            text: NewText::Plain(";"),
        }),
    }
}

/// What is said of a comment that begins with an `n`. At the start of a script GNU sed takes it for `#n` too: no mend keeps both readings.
fn comment_look(text: &[u8], position: Position) -> Look {
    let end = end_behind(text, position, 2);
    if position.offset == 0 {
        return Look {
            position,
            end: Some(end),
            code: Code::SilencingComment,
            message: "GNU sed and BusyBox take this line for `#n`, and print no line on their own; other seds print",
            hint: "if a comment is meant, insert a blank after the `#`; else write `#n` and nothing else on the first line",
            fix: None,
        };
    }
    let mark = end_behind(text, position, 1);
    Look {
        position,
        end: Some(end),
        code: Code::SilencingComment,
        message: "BusyBox takes this comment for `#n`, and prints no line on its own",
        hint: "insert a blank after the `#`",
        fix: Some(Fix {
            start: mark,
            end: mark,
            text: NewText::Plain(" "),
        }),
    }
}

/// What is said of the first text on the line of its command.
fn text_look(text: &[u8], locations: &[Location]) -> Option<Look> {
    for location in locations {
        let command = text.get(location.verb..location.end).unwrap_or(&[]);
        let given = without_blanks(skipped(command, 1));
        if is_among(byte_at(command, 0), "aci") && !given.starts_with(b"\\\n") {
            return Some(given_look(text, location.verb, given));
        }
    }
    None
}

/// The same of this text of this verb. Where it begins with a backslash, `sed --posix` takes it.
fn given_look(text: &[u8], verb: usize, given: &[u8]) -> Look {
    let message = if given.starts_with(b"\\") {
        "seds that know the form of the standard alone refuse a text on the line of its command"
    } else {
        "`sed --posix`, and seds that know the form of the standard alone, refuse a text on the line of its command"
    };
    Look {
        position: position_at(text, verb),
        end: None,
        code: Code::OneLineText,
        message,
        hint: standing_text(byte_at(text, verb)),
        fix: None,
    }
}

/// How the text of this verb is written on a line of its own.
fn standing_text(verb: u8) -> &'static str {
    match verb {
        b'c' => "write `c\\`, a newline and the text",
        b'i' => "write `i\\`, a newline and the text",
        _ => "write `a\\`, a newline and the text",
    }
}

/// What is said of a sign of an extended expression.
fn extended_look(position: Position) -> Look {
    Look {
        position,
        end: None,
        code: Code::LooksExtended,
        message: "in a basic regular expression this is an ordinary character: is the script meant for `sed -E`?",
        hint: "write `\\(` and `\\)` for a group, `\\{1,\\}` for `+`, `\\{0,1\\}` for `?` and `\\{3\\}` for `{3}`; there is no `|`. If the character \
            is meant, put it into a bracket list, as in `[+]`",
        fix: None,
    }
}

/// What is said of a `$` that stands for itself before a `)` or a bar.
fn dollar_look(position: Position) -> Look {
    Look {
        position,
        end: None,
        code: Code::LooksExtended,
        message: "this `$` is an ordinary character, but GNU sed takes one before a `)` or a bar for an anchor, and finds nothing here",
        hint: "write `[$]` where the character is meant, and `\\(` and `\\)` for a group",
        fix: None,
    }
}

/// Whether the first line calls sed with other options than `-n` and `-f`, or with a file after `-f`.
fn has_options(text: &[u8]) -> bool {
    if !text.starts_with(b"#!") {
        return false;
    }
    let mut is_behind = false;
    for word in first_line(text).split(ends_word) {
        if is_behind && is_option(word) {
            return true;
        }
        is_behind = is_behind || is_sed(word);
    }
    false
}

/// Whether the word is the path of a sed, as `/usr/bin/gsed` and `/opt/sed-4.9` are.
fn is_sed(word: &[u8]) -> bool {
    word.ends_with(b"sed") || last_part(word).starts_with(b"sed")
}

/// Whether the word is an option other than `-n` and `-f`. What follows an `f` is the name of a file.
fn is_option(word: &[u8]) -> bool {
    let last = after_any(skipped(word, 1), "n");
    word.starts_with(b"-") && !last.is_empty() && last != b"f".as_slice()
}

/// Where branches end in a `}` that some seds take for a part of the label.
fn braces(alloc: Global, text: &[u8], locations: &[Location]) -> Result<Vec<usize>, AllocError> {
    let mut offsets = Vec::new(alloc);
    for location in locations {
        let command = text.get(location.verb..location.end).unwrap_or(&[]);
        let end = Reading::SCRIPT.through(command).place;
        let is_joined = matches!(end, Place::LabelBegin | Place::Label);
        if is_joined && byte_at(text, location.end) == b'}' {
            offsets.push(location.end)?;
        }
    }
    Ok(offsets)
}
