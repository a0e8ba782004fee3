//! Findings and positions in JSON.

use crate::json_text::Json;
use crate::listed::is_listed;
use crate::names::{Names, Place};
use crate::pages::{page_of, page_words};
use crate::words::level_word;
use sedck_answer::Explanation;
use sedck_parts::delimited;
use sedck_report::{Finding, Fix, Level, NewText, Position, Step};
use std::alloc::{AllocError, Global};
use std::str;

/// What explains that a script can't be read.
const UNREADABLE_PAGE: &str = "FORMATS.md#the-formats-and-statuses-of-sedck-explain";

/// Adds the findings of at least this level.
pub(crate) fn push_findings(out: &mut Json, names: Names, explanation: &Explanation, least: Level) {
    out.list("findings");
    for finding in &explanation.findings {
        if is_listed(finding, least) {
            push_finding(out, names, finding, explanation.text);
        }
    }
    out.close("]");
}

/// Adds the list of the one finding that a script can't be read.
pub(crate) fn push_unreadable(out: &mut Json, message: &str) {
    out.list("findings")
        .open()
        .text("level", level_word(Level::Error))
        .text("code", "unreadable")
        .text("message", message)
        .null("hint")
        .null("position");
    out.list("steps")
        .close("]")
        .text("page", UNREADABLE_PAGE)
        .null("end")
        .null("fix")
        .close("}]");
}

/// Adds a finding.
///
/// - `level`: `error`, `warning` or `note`.
/// - `code`: a name that stays the same, such as `bad-flag`.
/// - `message`: a sentence without its full stop.
/// - `hint`: what to write instead; null where there is none.
/// - `position`: null where it is of the certificate, or of the script as a whole.
/// - `steps`: those of a loop, or the ends of an edge.
/// - `page`: the page that explains the finding, and its heading: a link from the folder `docs`.
/// - `end`: the first byte after what is meant; null where it is unknown.
/// - `fix`: a change of the script that mends it; null where there is none.
fn push_finding(out: &mut Json, names: Names, finding: &Finding, script: &[u8]) {
    out.open()
        .text("level", level_word(finding.level))
        .text("code", finding.code.name())
        .text("message", finding.message.as_str())
        .text_or_null("hint", finding.hint);
    push_place(out, "position", names, finding.position);
    out.list("steps");
    for step in &finding.steps {
        push_step(out, names, step);
    }
    let page = page_words(out.alloc(), page_of(finding));
    out.close("]").words("page", page);
    push_place(out, "end", names, finding.end);
    push_fix(out, names, finding.fix, script);
    out.close("}");
}

/// Adds the text to write in place of a part of the script, whose `end` is the first byte after it.
fn push_fix(out: &mut Json, names: Names, fix: Option<Fix>, script: &[u8]) {
    let Some(fix) = fix else {
        out.null("fix");
        return;
    };
    let Fix { start, end, .. } = fix;
    out.object("fix");
    push_place(out, "start", names, Some(start));
    push_place(out, "end", names, Some(end));
    push_new_text(out, "text", fix, script);
    out.close("}");
}

/// Adds a member that is the text of the fix of a script.
pub(crate) fn push_new_text(out: &mut Json, key: &str, fix: Fix, script: &[u8]) {
    let Fix { start, end, text } = fix;
    match text {
        NewText::Plain(text) => out.text(key, text),
        NewText::Group(inside) => {
            let text = format!(in out.alloc(); "\\({inside}\\)");
            out.words(key, text)
        }
        NewText::Delimited { other, is_bare } => {
            let part = script.get(start.offset..end.offset).unwrap_or(&[]);
            let text = delimited_text(out.alloc(), part, other, is_bare);
            out.words(key, text)
        }
    };
}

/// A command in ASCII with this delimiter.
fn delimited_text(
    alloc: Global,
    part: &[u8],
    other: u8,
    is_bare: bool,
) -> Result<String, AllocError> {
    let bytes = delimited(alloc, part, other, is_bare)?;
    String::from_str(alloc, str::from_utf8(&bytes).unwrap_or(""))
}

/// Adds a step of a loop or along an edge.
///
/// - `command`: the command's number, from 0; the number of commands for the script's end.
/// - `flag`: the flag that `t` tests.
/// - `last`: no line is left to read.
/// - `kind`: `consume`, `shorten`, `keep` or `grow`; null where the node is only reached.
/// - `position`: null for the script's end.
fn push_step(out: &mut Json, names: Names, step: &Step) {
    out.open()
        .number("command", u64::from(step.node.at))
        .boolean("flag", step.node.flag)
        .boolean("last", step.node.last);
    match step.kind {
        Some(kind) => out.words("kind", format!(in out.alloc(); "{kind}")),
        None => out.null("kind"),
    };
    out.text("message", step.message.as_str());
    push_place(out, "position", names, step.position);
    out.close("}");
}

/// Adds a list of positions.
pub(crate) fn push_positions(out: &mut Json, key: &str, names: Names, positions: &[Position]) {
    out.list(key);
    for position in positions {
        out.open();
        push_members(out, names, *position);
    }
    out.close("]");
}

/// Adds the position, or null.
pub(crate) fn push_place(out: &mut Json, key: &str, names: Names, position: Option<Position>) {
    let Some(position) = position else {
        out.null(key);
        return;
    };
    out.object(key);
    push_members(out, names, position);
}

/// Adds what says which byte it is, and ends the object.
///
/// - `offset`: in bytes, from 0, in the whole script.
/// - `line`: from 1, in the part.
/// - `column`: in bytes, from 1.
/// - `part`: the part of a call's script in which it is; null where the script is a file.
fn push_members(out: &mut Json, names: Names, position: Position) {
    let Place { name, line, column } = names.place_of(position);
    let part = (names.part_count() > 0).then_some(name);
    out.number("offset", position.offset as u64)
        .number("line", line as u64)
        .number("column", column as u64)
        .text_or_null("part", part)
        .close("}");
}
