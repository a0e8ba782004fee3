//! A log in SARIF 2.1.0 for a script, for hosts of code. What is absent is left out, as its schema wants it.

ghost use Rattle.std.specs.Prelude.{IfOk};
ghost use Rattle.std.specs.Str.{IsAscii};
ghost use Rattle.sedck_report.specs.Ascii.{IsPrintableLine};

use crate::columns::Columns;
use crate::json_findings::push_new_text;
use crate::json_text::Json;
use crate::listed::is_listed;
use crate::names::{Names, Place};
use crate::words::{VERSION, level_word};
use percent_encoding::{AsciiSet, NON_ALPHANUMERIC, ascii_set, utf8_percent_encode};
use sedck_answer::Explanation;
use sedck_report::{Code, Finding, Fix, Level, Page, Position, Step, end_behind};
use std::alloc::{AllocError, Global};

/// Where the schema of the format is.
const SCHEMA: &str = "https://json.schemastore.org/sarif-2.1.0.json";

/// The script's names, its text, and the columns of its lines.
#[derive(Clone, Copy)]
struct Script<'a> {
    names: Names<'a>,
    text: &'a [u8],
    columns: &'a Columns,
}

/// The log on a line, in ASCII, with the findings of at least this level.
pub fn sarif_report(
    alloc: Global,
    names: Names,
    explanation: &Explanation,
    least: Level,
) -> Result<Vec<u8>, AllocError>
    ensures ascii { IfOk result (λ line. IsAscii line.items) }
    ensures line { IfOk result (λ line. IsPrintableLine line.items) }
{
    let columns = Columns::of(alloc, explanation.text)?;
    let script = Script {
        names,
        text: explanation.text,
        columns: &columns,
    };
    let codes = codes_of(alloc, &explanation.findings, least)?;
    let mut out = Json::new(alloc);
    push_run(&mut out, &codes);
    out.list("results");
    for finding in &explanation.findings {
        if is_listed(finding, least) {
            push_result(&mut out, script, &codes, finding);
        }
    }
    out.close("]}]}");
    out.finished()
}

/// The codes of the findings that are listed, each once.
fn codes_of(alloc: Global, findings: &[Finding], least: Level) -> Result<Vec<Code>, AllocError> {
    let mut codes = Vec::new(alloc);
    for finding in findings {
        if is_listed(finding, least) && index_of(&codes, finding.code).is_none() {
            codes.push(finding.code)?;
        }
    }
    Ok(codes)
}

/// The index of the code, by its name.
fn index_of(codes: &[Code], code: Code) -> Option<usize> {
    codes.iter().position(|known| known.is_named_as(code))
}

/// Begins the log and its one run: the program, with a rule for each code. A column counts characters.
fn push_run(out: &mut Json, codes: &[Code]) {
    out.open().text("$schema", SCHEMA).text("version", "2.1.0");
    out.list("runs").open();
    out.object("tool")
        .object("driver")
        .text("name", "sedck-explain")
        .text("version", VERSION)
        .list("rules");
    for code in codes {
        push_rule(out, *code);
    }
    out.close("]}}").text("columnKind", "unicodeCodePoints");
}

/// Adds the rule of the code: its name, what it means, and the page that explains it. The page has no address of its own, so that there is
/// no `helpUri`.
fn push_rule(out: &mut Json, code: Code) {
    let alloc = out.alloc();
    let meaning = code.meaning();
    let Page { file, heading } = code.page();
    out.open()
        .text("id", code.name())
        .message("shortDescription", meaning);
    let full = format!(in alloc; "{meaning}. The page docs/{file}#{heading} explains it.");
    out.object("fullDescription").words("text", full).close("}");
    let text = format!(in alloc; "See docs/{file}#{heading}");
    let markdown = format!(in alloc; "See `docs/{file}#{heading}`");
    out.object("help")
        .words("text", text)
        .words("markdown", markdown)
        .close("}}");
}

/// The log for a script that can't be read, on a line, in ASCII: it has no results, and a notification that says which file can't be, and
/// why.
pub fn sarif_unreadable(alloc: Global, name: &str, message: &str) -> Result<Vec<u8>, AllocError>
    ensures ascii { IfOk result (λ line. IsAscii line.items) }
    ensures line { IfOk result (λ line. IsPrintableLine line.items) }
{
    let mut out = Json::new(alloc);
    push_run(&mut out, &[]);
    out.list("invocations").open();
    out.boolean("executionSuccessful", false)
        .list("toolExecutionNotifications")
        .open()
        .object("descriptor")
        .text("id", "unreadable")
        .close("}")
        .text("level", level_word(Level::Error))
        .message("message", message);
    out.list("locations").open().object("physicalLocation");
    push_address(&mut out, name);
    out.close("}}]}]}]").list("results").close("]}]}");
    out.finished()
}

/// Adds a finding: its code, its message with the hint, its place, its steps and its fix.
fn push_result(out: &mut Json, script: Script, codes: &[Code], finding: &Finding) {
    push_message(out, codes, finding);
    out.list("locations").open();
    push_location(out, script, finding.position, finding.end);
    out.close("}]");
    if !finding.steps.is_empty() {
        push_steps(out, script, &finding.steps);
    }
    if let Some(fix) = finding.fix {
        push_fix(out, script, fix);
    }
    out.close("}");
}

/// Begins a finding.
fn push_message(out: &mut Json, codes: &[Code], finding: &Finding) {
    let index = index_of(codes, finding.code).unwrap_or(0);
    out.open()
        .text("ruleId", finding.code.name())
        .number("ruleIndex", index as u64)
        .text("level", level_word(finding.level));
    let message = finding.message.as_str();
    out.object("message");
    match finding.hint {
        Some(hint) => out.words("text", format!(in out.alloc(); "{message}; hint: {hint}")),
        None => out.text("text", message),
    };
    out.close("}");
}

/// Adds the steps of a finding.
fn push_steps(out: &mut Json, script: Script, steps: &[Step]) {
    out.list("codeFlows").open().list("threadFlows").open();
    out.list("locations");
    for step in steps {
        out.open().object("location");
        push_location(out, script, step.position, None);
        out.message("message", step.message.as_str()).close("}}");
    }
    out.close("]}]}]");
}

/// Adds the change of the script that mends it.
fn push_fix(out: &mut Json, script: Script, fix: Fix) {
    let Fix { start, end, .. } = fix;
    out.list("fixes").open().list("artifactChanges").open();
    push_artifact(out, script, Some(start));
    out.list("replacements").open();
    push_region(out, "deletedRegion", script, start, Some(end));
    out.object("insertedContent");
    push_new_text(out, "text", fix, script.text);
    out.close("}}]}]}]");
}

/// Adds what is between the positions, or the script as a whole.
fn push_location(out: &mut Json, script: Script, start: Option<Position>, end: Option<Position>) {
    out.object("physicalLocation");
    push_artifact(out, script, start);
    if let Some(start) = start {
        push_region(out, "region", script, start, end);
    }
    out.close("}");
}

/// Adds the part in which the position is, or the script as a whole. A part that is no file, as `-e 2`, has a relative address as well,
/// `-e%202`.
fn push_artifact(out: &mut Json, script: Script, position: Option<Position>) {
    let name = match position {
        Some(position) => script.names.place_of(position).name,
        None => script.names.whole(),
    };
    push_address(out, name);
}

/// Adds the address of the file with this path.
fn push_address(out: &mut Json, path: &str) {
    let uri = uri_of(out.alloc(), path);
    out.object("artifactLocation").words("uri", uri).close("}");
}

/// Adds what is between the positions, of which the second is the first byte after it; without an end the byte at the start, if there
/// is one in its line. Columns are in characters, offsets in bytes.
fn push_region(out: &mut Json, key: &str, script: Script, start: Position, end: Option<Position>) {
    let end = end.unwrap_or(end_behind(script.text, start, 1));
    let Place { line, .. } = script.names.place_of(start);
    let last = line.saturating_add(end.line.saturating_sub(start.line));
    out.object(key)
        .number("startLine", line as u64)
        .number("startColumn", script.columns.start(start) as u64)
        .number("endLine", last as u64)
        .number("endColumn", script.columns.end(end) as u64);
    // Offsets are those of the whole script, and so mean nothing in a part.
    if script.names.part_count() == 0 {
        let length = end.offset.saturating_sub(start.offset);
        out.number("byteOffset", start.offset as u64)
            .number("byteLength", length as u64);
    }
    out.close("}");
}

/// All but letters, digits and what stays as it is in the path of an address.
const ESCAPED: AsciiSet = ascii_set!(
    NON_ALPHANUMERIC
        .remove(b'-')
        .remove(b'.')
        .remove(b'_')
        .remove(b'~')
        .remove(b'/')
);

/// The path as an address: relative, or of the scheme `file` where it begins with `/`. A path has NUL before the two digits of each byte
/// that isn't a part of UTF-8, and an address `%`.
fn uri_of(alloc: Global, path: &str) -> Result<String, AllocError> {
    let scheme = if path.starts_with('/') { "file://" } else { "" };
    let mut uri = String::from_str(alloc, scheme)?;
    for (index, part) in path.split('\0').enumerate() {
        if index > 0 {
            uri.push('%')?;
        }
        utf8_percent_encode(part, ESCAPED).append_to(&mut uri)?;
    }
    Ok(uri)
}
