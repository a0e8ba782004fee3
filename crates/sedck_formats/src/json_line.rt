//! JSON objects, each on a line: for a script, for a call of sed in a file, and for all calls. Members stay, with their meaning; others may
//! be added.

ghost use Rattle.std.specs.Prelude.{IfOk};
ghost use Rattle.std.specs.Str.{IsAscii};
ghost use Rattle.sedck_report.specs.Ascii.{IsPrintableLine};

use crate::answers::answer_word;
use crate::call_words::CallAt;
use crate::conditions::KINDS;
use crate::counts::Counts;
use crate::json_findings::{push_findings, push_place, push_positions, push_unreadable};
use crate::json_text::Json;
use crate::names::Names;
use crate::words::VERSION;
use sedck_answer::{Answer, Explanation, Status};
use sedck_cert::{Bound, Limits};
use sedck_report::{Level, NamedFile, shown_name};
use std::alloc::{AllocError, Global};

/// The object on a line, in ASCII, with the findings of at least this level.
///
/// - `file`: the script's path, or the name of the call. A byte that isn't a part of UTF-8 is `\0`, which no path has, and its two
///   digits.
/// - `status`: the exit status for this script: 0 for accepted, 1 for rejected, a loop or denied, 2 for a refused text or a script
///   that isn't judged, 4 for a script that can't be read.
/// - `answer`: `accepted`, `denied`, `rejected`, `loop`, `script-refused`, `certificate-refused`, `not-judged` or `unreadable`.
pub fn json_report(
    alloc: Global,
    names: Names,
    explanation: &Explanation,
    least: Level,
) -> Result<Vec<u8>, AllocError>
    ensures ascii { IfOk result (λ line. IsAscii line.items) }
    ensures line { IfOk result (λ line. IsPrintableLine line.items) }
{
    let mut out = Json::new(alloc);
    out.open().text("file", names.whole());
    push_answer(
        &mut out,
        names,
        explanation,
        answer_word(explanation),
        least,
    );
    out.finished()
}

/// The object on a line, in ASCII, for a script that can't be read. The message says which file can't be, and why.
pub fn json_unreadable(alloc: Global, name: &str, message: &str) -> Result<Vec<u8>, AllocError>
    ensures ascii { IfOk result (λ line. IsAscii line.items) }
    ensures line { IfOk result (λ line. IsPrintableLine line.items) }
{
    let mut out = Json::new(alloc);
    out.open()
        .text("file", name)
        .status(Status::Failed)
        .text("answer", "unreadable")
        .null("bound")
        .null("bound_by_lines")
        .null("space_bound");
    out.list("reads").close("]").list("writes").close("]");
    push_unreadable(&mut out, message);
    out.list("commands").close("]");
    out.text("version", VERSION).close("}");
    out.finished()
}

/// The object of a call on a line, in ASCII, with the findings of at least this level. Positions are those of the file.
///
/// - `file`: the file's path.
/// - `call`: where the command's name is.
/// - `words`: the words after the name, in the form of a file's name; what is unknown is `x`.
/// - `status`: 0 for accepted, 1 for a loop or denied, 2 for a refused script or one that isn't judged, 5 for what is unknown before
///   a run.
/// - `answer`: as of a script, or `accepted-if` or `unknown`.
pub fn json_call(
    alloc: Global,
    call: CallAt,
    explanation: &Explanation,
    least: Level,
) -> Result<Vec<u8>, AllocError>
    ensures ascii { IfOk result (λ line. IsAscii line.items) }
    ensures line { IfOk result (λ line. IsPrintableLine line.items) }
{
    let names = Names::of_file(call.file);
    let mut out = Json::new(alloc);
    out.open().text("file", call.file);
    push_place(&mut out, "call", names, Some(call.position));
    push_texts(&mut out, "words", &call.words);
    push_answer(
        &mut out,
        names,
        explanation,
        answer_word(explanation),
        least,
    );
    out.finished()
}

/// The object of a place that isn't understood, as that of a call without `call` and `words`: its `answer` is `not-understood`, and its
/// finding says where it begins.
pub fn json_place(
    alloc: Global,
    file: &str,
    explanation: &Explanation,
    least: Level,
) -> Result<Vec<u8>, AllocError>
    ensures ascii { IfOk result (λ line. IsAscii line.items) }
    ensures line { IfOk result (λ line. IsPrintableLine line.items) }
{
    let names = Names::of_file(file);
    let mut out = Json::new(alloc);
    out.open().text("file", file);
    push_answer(&mut out, names, explanation, "not-understood", least);
    out.finished()
}

/// Adds a list of texts.
fn push_texts(out: &mut Json, key: &str, texts: &[String]) {
    out.list(key);
    for text in texts {
        out.item(text.as_str());
    }
    out.close("]");
}

/// The object of the counts on a line, in ASCII.
///
/// - `files`: those in which calls were looked for.
/// - `unread`: places where a file wasn't understood, and reading went on at a next line.
/// - `scripts`: scripts in files of their own, which are below a folder.
/// - `unreadable`: files and folders that can't be read.
/// - `status`: the exit status.
/// - `files_accepted`, `files_accepted_if`, `files_other`: of the files with calls, or with places that aren't understood, those in which all
///   calls are accepted, those in which they are under conditions, and the others.
/// - `conditions`: for each kind how many conditions there are, each counted once in a file, and how many calls depend on such ones.
/// - `assumed`: the variables as `--assume` has them, and those of sets, in the form of a file's name.
pub fn json_counts(
    alloc: Global,
    counts: Counts,
    assumed: &[String],
    status: Status,
) -> Result<Vec<u8>, AllocError>
    ensures ascii { IfOk result (λ line. IsAscii line.items) }
    ensures line { IfOk result (λ line. IsPrintableLine line.items) }
{
    let mut out = Json::new(alloc);
    push_counts(&mut out, &counts);
    out.status(status).text("version", VERSION);
    push_conditions(&mut out, &counts);
    push_texts(&mut out, "assumed", assumed);
    out.close("}");
    out.finished()
}

/// Adds on what calls depend.
fn push_conditions(out: &mut Json, counts: &Counts) {
    out.list("conditions");
    for (count, (_, name)) in counts.conditions.iter().zip(KINDS.iter()) {
        if count.conditions > 0 {
            out.open()
                .text("kind", name)
                .number("conditions", count.conditions as u64)
                .number("calls", count.calls as u64)
                .close("}");
        }
    }
    out.close("]");
}

/// Begins the object with the counts.
fn push_counts(out: &mut Json, counts: &Counts) {
    out.open()
        .number("calls", counts.calls as u64)
        .number("files", counts.files as u64)
        .number("accepted", counts.accepted as u64)
        .number("accepted_if", counts.accepted_if as u64)
        .number("denied", counts.denied as u64)
        .number("loops", counts.loops as u64)
        .number("refused", counts.refused as u64)
        .number("not_judged", counts.not_judged as u64)
        .number("unknown", counts.unknown as u64)
        .number("unread", counts.unread as u64)
        .number("scripts", counts.scripts as u64)
        .number("unreadable", counts.unreadable as u64)
        .number("files_accepted", counts.all_accepted as u64)
        .number("files_accepted_if", counts.all_accepted_if as u64)
        .number("files_other", counts.others as u64);
}

/// Adds the status, the answer and what belongs to it, and ends the object.
///
/// - `bound`: the limit on the steps of any run, by bytes and lines; null where there is none, or where the script isn't accepted.
/// - `bound_by_lines`: the same by lines alone, which is never more than `bound`.
/// - `space_bound`: the limit on the bytes of the pattern space, and on those of the hold space.
/// - `reads`, `writes`: the files, sorted by name. Empty where the script is refused.
/// - `findings`: those of the level that is asked for: errors first, then warnings and notes.
/// - `commands`: where the verb of each command is; a step's `command` counts in this list, from 0. Empty where the script is refused.
/// - `version`: the program's.
fn push_answer(
    out: &mut Json,
    names: Names,
    explanation: &Explanation,
    answer: &str,
    least: Level,
) {
    out.status(explanation.status).text("answer", answer);
    push_bounds(out, &explanation.answer);
    push_files(out, "reads", names, &explanation.reads);
    push_files(out, "writes", names, &explanation.writes);
    push_findings(out, names, explanation, least);
    push_positions(out, "commands", names, &explanation.positions);
    out.text("version", VERSION).close("}");
}

/// Adds the limits, which are null where the script isn't accepted.
fn push_bounds(out: &mut Json, answer: &Answer) {
    let limits = match answer {
        Answer::Accepted { limits, .. } => *limits,
        _ => Limits {
            steps: None,
            by_lines: None,
            spaces: None,
        },
    };
    push_bound(out, "bound", limits.steps);
    push_bound(out, "bound_by_lines", limits.by_lines);
    push_bound(out, "space_bound", limits.spaces);
}

/// Adds a limit: no run has more than `per_byte` * bytes + `per_line` * lines + `fixed` steps, or bytes in a space, newlines not counted.
fn push_bound(out: &mut Json, name: &str, bound: Option<Bound>) {
    let Some(bound) = bound else {
        out.null(name);
        return;
    };
    let Bound {
        per_byte,
        per_line,
        fixed,
    } = bound;
    out.object(name)
        .number("per_byte", per_byte)
        .number("per_line", per_line)
        .number("fixed", fixed)
        .close("}");
}

/// Adds the files, each with the commands that name it, in order. In a name a backslash is `\\`, a double quote `\"`, and a backquote
/// or a byte that isn't printable ASCII is `\x` and two digits.
fn push_files(out: &mut Json, key: &str, names: Names, files: &[NamedFile]) {
    out.list(key);
    for file in files {
        let name = shown_name(out.alloc(), file.name);
        out.open().words("name", name);
        push_positions(out, "positions", names, &file.positions);
        out.close("}");
    }
    out.close("]");
}
