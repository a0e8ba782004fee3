//! The calls of a file, explained one after another.

ghost use Rattle.std.specs.Prelude.{◌≡◌, IfOk};
ghost use Rattle.sedck_report.specs.Positions.{position_in};
ghost use Rattle.sedck_calls_in_files.specs.Scanned.{asked_of, IsWorst, TextStatus, unread_status};

use crate::answers::{call_report, path_report, write_report};
use crate::conditions::Conditions;
use crate::finder::Finder;
use crate::judging::{explain_found, explain_unread};
use crate::request::FileScan;
use crate::unread_words::{is_word, report_words};
use sedck_cert::streams::Sink;
use sedck_explanation::{Position, Status, Unexplained, position_at, position_from};
use sedck_formats::{CallAnswer, Counts};
use sedck_found::FoundCall;

/// Explains each call that is found in the file, writes the reports, counts the answers, and answers the worst status. Before
/// them each place is reported that isn't understood, which is unknown before a run.
pub fn explain_text<F: Finder, W: Sink>(
    asked: &FileScan,
    finder: &F,
    counts: &mut Counts,
    out: &mut W,
) -> Result<Status, Unexplained>
    ensures { IfOk result (TextStatus (F.found finder.now asked.now.file.path.now asked.now.file.text.now) (asked_of asked.now.scan.now) asked.now.file.text.now) }
{
    let found = finder.find(asked.alloc, &asked.file, asked.scan.assumed)?;
    counts.files = counts.files.saturating_add(1);
    counts.unread = counts.unread.saturating_add(found.unread.len());
    let status = report_places(asked, &found.unread, &found.words, out)?;
    explain_calls(asked, status, &found.calls, counts, out)
}

/// Writes a report for each of these places of the file, which aren't understood, and one for those of them that are these words, and
/// answers the status of all.
fn report_places<W: Sink>(
    asked: &FileScan,
    places: &[usize],
    words: &[usize],
    out: &mut W,
) -> Result<Status, Unexplained>
    ensures { IfOk result (λ status. status ≡ unread_status places.now) }
{
    let text = asked.file.text;
    let mut position = position_at(text, 0);
    for offset in places {
        if is_word(words, *offset) {
            continue;
        }
        position = call_position(text, position, *offset);
        let explanation = explain_unread(asked.alloc, text, position)?;
        write_report(
            out,
            path_report(asked.alloc, asked.scan, asked.file.path, &explanation, true),
        )?;
    }
    report_words(asked, words, out)?;
    Ok(status_of_places(places))
}

/// The status of a file with these places that aren't understood, before its calls.
fn status_of_places(places: &[usize]) -> Status
    ensures { result ≡ unread_status places.now }
{
    match places {
        [] => Status::Accepted,
        [_, ..] => Status::Unknown,
    }
}

/// Explains each of the calls, which were found in the file, writes the reports, counts the answers, and answers the status that tells
/// most, of theirs and of this one.
pub fn explain_calls<W: Sink>(
    asked: &FileScan,
    known: Status,
    calls: &[FoundCall],
    counts: &mut Counts,
    out: &mut W,
) -> Result<Status, Unexplained>
    ensures { IfOk result (IsWorst asked.now.file.text.now (asked_of asked.now.scan.now) known calls.now) }
{
    let text = asked.file.text;
    let mut conditions = Conditions::of(asked, calls, counts)?;
    let before = *counts;
    let mut status = known;
    let mut position = position_at(text, 0);
    for call in calls {
        position = call_position(text, position, call.start);
        let explanation = explain_found(asked.alloc, text, position, call, asked.scan)?;
        counts.add(CallAnswer::of(&explanation));
        status = status.worse(explanation.status);
        let reported = conditions.reported_once(explanation)?;
        write_report(out, call_report(asked, position, call, &reported))?;
    }
    counts.end_file(before, !known.is_accepted());
    Ok(status)
}

/// The position of the offset, by one that mostly isn't after it.
pub(crate) fn call_position(text: &[u8], known: Position, offset: usize) -> Position
    requires { known ≡ position_in text.now known.offset }
    ensures { result ≡ position_in text.now result.offset }
{
    if offset < known.offset {
        return position_at(text, offset);
    }
    position_from(text, known, offset)
}
