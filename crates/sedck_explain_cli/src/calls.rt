//! A call of sed, explained by its words.

ghost use Rattle.std.specs.Prelude.{◌≡◌, ◌≢◌, map, IfOk, OnOk};
ghost use Rattle.sedck_answer.specs.Status.{IsOfAnswer};
ghost use Rattle.sedck_explain_cli.specs.Private.Said.{IsSaid, IsJudgedCall, IsDeliveredUnder};
ghost use Rattle.sedck_explain_cli.specs.Requests.{is_plain};
ghost use Rattle.sedck_explain_cli.specs.Spelled.{IsAnsweredCall};

use crate::delivering::deliver_under;
use crate::format::Style;
use crate::mending::mend_of;
use crate::session::Session;
use sedck_call::{Call, CallFault, Origin, Piece, call_of, joined};
use sedck_calls_in_files::{Named, deliver};
use sedck_cert::streams::Sink;
use sedck_engines::{Opener, RunFault};
use sedck_explanation::{
    Explanation, Finding, Status, Unexplained, explain_called, foreign_findings, has_foreign,
    not_judged, parts_of, position_at, refusal_of,
};
use sedck_formats::PartName;
use sedck_plain::Comments;
use std::alloc::{AllocError, AllocGlobal, Global};
use std::io::Input;

/// What is said of a call, and the names of its script's parts.
#[derive(Drop)]
struct Said<'a> {
    parts: Vec<PartName>,
    explanation: Explanation<'a>,
}

/// Writes what is said of the call of sed with these words after its name, and answers its exit status.
///
/// It is accepted only where its script, its parts joined, is accepted, and its options let sed read it as the model does. Where that is
/// refused, and mends are asked for, the status may be that of another script, under a condition.
pub fn explain_words<R: Input + AllocGlobal, O: Opener, F, W: Sink, E: Sink>(
    session: &Session<R, O, F>,
    words: &[&[u8]],
    out: &mut W,
    err: &mut E,
) -> Result<Status, Unexplained>
    ensures { IfOk result (IsAnsweredCall session.now.request.now.mends (is_plain session.now.request.now.format) (O.known session.now.files.now)
        session.now.request.now.denied (map (λ word. word.now) words.now) (record { before = W.taken out.old; after = W.taken out.new })
        (record { before = E.taken err.old; after = E.taken err.new })) }
{
    let alloc = session.alloc();
    let call = match call_of(alloc, words) {
        Ok(call) => call,
        Err(fault) => {
            let refusal = refused(alloc, words, fault)?;
            return shown(session, words, &refusal, out, err);
        }
    };
    if has_foreign(&call.given) {
        let refusal = foreign(alloc, words, &call)?;
        return shown(session, words, &refusal, out, err);
    }
    let read = parts_of(alloc, session.files, session.rt, words, &call.pieces)?;
    let text = joined(alloc, &read)?;
    let explanation = explain_called(alloc, &text, words, &call, session.request.denied)?;
    let parts = part_names(alloc, session.style(), words, &call.pieces, &read)?;
    let judged = Judged {
        call: &call,
        text: &text,
        said: Said { parts, explanation },
    };
    shown_judged(session, words, judged, out, err)
}

/// A call that is judged: its script, and what is said of it.
#[derive(Drop)]
struct Judged<'a, 'b> {
    call: &'b Call,
    text: &'a [u8],
    said: Said<'a>,
}

/// What is said of words that no sed takes.
fn refused(alloc: Global, words: &[&[u8]], fault: CallFault) -> Result<Said<'static>, Unexplained>
    ensures status { IfOk result (λ said. said.explanation.status ≡ Status.Refused) }
    ensures refused { OnOk result (fault ≢ CallFault.OutOfMemory) }
{
    if matches!(fault, CallFault::OutOfMemory) {
        return Err(Unexplained::OutOfMemory);
    }
    Ok(unjudged(alloc, refusal_of(alloc, words, fault)?))
}

/// What is said of a call with an option of another language.
fn foreign(alloc: Global, words: &[&[u8]], call: &Call) -> Result<Said<'static>, AllocError>
    ensures { IfOk result (λ said. said.explanation.status ≡ Status.Refused) }
{
    Ok(unjudged(alloc, foreign_findings(alloc, words, &call.given)?))
}

/// That a call isn't judged, for these reasons.
fn unjudged(alloc: Global, findings: Vec<Finding>) -> Said<'static>
    ensures { result.explanation.status ≡ Status.Refused }
{
    Said {
        parts: Vec::new(alloc),
        explanation: not_judged(alloc, &[], findings),
    }
}

/// Writes what is said of a call that is judged, or of it with another script, and answers the exit status.
fn shown_judged<R: AllocGlobal, O: Opener, F, W: Sink, E: Sink>(
    session: &Session<R, O, F>,
    words: &[&[u8]],
    judged: Judged,
    out: &mut W,
    err: &mut E,
) -> Result<Status, Unexplained>
    requires { IsJudgedCall (O.known session.now.files.now) session.now.request.now.denied (map (λ word. word.now) words.now)
        judged.call.now judged.text.now judged.said.explanation }
    ensures { IfOk result (IsAnsweredCall session.now.request.now.mends (is_plain session.now.request.now.format) (O.known session.now.files.now)
        session.now.request.now.denied (map (λ word. word.now) words.now) (record { before = W.taken out.old; after = W.taken out.new })
        (record { before = E.taken err.old; after = E.taken err.new })) }
{
    let Judged { call, text, said } = judged;
    let request = session.request;
    let alloc = session.alloc();
    let Some(mended) = mend_of(alloc, request.mends, text, said.explanation.status)? else {
        return shown(session, words, &said, out, err);
    };
    let explanation = explain_called(alloc, &mended.text, words, call, request.denied)?;
    if matches!(explanation.status, Status::Refused) {
        return shown(session, words, &said, out, err);
    }
    let explanation = mended.reported(alloc, text, explanation)?;
    shown_under(session, &said.parts, explanation, out, err)
}

/// Writes what is said of the call under a condition, and answers the exit status.
fn shown_under<R: AllocGlobal, O, F, W: Sink, E: Sink>(
    session: &Session<R, O, F>,
    parts: &[PartName],
    explanation: Explanation,
    out: &mut W,
    err: &mut E,
) -> Result<Status, Unexplained>
    requires { IsOfAnswer explanation.status }
    ensures { IfOk result (IsDeliveredUnder (is_plain session.now.request.now.format) explanation.entry
        (record { before = W.taken out.old; after = W.taken out.new })
        (record { before = E.taken err.old; after = E.taken err.new })) }
{
    let style = session.style();
    let named = Named {
        alloc: session.alloc(),
        reporter: &style,
        name: "sed",
        parts,
        plain: session.request.format.plain(Comments::LeftOut),
    };
    match deliver_under(&named, explanation, out, err) {
        Ok(status) => Ok(status),
        Err(RunFault::Write) => Err(Unexplained::Write),
        Err(_) => Err(Unexplained::OutOfMemory),
    }
}

/// Writes what is said of the call with these words, and answers the exit status.
fn shown<R: AllocGlobal, O: Opener, F, W: Sink, E: Sink>(
    session: &Session<R, O, F>,
    words: &[&[u8]],
    said: &Said,
    out: &mut W,
    err: &mut E,
) -> Result<Status, Unexplained>
    requires { IsSaid session.now.request.now.mends (O.known session.now.files.now) session.now.request.now.denied
        (map (λ word. word.now) words.now) said.now.explanation }
    ensures { IfOk result (IsAnsweredCall session.now.request.now.mends (is_plain session.now.request.now.format) (O.known session.now.files.now)
        session.now.request.now.denied (map (λ word. word.now) words.now) (record { before = W.taken out.old; after = W.taken out.new })
        (record { before = E.taken err.old; after = E.taken err.new })) }
{
    let style = session.style();
    let named = Named {
        alloc: session.alloc(),
        reporter: &style,
        name: "sed",
        parts: &said.parts,
        plain: session.request.format.plain(Comments::LeftOut),
    };
    match deliver(&named, &said.explanation, out, err) {
        Ok(status) => Ok(status),
        Err(RunFault::Write) => Err(Unexplained::Write),
        Err(_) => Err(Unexplained::OutOfMemory),
    }
}

/// The names of the parts, each with the script's line with which its part begins.
fn part_names(
    alloc: Global,
    style: Style,
    words: &[&[u8]],
    pieces: &[Piece],
    parts: &[Vec<u8>],
) -> Result<Vec<PartName>, AllocError> {
    let mut names = Vec::new(alloc);
    let mut line = 1usize;
    let mut texts = 0usize;
    for (piece, part) in pieces.iter().zip(parts.iter()) {
        let name = match *piece {
            Piece::Text(_) => {
                texts = texts.saturating_add(1);
                format!(in alloc; "-e {texts}")?
            }
            Piece::File(origin) => file_name(alloc, style, words, origin)?,
        };
        names.push(PartName { line, name })?;
        // The end of a part is in its last line, and a newline follows.
        line = line.saturating_add(position_at(part, part.len()).line);
    }
    Ok(names)
}

/// The path of a file, as the format shows it.
fn file_name(
    alloc: Global,
    style: Style,
    words: &[&[u8]],
    origin: Origin,
) -> Result<String, AllocError> {
    match str::from_utf8(origin.text(words)) {
        Ok(path) => style.shown(alloc, path),
        Err(_) => String::from_str(alloc, "?"),
    }
}
