//! One call of sed in a file, whose script is written in its plain spelling.

ghost use Rattle.std.specs.Prelude.{◌≡◌, ◌≢◌, Contains, None, IfSome};
ghost use Rattle.std.specs.Io.KnownBytes.{Keeps};
ghost use Rattle.sedck_calls_in_files.specs.Scanned.{asked_of, SpellsOne};
ghost use Rattle.sedck_calls_in_files.specs.Private.Spelling.{SpellsCall, SpellsIn};

use crate::answers::call_report;
use crate::delivery::{Named, Reporter, deliver};
use crate::errors::{Unread, end, out_of_memory, unwritten, why_unread};
use crate::file::call_position;
use crate::finder::Finder;
use crate::judging::explain_found;
use crate::reading::Contents;
use crate::request::{File, FileScan};
use crate::walk::{TOO_LONG, Walk, contents_at};
use sedck_cert::streams::Sink;
use sedck_engines::{Opener, RunFault};
use sedck_explanation::{Explanation, Position, Status, position_at};
use sedck_formats::PartName;
use sedck_found::FoundCall;
use sedck_plain::Comments;
use std::alloc::{AllocError, Global};
use std::io::Input;

/// Where a call is, as reports have it: by the line and perhaps the column of its command's name, from 1.
#[derive(Clone, Copy)]
pub struct At {
    pub line: usize,
    pub column: Option<usize>,
}

/// What is said where no call is there, or several.
const NOT_ONE: &[u8] =
    b"--at: not just one call of sed begins there (LINE:COLUMN chooses one of several)\n";

/// Writes the script of the call that is there in its plain spelling, if it is accepted, and else a report to standard error. Answers the
/// exit status: that of what is said of the call, but `Refused` for an accepted script without a plain spelling; `Misused` where no call
/// is there, or several; `Failed` where the file can't be read, a write fails or memory runs out.
pub fn spell_call<R: Input + AllocGlobal, O: Opener, F: Finder, W: Sink, E: Sink>(
    walk: &Walk<R, O, F>,
    path: &str,
    at: At,
    out: &mut W,
    err: &mut E,
) -> Status
    ensures spelled { result ≢ Status.Misused → result ≢ Status.Failed
        → SpellsOne (O.known walk.now.files.now) (F.found walk.now.finder.now) (asked_of walk.now.scan.now) path.now
        (record { before = W.taken out.old; after = W.taken out.new }) result }
    ensures refused { result ≡ Status.Misused → Keeps (W.taken out.old) (W.taken out.new) }
    ensures silent { result ≡ Status.Accepted → Keeps (E.taken err.old) (E.taken err.new) }
{
    let alloc = walk.rt.alloc();
    let Ok(contents) = contents_at(walk, path) else {
        return out_of_memory(err);
    };
    let reason = match &contents {
        Contents::Text(kind, text) => {
            let asked = FileScan {
                alloc,
                scan: walk.scan,
                file: File {
                    path,
                    kind: *kind,
                    text,
                },
            };
            return spell_in(&asked, walk.finder, at, out, err);
        }
        Contents::TooLong => TOO_LONG,
        _ => why_unread(walk.files, path),
    };
    Unread { name: path, reason }.end(err)
}

/// The same for the file with this text.
fn spell_in<F: Finder, W: Sink, E: Sink>(
    asked: &FileScan,
    finder: &F,
    at: At,
    out: &mut W,
    err: &mut E,
) -> Status
    ensures spelled { result ≢ Status.Misused → result ≢ Status.Failed
        → SpellsIn (F.found finder.now asked.now.file.path.now asked.now.file.text.now) (asked_of asked.now.scan.now)
        asked.now.file.text.now (record { before = W.taken out.old; after = W.taken out.new }) result }
    ensures refused { result ≡ Status.Misused → Keeps (W.taken out.old) (W.taken out.new) }
    ensures silent { result ≡ Status.Accepted → Keeps (E.taken err.old) (E.taken err.new) }
{
    let Ok(found) = finder.find(asked.alloc, &asked.file, asked.scan.assumed) else {
        return out_of_memory(err);
    };
    match one_at(asked.file.text, &found.calls, at) {
        Some(call) => spell_one(asked, call, out, err),
        None => end(err, NOT_ONE, Status::Misused),
    }
}

/// The call that is there, if there is just one.
fn one_at<'a>(text: &[u8], calls: &'a [FoundCall], at: At) -> Option<&'a FoundCall>
    ensures { IfSome result (λ call. Contains calls.now call.now) }
{
    calls.get(place_of_one(text, calls, at)?)
}

/// The place among the calls of the one that is there, if there is just one.
fn place_of_one(text: &[u8], calls: &[FoundCall], at: At) -> Option<usize> {
    let mut found = None;
    let mut start = None;
    let mut position = position_at(text, 0);
    for (place, call) in calls.iter().enumerate() {
        position = call_position(text, position, call.start);
        // A call may be there once for each value of a variable.
        let is_there = position.line == at.line
            && at.column.is_none_or(|column| position.column == column);
        if is_there && start != Some(call.start) {
            if found.is_some() {
                return None;
            }
            found = Some(place);
            start = Some(call.start);
        }
    }
    found
}

/// The same for this call.
fn spell_one<W: Sink, E: Sink>(
    asked: &FileScan,
    call: &FoundCall,
    out: &mut W,
    err: &mut E,
) -> Status
    ensures spelled { result ≢ Status.Failed
        → SpellsCall (asked_of asked.now.scan.now) asked.now.file.text.now call.now
        (record { before = W.taken out.old; after = W.taken out.new }) result }
    ensures refused { result ≡ Status.Misused → Keeps (W.taken out.old) (W.taken out.new) }
    ensures silent { result ≡ Status.Accepted → Keeps (E.taken err.old) (E.taken err.new) }
{
    let FileScan { alloc, file, .. } = asked;
    let position = position_at(file.text, call.start);
    let Ok(explanation) = explain_found(*alloc, file.text, position, call, asked.scan) else {
        return out_of_memory(err);
    };
    let reporter = OneCall {
        asked,
        position,
        call,
    };
    let named = Named {
        alloc: *alloc,
        reporter: &reporter,
        name: file.path,
        parts: &[],
        plain: Some(Comments::LeftOut),
    };
    match deliver(&named, &explanation, out, err) {
        Ok(status) => status,
        Err(RunFault::Write) => unwritten(err),
        Err(_) => out_of_memory(err),
    }
}

/// A call of a file.
#[derive(Clone, Copy)]
struct OneCall<'a> {
    asked: &'a FileScan<'a>,
    position: Position,
    call: &'a FoundCall,
}

impl Reporter for OneCall<'_> {
    // What is said of a call in a file is unknown word by word.
    ghost reported = { λ _ _ _. None };

    fn report(
        &self,
        _alloc: Global,
        _name: &str,
        _parts: &[PartName],
        explanation: &Explanation,
    ) -> Result<Vec<u8>, AllocError> {
        call_report(self.asked, self.position, self.call, explanation)
    }
}
