//! The program `sedck-explain` for its arguments.

ghost use Rattle.std.specs.Prelude.{◌≡◌, ◌≢◌, ◌⊎◌, ◌∷◌, [], true, false, codes, map, None, IfSome};
ghost use Rattle.std.specs.Io.KnownBytes.{Keeps, Appends};
ghost use Rattle.sedck_engines.specs.Opened.{unknown};
ghost use Rattle.sedck_calls_in_files.specs.Lines.{error_line};
ghost use Rattle.sedck_calls_in_files.specs.Scanned.{IsWorstOf};
ghost use Rattle.sedck_explain_cli.specs.Requests.{scripts_of, is_plain};
ghost use Rattle.sedck_explain_cli.specs.Spelled.{IsPlainly, SpellsScript, IsAnsweredCall};
ghost use Rattle.sedck_explain_cli.specs.Statuses.{StatusAt};
ghost use Rattle.sedck_explain_cli.specs.Answers.{call_of, asks_for_help, asks_for_plain, is_help as is_help_text, HasStatusFor, IsAnswered, SpellsFor, IsWritten};

use crate::calls::explain_words;
use crate::explaining::explain_path;
use crate::finding::AsTheShell;
use crate::format::Format;
use crate::request::{Request, request_of};
use crate::scanning::{explain_files, spell_found};
use crate::session::Session;
use crate::unexplained::{misused, report_fault, report_unexplained};
use crate::words::Words;
use clap::Error;
use clap::error::ErrorKind;
use sedck_calls_in_files::{Finder, out_of_memory, slices_of, unwritten};
use sedck_cert::streams::{Sink, write_all};
use sedck_engines::{FromFiles, Opener};
use sedck_explanation::{Denied, Status};
use sedck_formats::ScriptCounts;
use sedck_plain::Comments;
use std::alloc::Global;
use std::fs::Files;
use std::io::{Input, Write};

/// What the program works with.
#[derive(Drop)]
pub struct System<'a, R, O, F> {
    /// Memory, standard input and the folders of the system.
    pub rt: &'a R,
    /// What opens files.
    pub files: &'a O,
    /// What finds calls of sed in a file.
    pub finder: &'a F,
}

/// The whole program for the arguments after its name, and its exit status: the worst one of the scripts' statuses.
///
/// A script that can't be read is reported, and the next one follows. After a failed write, or where memory runs out, none does.
///
/// It is `program_over` the files of the system, of which nothing is known: the statuses are those of some bytes.
pub fn program<R: Files + Input + AllocGlobal + Clone + Drop, W: Sink, E: Sink>(
    rt: &R,
    words: &Words,
    colour: bool,
    out: &mut W,
    err: &mut E,
) -> Status
    ensures answered { result ≢ Status.Misused → result ≢ Status.Failed → IsAnswered unknown (λ _ _. None) words.now result }
    ensures refused { result ≡ Status.Misused → Keeps (W.taken out.old) (W.taken out.new) }
    ensures silent { result ≢ Status.Misused → result ≢ Status.Failed
        → (asks_for_plain words.now ≡ false) ⊎ (result ≡ Status.Accepted) → Keeps (E.taken err.old) (E.taken err.new) }
{
    let files = FromFiles::new(rt);
    let system = System {
        rt,
        files: &files,
        finder: &AsTheShell,
    };
    program_over(&system, words, colour, out, err)
}

/// The whole program over files that an opener opens, in which a finder finds calls of sed; folders are those of the system.
pub fn program_over<
    R: Files + Input + AllocGlobal + Clone + Drop,
    O: Opener,
    F: Finder,
    W: Sink,
    E: Sink,
>(system: &System<R, O, F>, words: &Words, colour: bool, out: &mut W, err: &mut E) -> Status
    // The status of what the words ask for, of the bytes of the files at the paths that they name.
    ensures answered { result ≢ Status.Misused → result ≢ Status.Failed
        → IsAnswered (O.known system.now.files.now) (F.found system.now.finder.now) words.now result }
    // In the format `sed` a text that spells the program of the script that was read is written, and nothing else; or nothing.
    ensures spelled { result ≢ Status.Misused → result ≢ Status.Failed
        → IsWritten (O.known system.now.files.now) (F.found system.now.finder.now) words.now
        (record { before = W.taken out.old; after = W.taken out.new }) result }
    // Invalid arguments write nothing to the output.
    ensures refused { result ≡ Status.Misused → Keeps (W.taken out.old) (W.taken out.new) }
    // Only what has no plain spelling, or isn't accepted, is reported there, where a plain spelling is asked for.
    ensures silent { result ≢ Status.Misused → result ≢ Status.Failed
        → (asks_for_plain words.now ≡ false) ⊎ (result ≡ Status.Accepted) → Keeps (E.taken err.old) (E.taken err.new) }
{
    let alloc = system.rt.alloc();
    match request_of(alloc, &words.own) {
        Ok(request) => {
            let session = Session {
                rt: system.rt,
                files: system.files,
                finder: system.finder,
                request: &request,
                colour,
            };
            answer(&session, words, out, err)
        }
        Err(error) => refuse_words(alloc, &words.own, error, out, err),
    }
}

/// Explains what is asked for, and answers the exit status.
fn answer<R: Files + Input + AllocGlobal + Clone + Drop, O: Opener, F: Finder, W: Sink, E: Sink>(
    session: &Session<R, O, F>,
    words: &Words,
    out: &mut W,
    err: &mut E,
) -> Status
    ensures status { result ≢ Status.Misused → result ≢ Status.Failed
        → HasStatusFor (O.known session.now.files.now) (F.found session.now.finder.now) session.now.request.now (call_of words.now) result }
    ensures spelled { result ≢ Status.Misused → result ≢ Status.Failed → is_plain session.now.request.now.format ≡ true
        → SpellsFor (O.known session.now.files.now) (F.found session.now.finder.now) session.now.request.now (call_of words.now)
        (record { before = W.taken out.old; after = W.taken out.new }) result }
    ensures refused { result ≡ Status.Misused → Keeps (W.taken out.old) (W.taken out.new) }
    ensures silent { result ≢ Status.Misused → result ≢ Status.Failed
        → (is_plain session.now.request.now.format ≡ false) ⊎ (result ≡ Status.Accepted) → Keeps (E.taken err.old) (E.taken err.new) }
{
    let request = session.request;
    if let Some(misplaced) = misplaced(request) {
        return misused(err, misplaced.as_bytes());
    }
    let plain = request.format.is_plain();
    if request.calls {
        if plain {
            return spell_found(session, out, err);
        }
        return explain_files(session, out, err);
    }
    if request.sed {
        let Some(call) = &words.call else {
            return misused(err, b"--sed is followed by -- and the words of a call\n");
        };
        return explain_call(session, call, out, err);
    }
    if plain {
        return spell_script(session, out, err);
    }
    explain_all(session, out, err)
}

/// What is said of options, and of scripts, that aren't for what is asked for.
fn misplaced(request: &Request) -> Option<&'static str> {
    let Request { calls, sed, .. } = *request;
    let plain = request.format.is_plain();
    let certificate = request.certificate.is_some();
    let scripts = request.scripts.len();
    let said = match request {
        _ if !calls && (request.kind.is_some() || !request.assumed.is_empty()) => {
            "--as, --assume and --assume-set are for --calls\n"
        }
        _ if request.comments == Comments::LeftOut && !plain => {
            "--no-comments is for --format sed\n"
        }
        _ if request.at.is_some() && !(calls && plain) => {
            "--at is for --calls with --format sed\n"
        }
        _ if calls && sed => "--calls and --sed are two things\n",
        _ if (calls || sed) && certificate => "--cert is for a script\n",
        _ if request.mends && certificate => "--cert is for a script without --mend\n",
        _ if calls && scripts == 0 => "--calls is followed by files or folders\n",
        _ if sed && scripts > 0 => "--sed is for no script\n",
        _ if calls || plain || scripts < 2 => return None,
        _ if certificate => "--cert is for one script\n",
        _ if !request.format.takes_several() => "this format is for one script\n",
        _ => return None,
    };
    Some(said)
}

/// Explains the call of sed with these words after its name, and answers the exit status: `Failed` where a file of its script can't be
/// read, a write fails, or memory runs out; `Unknown` only where mends are asked for, and it is accepted under a condition.
pub fn explain_call<R: Input + AllocGlobal, O: Opener, F, W: Sink, E: Sink>(
    session: &Session<R, O, F>,
    call: &[Vec<u8>],
    out: &mut W,
    err: &mut E,
) -> Status
    ensures within { session.now.request.now.mends ≡ false → result ≢ Status.Unknown }
    ensures known { result ≢ Status.Misused }
    ensures answered { result ≢ Status.Failed
        → IsAnsweredCall session.now.request.now.mends (is_plain session.now.request.now.format) (O.known session.now.files.now)
        session.now.request.now.denied (map (λ word. word.items) call.now) (record { before = W.taken out.old; after = W.taken out.new })
        (record { before = E.taken err.old; after = E.taken err.new }) result }
{
    let Ok(words) = slices_of(session.alloc(), call) else {
        return out_of_memory(err);
    };
    match explain_words(session, &words, out, err) {
        Ok(status) => status,
        Err(fault) => report_unexplained(session, &words, fault, out, err),
    }
}

/// Explains each script of the request, in the order in which they are given, and answers the exit status: the
/// worst one of theirs, or `Failed` where one can't be read, a write fails, or memory runs out. It is `Unknown` only where mends are asked for. The report of
/// several for people ends with how many there are of each answer.
pub fn explain_all<R: Input + AllocGlobal, O: Opener, F, W: Sink, E: Sink>(
    session: &Session<R, O, F>,
    out: &mut W,
    err: &mut E,
) -> Status
    ensures within { session.now.request.now.mends ≡ false → result ≢ Status.Unknown }
    ensures known { result ≢ Status.Misused }
    ensures greatest { result ≢ Status.Failed
        → IsWorstOf (StatusAt (O.known session.now.files.now) session.now.request.now) Status.Accepted (scripts_of session.now.request.now) result }
    ensures silent { result ≢ Status.Failed → Keeps (E.taken err.old) (E.taken err.new) }
{
    let mut status = Status::Accepted;
    let mut counts = ScriptCounts::NONE;
    for path in &session.request.scripts {
        match explain_path(session, path, None, out, err) {
            Ok(one) => {
                status = status.worse(one);
                counts.add(one);
            }
            Err(fault) => {
                status = Status::Failed;
                counts.add(status);
                if !report_fault(session, path, fault, out, err) {
                    return status;
                }
            }
        }
    }
    summed(session, counts, status, out, err)
}

/// Writes how many scripts there are of each answer, where there are several and the report is for people. The status is this one, or
/// `Failed` where that can't be written.
fn summed<R: AllocGlobal, O, F, W: Sink, E: Sink>(
    session: &Session<R, O, F>,
    counts: ScriptCounts,
    status: Status,
    out: &mut W,
    err: &mut E,
) -> Status
    ensures within { (result ≡ status) ⊎ (result ≡ Status.Failed) }
    ensures silent { result ≢ Status.Failed → Keeps (E.taken err.old) (E.taken err.new) }
{
    let request = session.request;
    if request.scripts.len() < 2 || request.format != Format::Text {
        return status;
    }
    let may_be_denied = Denied {
        c_locale: false,
        ..request.denied
    } != Denied::NOTHING;
    let Ok(text) = counts.text(session.alloc(), may_be_denied) else {
        return out_of_memory(err);
    };
    if write_all(out, &text).is_err() {
        return unwritten(err);
    }
    status
}

/// Writes the script of the request in its plain spelling, if it is accepted, and else a report on it to standard error. Answers the exit
/// status: that of the script, but `Refused` where it is accepted and has no plain spelling; `Misused` where there are several; `Failed`
/// where it can't be read, the write fails or memory runs out. Where mends are asked for, and it is refused, another script may be written,
/// with the status `Unknown`.
pub fn spell_script<R: Input + AllocGlobal, O: Opener, F, W: Sink, E: Sink>(
    session: &Session<R, O, F>,
    out: &mut W,
    err: &mut E,
) -> Status
    ensures within { session.now.request.now.mends ≡ false → result ≢ Status.Unknown }
    ensures status { result ≢ Status.Misused → result ≢ Status.Failed
        → IsPlainly (IsWorstOf (StatusAt (O.known session.now.files.now) session.now.request.now) Status.Accepted
        (scripts_of session.now.request.now)) result }
    ensures spelled { result ≢ Status.Misused → result ≢ Status.Failed
        → SpellsScript (O.known session.now.files.now) session.now.request.now (scripts_of session.now.request.now)
        (record { before = W.taken out.old; after = W.taken out.new }) result }
    ensures refused { result ≡ Status.Misused → Keeps (W.taken out.old) (W.taken out.new) }
    ensures silent { result ≡ Status.Accepted → Keeps (E.taken err.old) (E.taken err.new) }
{
    let Some(path) = only_script(session.request) else {
        return misused(err, b"this format is for one script\n");
    };
    match explain_path(session, path, Some(session.request.comments), out, err) {
        Ok(status) => status,
        Err(fault) => {
            let _ = report_fault(session, path, fault, out, err);
            Status::Failed
        }
    }
}

/// The path of the only script.
fn only_script<'a>(request: &Request<'a>) -> Option<&'a str>
    ensures { IfSome result (λ path. scripts_of request.now ≡ path.now ∷ []) }
{
    match request.scripts.as_slice() {
        [path] => Some(*path),
        _ => None,
    }
}

/// Writes what `clap` says of the words: the help or the version to the output, a refusal to standard error. Answers the exit
/// status.
fn refuse_words<W: Sink, E: Sink>(
    alloc: Global,
    words: &[String],
    error: Error,
    out: &mut W,
    err: &mut E,
) -> Status
    ensures help { result ≢ Status.Misused → result ≢ Status.Failed → (result ≡ Status.Accepted) × (asks_for_help words.now ≡ true) }
    ensures refused { result ≡ Status.Misused → Keeps (W.taken out.old) (W.taken out.new) }
    ensures silent { result ≢ Status.Misused → result ≢ Status.Failed → Keeps (E.taken err.old) (E.taken err.new) }
{
    if error.kind() == ErrorKind::OutOfMemory {
        return out_of_memory(err);
    }
    let Ok(text) = format!(in alloc; "{error}") else {
        return out_of_memory(err);
    };
    if error.use_stderr() {
        return misused(err, text.as_bytes());
    }
    // Beside others such a word may be the name of a script.
    if !is_for_help(words) {
        return misused(err, b"--help and --version stand alone\n");
    }
    match write_all(out, text.as_bytes()) {
        Ok(()) => Status::Accepted,
        Err(_) => unwritten(err),
    }
}

/// Whether the words are just one that asks for the help or the version.
fn is_for_help(words: &[String]) -> bool
    ensures { result ≡ asks_for_help words.now }
{
    match words {
        [word] => is_help(word),
        _ => false,
    }
}

/// Whether the word asks for the help or the version.
fn is_help(word: &str) -> bool
    ensures { result ≡ is_help_text word.now }
{
    word == "-h" || word == "-V" || word == "--help" || word == "--version"
}

/// The status once the report is flushed. A report that can't be flushed isn't written: then the status is `Failed`, with a line that
/// says so.
pub fn flushed<W: Write + Drop, E: Sink>(status: Status, mut out: W, err: &mut E) -> Status
    ensures within { (result ≡ status) ⊎ (result ≡ Status.Failed) }
    ensures reported { result ≢ status → E.has_failed err.new ≡ false
        → Appends (E.taken err.old) (E.taken err.new) (error_line (codes "cannot write")) }
    ensures silent { result ≢ Status.Failed → Keeps (E.taken err.old) (E.taken err.new) }
{
    match out.flush() {
        Ok(()) => status,
        Err(_) => unwritten(err),
    }
}
