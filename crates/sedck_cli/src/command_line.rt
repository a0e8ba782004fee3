//! The program `sedck` for the words of its command line.

ghost use Rattle.std.specs.Prelude.{◌≡◌, ◌≢◌, ◌⊎◌, ◌<◌, ◌≤◌, true, false, Ok, Err, Some, IsTrue, IfOk, IfErr, IfSome, OnErr};
ghost use Rattle.std.specs.Io.KnownBytes.{Keeps, Appends};
ghost use Rattle.sedck_engines.specs.Opened.{unknown};
ghost use Rattle.sedck_cli.specs.Statuses.{status_of, asked, asked_of_one, Check, Upgrade, Nothing, MayBeNo, Reports, BreaksOff, IsOfWords, begins_with_hyphen, has_option};
ghost use Rattle.sedck_cli.specs.Causes.{AreOpened, IsCause};
ghost use Rattle.sedck_cli.specs.Lines.{refusal_line, SaysRefusalFor};
ghost use Rattle.sedck_cli.specs.Private.Requests.{report_asked, request_asks, asked_by, Leaves};
ghost use Rattle.sedck_cli.specs.declared.command_line.Refusal.TheVariants.{Run};
ghost use Rattle.sedck_engines.specs.declared.answer.RunFault.TheVariants as fault;

use crate::refusal_line::write_refusal;
use clap::error::ErrorKind;
use clap::{Arg, Command};
use sedck_cert::streams::Sink;
use sedck_engines::{
    FromFiles, Input, Opener, Outcome, RunFault, ScriptReport, run_check, run_script, run_upgrade,
};
use std::alloc::{AllocError, Global};
use std::fs::Files;
use std::io::Write;

/// Why the program answers neither yes nor no.
#[derive(Clone, Copy, Drop)]
pub enum Refusal {
    /// The words are of no known form, or one begins with a hyphen.
    Usage,
    /// The work that the words ask for has ended with this fault.
    Run(RunFault),
}

impl From<AllocError> for Refusal {
    ghost from_gives = { λ _ refusal. refusal ≡ Run fault.OutOfMemory };

    fn from(_error: AllocError) -> Refusal {
        Refusal::Run(RunFault::OutOfMemory)
    }
}

impl From<RunFault> for Refusal {
    ghost from_gives = { λ fault refusal. refusal ≡ Run fault };

    fn from(fault: RunFault) -> Refusal {
        Refusal::Run(fault)
    }
}

impl From<clap::Error> for Refusal {
    ghost from_gives = { λ _ refusal. IsOfWords refusal };

    fn from(error: clap::Error) -> Refusal {
        match error.kind() {
            ErrorKind::OutOfMemory => Refusal::Run(RunFault::OutOfMemory),
            _ => Refusal::Usage,
        }
    }
}

impl Refusal {
    /// The exit status.
    pub fn status(self) -> u8
        ensures { result ≡ status_of self }
    {
        match self {
            Refusal::Run(RunFault::Script(_) | RunFault::Certificate(_)) => 2,
            Refusal::Usage => 3,
            Refusal::Run(RunFault::Read(_) | RunFault::Write | RunFault::OutOfMemory) => 4,
        }
    }

    /// Writes the refusal in one line, and answers the exit status, which is the same where the line can't be written.
    /// It takes no memory.
    pub fn report<E: Sink>(self, err: &mut E) -> u8
        ensures status { result ≡ status_of self }
        // The line is written, unless a write has failed.
        ensures line { E.has_failed err.new ≡ false → Appends (E.taken err.old) (E.taken err.new) (refusal_line self) }
    {
        let _ = write_refusal(err, self);
        self.status()
    }
}

/// What the words ask for, with the paths of its files.
enum Request<'a> {
    Check {
        script: &'a str,
        certificate: &'a str,
    },
    Report {
        kind: ScriptReport,
        script: &'a str,
    },
    Upgrade {
        certificate: &'a str,
    },
}

/// The whole program for the words after its name, and its exit status: 0 for yes, 1 for no, 2 where the script or the
/// certificate is refused, 3 for invalid arguments, 4 where a stream fails or memory runs out.
///
/// It is `program_over` the files of the system, of which nothing is known: reports and refusals are those of some bytes.
pub fn program<R: Files + AllocGlobal, W: Sink, E: Sink>(
    rt: &R,
    words: &[String],
    out: &mut W,
    err: &mut E,
) -> u8
    ensures within { result ≤ 4 }
    ensures option { has_option words.now ≡ true → result ≡ 3 }
    ensures nothing { asked words.now ≡ Nothing → (result ≡ 3) ⊎ (result ≡ 4) }
    ensures usage { result ≡ 3 → (has_option words.now ≡ true) ⊎ (asked words.now ≡ Nothing) }
    ensures yes { result ≡ 0 → Reports unknown (asked words.now) (W.taken out.old) (W.taken out.new) Outcome.Yes }
    ensures no { result ≡ 1 → Reports unknown (asked words.now) (W.taken out.old) (W.taken out.new) Outcome.No }
    ensures never_no { result ≡ 1 → MayBeNo (asked words.now) }
    ensures refused { 1 < result → result < 4 → Keeps (W.taken out.old) (W.taken out.new) }
    ensures failed { result ≡ 4 → Keeps (W.taken out.old) (W.taken out.new) ⊎ BreaksOff unknown (asked words.now) (W.taken out.old) (W.taken out.new) }
    ensures reported { 1 < result → E.has_failed err.new ≡ false
        → SaysRefusalFor unknown (asked words.now) (W.has_failed out.new) result (E.taken err.old) (E.taken err.new) }
    ensures silent { result < 2 → Keeps (E.taken err.old) (E.taken err.new) }
{
    program_over(rt.alloc(), &FromFiles::new(rt), words, out, err)
}

/// The whole program over files that an opener opens.
pub fn program_over<O: Opener, W: Sink, E: Sink>(
    alloc: Global,
    files: &O,
    words: &[String],
    out: &mut W,
    err: &mut E,
) -> u8
    ensures within { result ≤ 4 }
    ensures option { has_option words.now ≡ true → result ≡ 3 }
    ensures nothing { asked words.now ≡ Nothing → (result ≡ 3) ⊎ (result ≡ 4) }
    // Words of a known form are never refused.
    ensures usage { result ≡ 3 → (has_option words.now ≡ true) ⊎ (asked words.now ≡ Nothing) }
    // The whole report of what was asked for, on the bytes of the files at these paths.
    ensures yes { result ≡ 0 → Reports (O.known files.now) (asked words.now) (W.taken out.old) (W.taken out.new) Outcome.Yes }
    ensures no { result ≡ 1 → Reports (O.known files.now) (asked words.now) (W.taken out.old) (W.taken out.new) Outcome.No }
    ensures never_no { result ≡ 1 → MayBeNo (asked words.now) }
    ensures opened { result < 3 → AreOpened (O.known files.now) (asked words.now) }
    // A refusal writes nothing, but where writing fails.
    ensures refused { 1 < result → result < 4 → Keeps (W.taken out.old) (W.taken out.new) }
    ensures failed { result ≡ 4 → Keeps (W.taken out.old) (W.taken out.new)
        ⊎ BreaksOff (O.known files.now) (asked words.now) (W.taken out.old) (W.taken out.new) }
    // A refusal says what is wrong with the bytes of these files, or what has failed.
    ensures cause { 1 < result → (refusal : Refusal) × (status_of refusal ≡ result)
        × IsCause (O.known files.now) (asked words.now) (W.has_failed out.new) refusal }
    // Its line, unless a write of it has failed.
    ensures reported { 1 < result → E.has_failed err.new ≡ false
        → SaysRefusalFor (O.known files.now) (asked words.now) (W.has_failed out.new) result (E.taken err.old) (E.taken err.new) }
    ensures silent { result < 2 → Keeps (E.taken err.old) (E.taken err.new) }
{
    match run(alloc, files, words, out) {
        Ok(Outcome::Yes) => 0,
        Ok(Outcome::No) => 1,
        Err(refusal) => refusal.report(err),
    }
}

/// The status once the report is flushed. A report that can't be flushed isn't written: then the status is 4, with the
/// line of a failed write. A refusal's status stays.
pub fn flushed<W: Write + Drop, E: Sink>(status: u8, mut out: W, err: &mut E) -> u8
    ensures kept { 1 < status → result ≡ status }
    ensures within { (result ≡ status) ⊎ (result ≡ 4) }
    ensures reported { result ≢ status → E.has_failed err.new ≡ false
        → Appends (E.taken err.old) (E.taken err.new) (refusal_line (Refusal.Run RunFault.Write)) }
    ensures silent { result ≢ 4 → Keeps (E.taken err.old) (E.taken err.new) }
{
    if status > 1 {
        return status;
    }
    match out.flush() {
        Ok(()) => status,
        Err(_) => Refusal::Run(RunFault::Write).report(err),
    }
}

/// Does what the words ask for.
fn run<O: Opener, W: Sink>(
    alloc: Global,
    files: &O,
    words: &[String],
    out: &mut W,
) -> Result<Outcome, Refusal>
    ensures leaves { Leaves (O.known files.now) (asked words.now)
        (record { before = W.taken out.old; after = W.taken out.new; failed = W.has_failed out.new }) result }
    ensures option { has_option words.now ≡ true → result ≡ Err Refusal.Usage }
    ensures usage { IfErr result (λ refusal. refusal ≡ Refusal.Usage → (has_option words.now ≡ true) ⊎ (asked words.now ≡ Nothing)) }
{
    match read_request(alloc, words)? {
        Request::Check {
            script,
            certificate,
        } => check(alloc, files, script, certificate, out),
        Request::Report { kind, script } => report(alloc, files, kind, script, out),
        Request::Upgrade { certificate } => upgrade(alloc, files, certificate, out),
    }
}

/// Checks the script with the certificate. Both files are opened before either is read.
fn check<O: Opener, W: Sink>(
    alloc: Global,
    files: &O,
    script: &str,
    certificate: &str,
    out: &mut W,
) -> Result<Outcome, Refusal>
    ensures leaves { Leaves (O.known files.now) (Check script.now certificate.now)
        (record { before = W.taken out.old; after = W.taken out.new; failed = W.has_failed out.new }) result }
    ensures run { IfErr result (λ refusal. refusal ≢ Refusal.Usage) }
{
    let mut script = open(files, script, Input::Script)?;
    let mut certificate = open(files, certificate, Input::Certificate)?;
    Ok(run_check(alloc, &mut script, &mut certificate, out)?)
}

/// Reports on the script at the path.
fn report<O: Opener, W: Sink>(
    alloc: Global,
    files: &O,
    kind: ScriptReport,
    path: &str,
    out: &mut W,
) -> Result<Outcome, Refusal>
    ensures leaves { Leaves (O.known files.now) (report_asked kind path.now)
        (record { before = W.taken out.old; after = W.taken out.new; failed = W.has_failed out.new }) result }
    ensures run { IfErr result (λ refusal. refusal ≢ Refusal.Usage) }
{
    let mut script = open(files, path, Input::Script)?;
    Ok(run_script(alloc, kind, &mut script, out)?)
}

/// Upgrades the certificate at the path.
fn upgrade<O: Opener, W: Sink>(
    alloc: Global,
    files: &O,
    path: &str,
    out: &mut W,
) -> Result<Outcome, Refusal>
    ensures leaves { Leaves (O.known files.now) (Upgrade path.now)
        (record { before = W.taken out.old; after = W.taken out.new; failed = W.has_failed out.new }) result }
    ensures run { IfErr result (λ refusal. refusal ≢ Refusal.Usage) }
{
    let mut certificate = open(files, path, Input::Certificate)?;
    Ok(run_upgrade(alloc, &mut certificate, out)?)
}

/// Opens the file that is this input.
fn open<O: Opener>(files: &O, path: &str, input: Input) -> Result<O::File, Refusal>
    ensures bytes { IfOk result (λ file. IfSome ((O.known files.now).bytes_at path.now) (λ bytes. O.File.left file ≡ Some bytes)) }
    ensures opened { IfOk result (λ file. (O.known files.now).may_open path.now true) }
    ensures refused { IfErr result (λ refusal. refusal ≡ Refusal.Run (RunFault.Read input)) }
    ensures unopened { OnErr result ((O.known files.now).may_open path.now false) }
    ensures failing { (file : O.File) → IsTrue (O.File.has_failed file) → (O.known files.now).may_fail }
{
    match files.open(path) {
        Ok(file) => Ok(file),
        Err(_) => Err(Refusal::Run(RunFault::Read(input))),
    }
}

/// What the words ask for, read from the words themselves, so that no theorem rests on `clap`: it is asked about invalid
/// arguments alone. There are no options: any word that begins with a hyphen is refused.
fn read_request<'a>(alloc: Global, words: &'a [String]) -> Result<Request<'a>, Refusal>
    ensures asked { IfOk result (λ request. request_asks request ≡ asked words.now) }
    ensures refused { IfErr result IsOfWords }
    ensures option { has_option words.now ≡ true → result ≡ Err Refusal.Usage }
    ensures usage { OnErr result ((has_option words.now ≡ true) ⊎ (asked words.now ≡ Nothing)) }
{
    if contains_option(words) {
        return Err(Refusal::Usage);
    }
    if let Some(request) = request_of(words) {
        return Ok(request);
    }
    command(alloc)?.try_get_matches_from(words)?;
    Err(Refusal::Usage)
}

/// What the words ask for, by the first one and their number.
fn request_of<'a>(words: &'a [String]) -> Option<Request<'a>>
    ensures { asked_by result ≡ asked words.now }
{
    match words {
        [name, file] => request_of_one(name, file),
        [name, script, certificate] if name.as_str() == "check" => Some(Request::Check {
            script,
            certificate,
        }),
        _ => None,
    }
}

/// What the name asks for, of one file.
fn request_of_one<'a>(name: &str, file: &'a str) -> Option<Request<'a>>
    ensures { asked_by result ≡ asked_of_one name.now file.now }
{
    match name {
        "files" => Some(report_of(ScriptReport::Files, file)),
        "graph" => Some(report_of(ScriptReport::Graph, file)),
        "rank" => Some(report_of(ScriptReport::Rank, file)),
        "upgrade" => Some(Request::Upgrade { certificate: file }),
        _ => None,
    }
}

/// A report on this script.
fn report_of<'a>(kind: ScriptReport, script: &'a str) -> Request<'a>
    ensures { request_asks result ≡ report_asked kind script.now }
{
    Request::Report { kind, script }
}

/// Whether a word begins with a hyphen.
fn contains_option(words: &[String]) -> bool
    ensures { result ≡ has_option words.now }
{
    words.iter().any(|word| is_option(word))
}

/// Whether the word begins with a hyphen. A function, so that a word's test is proved apart from the loop over words.
fn is_option(word: &str) -> bool
    ensures { result ≡ begins_with_hyphen word.now }
{
    matches!(word.as_bytes(), [b'-', ..])
}

/// The known forms of the words.
fn command<'a>(alloc: Global) -> Result<Command<'a>, AllocError> {
    let certificate = Arg::new(alloc, "certificate").required(true);
    let check = subcommand(alloc, "check", "script")?.arg(certificate)?;
    Command::new(alloc, "sedck")
        .no_binary_name(true)
        .disable_help_flag(true)
        .disable_help_subcommand(true)
        .subcommand_required(true)
        .subcommand(check)?
        .subcommand(subcommand(alloc, "files", "script")?)?
        .subcommand(subcommand(alloc, "graph", "script")?)?
        .subcommand(subcommand(alloc, "rank", "script")?)?
        .subcommand(subcommand(alloc, "upgrade", "certificate")?)
}

/// The subcommand with this name. Its first word is this file.
fn subcommand<'a>(alloc: Global, name: &'a str, file: &'a str) -> Result<Command<'a>, AllocError> {
    Command::new(alloc, name)
        .disable_help_flag(true)
        .arg(Arg::new(alloc, file).required(true))
}
