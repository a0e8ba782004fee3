//! The engines: each reads from sources, and writes one report to a sink.

ghost use Rattle.std.specs.Prelude.{◌≡◌, Some, None, IfOk};
ghost use Rattle.sedck_engines.specs.Engines.{ReportsScriptTo, verdict_outcome, ChecksTo, ListsFilesTo, ListsGraphTo, RanksTo, found_outcome, UpgradesTo, EngineAnswers, OfBytes};
ghost use Rattle.sedck_engines.specs.Private.Engines.{IsScriptReport, WritesReport};

use crate::answer::{Outcome, RunFault};
use crate::input::{read_certificate, read_script};
use crate::rank::{certificate_report, rank_report};
use crate::report::{check_report, files_report, graph_report};
use sedck_cert::streams::{Sink, Source, write_all};
use sedck_cert::{Verdict, judge, read_any};
use sedck_script::{Script, parse};
use sedck_search::{Found, search};
use std::alloc::{AllocError, Global};

/// What is reported of a script alone.
#[derive(Clone, Copy, PartialEq, Eq)]
pub enum ScriptReport {
    /// The files that it reads and writes.
    Files,
    /// Its flow graph.
    Graph,
    /// A certificate that was found for it, or a loop.
    Rank,
}

/// Judges the certificate for the script, and writes the verdict.
pub fn run_check<R: Source, C: Source, W: Sink>(
    alloc: Global,
    script: &mut R,
    cert: &mut C,
    out: &mut W,
) -> Result<Outcome, RunFault>
    ensures { EngineAnswers
        (record {
          script = Some (record { bytes = R.left script.old; failed = R.has_failed script.new });
          certificate = Some (record { bytes = C.left cert.old; failed = C.has_failed cert.new });
          out = record { before = W.taken out.old; after = W.taken out.new; failed = W.has_failed out.new };
        })
        (λ outcome report. OfBytes (R.left script.old) (λ text. OfBytes (C.left cert.old) (λ bytes. ChecksTo text bytes outcome report))) result }
{
    let text = read_script(alloc, script)?;
    let certificate = read_certificate(alloc, cert)?;
    let judged = judge(alloc, &text, &certificate)?;
    let report = check_report(alloc, &judged)?;
    write_report(out, &report, outcome_of(judged.verdict))
}

/// Writes the names of the files that the script reads and writes.
pub fn run_files<R: Source, W: Sink>(
    alloc: Global,
    script: &mut R,
    out: &mut W,
) -> Result<Outcome, RunFault>
    ensures { EngineAnswers
        (record {
          script = Some (record { bytes = R.left script.old; failed = R.has_failed script.new });
          certificate = None;
          out = record { before = W.taken out.old; after = W.taken out.new; failed = W.has_failed out.new };
        })
        (λ outcome report. OfBytes (R.left script.old) (λ text. ListsFilesTo text outcome report)) result }
{
    run_script(alloc, ScriptReport::Files, script, out)
}

/// Writes the script's flow graph.
pub fn run_graph<R: Source, W: Sink>(
    alloc: Global,
    script: &mut R,
    out: &mut W,
) -> Result<Outcome, RunFault>
    ensures { EngineAnswers
        (record {
          script = Some (record { bytes = R.left script.old; failed = R.has_failed script.new });
          certificate = None;
          out = record { before = W.taken out.old; after = W.taken out.new; failed = W.has_failed out.new };
        })
        (λ outcome report. OfBytes (R.left script.old) (λ text. ListsGraphTo text outcome report)) result }
{
    run_script(alloc, ScriptReport::Graph, script, out)
}

/// Searches for ranks, and writes the certificate that was found, or the loop that rules all out.
pub fn run_rank<R: Source, W: Sink>(
    alloc: Global,
    script: &mut R,
    out: &mut W,
) -> Result<Outcome, RunFault>
    ensures { EngineAnswers
        (record {
          script = Some (record { bytes = R.left script.old; failed = R.has_failed script.new });
          certificate = None;
          out = record { before = W.taken out.old; after = W.taken out.new; failed = W.has_failed out.new };
        })
        (λ outcome report. OfBytes (R.left script.old) (λ text. RanksTo text outcome report)) result }
{
    run_script(alloc, ScriptReport::Rank, script, out)
}

/// Writes the text of the certificate that is read, in version 2, whichever its version was.
pub fn run_upgrade<C: Source, W: Sink>(
    alloc: Global,
    cert: &mut C,
    out: &mut W,
) -> Result<Outcome, RunFault>
    ensures { EngineAnswers
        (record {
          script = None;
          certificate = Some (record { bytes = C.left cert.old; failed = C.has_failed cert.new });
          out = record { before = W.taken out.old; after = W.taken out.new; failed = W.has_failed out.new };
        })
        (λ outcome report. OfBytes (C.left cert.old) (λ bytes. UpgradesTo bytes outcome report)) result }
{
    let text = read_certificate(alloc, cert)?;
    let cert = read_any(alloc, &text)?;
    let report = certificate_report(alloc, &cert)?;
    write_report(out, &report, Outcome::Yes)
}

/// Reads a script, and writes the report on it.
pub fn run_script<R: Source, W: Sink>(
    alloc: Global,
    kind: ScriptReport,
    script: &mut R,
    out: &mut W,
) -> Result<Outcome, RunFault>
    ensures { EngineAnswers
        (record {
          script = Some (record { bytes = R.left script.old; failed = R.has_failed script.new });
          certificate = None;
          out = record { before = W.taken out.old; after = W.taken out.new; failed = W.has_failed out.new };
        })
        (λ outcome report. OfBytes (R.left script.old) (λ text. ReportsScriptTo kind text outcome report)) result }
{
    let text = read_script(alloc, script)?;
    let script = parse(alloc, &text)?;
    let (report, outcome) = script_report(alloc, kind, &script)?;
    write_report(out, &report, outcome)
}

/// The report on the script, and what it says in one word.
fn script_report(
    alloc: Global,
    kind: ScriptReport,
    script: &Script,
) -> Result<(Vec<u8>, Outcome), AllocError>
    ensures { IfOk result (λ made. IsScriptReport kind script.now made.1 made.0.items) }
{
    match kind {
        ScriptReport::Files => Ok((files_report(alloc, script)?, Outcome::Yes)),
        ScriptReport::Graph => Ok((graph_report(alloc, script)?, Outcome::Yes)),
        ScriptReport::Rank => {
            let found = search(alloc, script)?;
            Ok((rank_report(alloc, &found)?, outcome_of_found(&found)))
        }
    }
}

/// Writes the report, and answers its outcome.
fn write_report<W: Sink>(out: &mut W, report: &[u8], outcome: Outcome) -> Result<Outcome, RunFault>
    ensures { WritesReport
        (record { before = W.taken out.old; after = W.taken out.new; failed = W.has_failed out.new })
        outcome report.now result }
{
    match write_all(out, report) {
        Ok(()) => Ok(outcome),
        Err(_) => Err(RunFault::Write),
    }
}

/// Yes for ranks, and no for a loop.
fn outcome_of_found(found: &Found) -> Outcome
    ensures { result ≡ found_outcome found.now }
{
    match found {
        Found::Ranks(_) => Outcome::Yes,
        Found::Loop(_) => Outcome::No,
    }
}

/// The verdict in one word.
fn outcome_of(verdict: Verdict) -> Outcome
    ensures { result ≡ verdict_outcome verdict }
{
    match verdict {
        Verdict::Accepted => Outcome::Yes,
        Verdict::Rejected(_) => Outcome::No,
    }
}
