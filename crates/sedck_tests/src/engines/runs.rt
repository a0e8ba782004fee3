//! Runs of the engines over streams in memory.
use super::fakes::{Reader, Writer, sink_with, source_of};
use crate::texts::require;
use sedck_cert::streams::{FromRead, FromWrite, Sink, Source};
use sedck_cli::{Outcome, RunFault, run_check, run_files, run_graph, run_rank, run_upgrade};
use std::alloc::{AllocGlobal, Global};
use std::io::ErrorKind;
use std::process::Abort;

/// Which engine runs. The first reads both texts, the last the certificate alone, and the others the script alone.
#[derive(Drop)]
pub enum Engine {
    Check,
    Files,
    Graph,
    Rank,
    Upgrade,
}

/// After how many bytes the reads of the script fail, those of the certificate, and the writes.
pub type Ends = (usize, usize, usize);

/// A run of an engine, and what is due.
#[derive(Drop)]
pub struct Run<'a> {
    pub engine: &'a Engine,
    pub script: &'a str,
    pub certificate: &'a str,
    pub ends: Ends,
    /// The outcome in a word, or the fault as it is printed.
    pub answer: &'a str,
    pub report: &'a str,
}

/// The outcome in a word, or the fault as it is printed.
pub fn outcome<R: Source, C: Source, W: Sink>(
    rt: &(impl Abort + AllocGlobal),
    engine: &Engine,
    script: &mut R,
    certificate: &mut C,
    out: &mut W,
) -> String {
    let alloc = rt.alloc();
    let answer = match engine {
        Engine::Check => run_check(alloc, script, certificate, out),
        Engine::Files => run_files(alloc, script, out),
        Engine::Graph => run_graph(alloc, script, out),
        Engine::Rank => run_rank(alloc, script, out),
        Engine::Upgrade => run_upgrade(alloc, certificate, out),
    };
    told(rt, alloc, answer)
}

/// The answer in a word, or the fault as it is printed.
fn told(rt: &impl Abort, alloc: Global, answer: Result<Outcome, RunFault>) -> String {
    let text = match answer {
        Ok(Outcome::Yes) => String::from_str(alloc, "yes"),
        Ok(Outcome::No) => String::from_str(alloc, "no"),
        Err(fault) => format!(in alloc; "{fault}"),
    };
    text.expect(rt, "memory")
}

/// Whether what is due is reported, its bytes went out, and a stream is reported exactly where one failed.
fn require_answer(
    rt: &impl Abort,
    run: &Run,
    reported: (&str, &[u8]),
    read_failed: bool,
    write_failed: bool,
) {
    let is_told = reported.0 == run.answer && reported.1 == run.report.as_bytes();
    require(rt, is_told, run.script.as_bytes());
    let holds = read_failed == run.answer.starts_with("cannot read")
        && write_failed == run.answer.starts_with("cannot write");
    require(rt, holds, run.script.as_bytes());
}

/// Whether the run over a script and a certificate, read and written in pieces, reports what is due and writes the report, and
/// whether a stream that failed is reported.
pub fn is_answered(rt: &(impl Abort + AllocGlobal), run: &Run, piece: usize) {
    let mut script = source_of(run.script.as_bytes(), piece, run.ends.0);
    let mut certificate = source_of(run.certificate.as_bytes(), piece, run.ends.1);
    let mut out = sink_with(rt.alloc(), piece, run.ends.2);
    let reported = outcome(rt, run.engine, &mut script, &mut certificate, &mut out);
    let read_failed = script.failed || certificate.failed;
    require_answer(rt, run, (&reported, &out.bytes), read_failed, out.failed);
}

/// A reader of std of the text, one byte a call, whose failing call answers an error of this kind.
fn reader_of(text: &str, end: usize, kind: Option<ErrorKind>) -> FromRead<Reader<'_>> {
    FromRead::new(Reader {
        source: source_of(text.as_bytes(), 1, end),
        kind: kind.unwrap_or(ErrorKind::Interrupted),
    })
}

/// A writer of std with this much room.
fn writer_with(alloc: Global, room: usize, kind: Option<ErrorKind>) -> FromWrite<Writer> {
    FromWrite::new(Writer {
        sink: sink_with(alloc, 1, room),
        kind,
    })
}

/// The same over readers and writers of std, one byte a call. Their failing calls answer errors of this kind; where there is
/// none, a write takes no byte.
pub fn is_answered_over_std(rt: &(impl Abort + AllocGlobal), run: &Run, kind: Option<ErrorKind>) {
    let mut script = reader_of(run.script, run.ends.0, kind);
    let mut certificate = reader_of(run.certificate, run.ends.1, kind);
    let mut out = writer_with(rt.alloc(), run.ends.2, kind);
    let reported = outcome(rt, run.engine, &mut script, &mut certificate, &mut out);
    let read_failed = script.failed() || certificate.failed();
    let write_failed = out.failed();
    let bytes = out.into_inner().sink.bytes;
    require_answer(rt, run, (&reported, &bytes), read_failed, write_failed);
}
