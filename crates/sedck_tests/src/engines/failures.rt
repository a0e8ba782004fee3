//! What the engines answer and write, where streams fail after each byte and where none fails, and of texts that are too long.
use super::fakes::{Reader, sink_with, source_of};
use super::runs::{Ends, Engine, Run, is_answered, is_answered_over_std, outcome};
use super::{ACCEPTED, AMPLE, LOOP, LOOP_CERTIFICATE, LOOP_TEXT};
use crate::texts::require;
use sedck_cert::streams::FromRead;
use std::alloc::AllocGlobal;
use std::io::ErrorKind;
use std::process::Abort;

/// The engine, a script, and whether the certificate's reads fail and not the script's. The certificate is the loop's.
static SOURCES: [(Engine, &'static str, bool); 9] = [
    (Engine::Check, LOOP, false),
    (Engine::Check, "b z", false),
    (Engine::Check, LOOP, true),
    (Engine::Check, "b z", true),
    (Engine::Files, LOOP, false),
    (Engine::Graph, LOOP, false),
    (Engine::Rank, LOOP, false),
    (Engine::Rank, "b z", false),
    (Engine::Upgrade, LOOP, true),
];

/// The engine, a script, the outcome and the report.
static SINKS: [(Engine, &'static str, &'static str, &'static str); 7] = [
    (Engine::Check, LOOP, "yes", ACCEPTED),
    (Engine::Check, "", "no", "rejected 1 wrong-count\n"),
    (
        Engine::Files,
        "s/x/y/w out\nr in",
        "yes",
        "read 1\nin\nwrite 1\nout\n",
    ),
    (
        Engine::Graph,
        "#",
        "yes",
        "commands 0\n0 0 0 0 0 0 consume\n0 0 0 0 0 1 consume\n0 1 0 0 0 0 consume\n0 1 0 0 0 1 consume\n",
    ),
    (Engine::Rank, LOOP, "yes", LOOP_CERTIFICATE),
    (
        Engine::Rank,
        ":a\nb a",
        "no",
        "loop idle\n0 0 0 keep\n1 0 0 keep\n0 0 0\n",
    ),
    // the script isn't read
    (Engine::Upgrade, "b z", "yes", LOOP_CERTIFICATE),
];

/// How a call of std may fail.
static KINDS: [ErrorKind; 40] = [
    ErrorKind::NotFound,
    ErrorKind::PermissionDenied,
    ErrorKind::ConnectionRefused,
    ErrorKind::ConnectionReset,
    ErrorKind::HostUnreachable,
    ErrorKind::NetworkUnreachable,
    ErrorKind::ConnectionAborted,
    ErrorKind::NotConnected,
    ErrorKind::AddrInUse,
    ErrorKind::AddrNotAvailable,
    ErrorKind::NetworkDown,
    ErrorKind::BrokenPipe,
    ErrorKind::AlreadyExists,
    ErrorKind::WouldBlock,
    ErrorKind::NotADirectory,
    ErrorKind::IsADirectory,
    ErrorKind::DirectoryNotEmpty,
    ErrorKind::ReadOnlyFilesystem,
    ErrorKind::FilesystemLoop,
    ErrorKind::StaleNetworkFileHandle,
    ErrorKind::InvalidInput,
    ErrorKind::InvalidData,
    ErrorKind::TimedOut,
    ErrorKind::WriteZero,
    ErrorKind::StorageFull,
    ErrorKind::NotSeekable,
    ErrorKind::QuotaExceeded,
    ErrorKind::FileTooLarge,
    ErrorKind::ResourceBusy,
    ErrorKind::ExecutableFileBusy,
    ErrorKind::Deadlock,
    ErrorKind::CrossesDevices,
    ErrorKind::TooManyLinks,
    ErrorKind::InvalidFilename,
    ErrorKind::ArgumentListTooLong,
    ErrorKind::Interrupted,
    ErrorKind::Unsupported,
    ErrorKind::UnexpectedEof,
    ErrorKind::OutOfMemory,
    ErrorKind::Other,
];

/// The run of the engine over the script and a certificate, of which this is due.
fn run_of<'a>(
    engine: &'a Engine,
    script: &'a str,
    ends: Ends,
    answer: &'a str,
    report: &'a str,
) -> Run<'a> {
    Run {
        engine,
        script,
        certificate: LOOP_TEXT,
        ends,
        answer,
        report,
    }
}

/// Whether the failed read is reported, and nothing is written.
fn fails_at(rt: &(impl Abort + AllocGlobal), run: &Run) {
    is_answered(rt, run, 1);
    is_answered(rt, run, 2);
    is_answered_over_std(rt, run, Some(ErrorKind::Interrupted));
}

/// Whether an error of each kind is reported where the script's reads fail, or the certificate's.
fn fails_with_each_kind<'a>(
    rt: &(impl Abort + AllocGlobal),
    engine: &'a Engine,
    script: &'a str,
    is_certificate: bool,
) {
    let (ends, fault) = if is_certificate {
        ((AMPLE, 1, 0), "cannot read certificate")
    } else {
        ((1, AMPLE, 0), "cannot read script")
    };
    for kind in &KINDS {
        is_answered_over_std(rt, &run_of(engine, script, ends, fault, ""), Some(*kind));
    }
}

#[test]
fn failing_sources(rt: HostRuntime) {
    for (engine, script, is_certificate) in &SOURCES {
        let text = if *is_certificate { LOOP_TEXT } else { *script };
        for before in 0..text.len() + 1 {
            // where the script's reads fail, the certificate's would fail at once
            let (ends, fault) = if *is_certificate {
                ((AMPLE, before, AMPLE), "cannot read certificate")
            } else {
                ((before, 0, AMPLE), "cannot read script")
            };
            fails_at(&rt, &run_of(engine, *script, ends, fault, ""));
        }
        fails_with_each_kind(&rt, engine, *script, *is_certificate);
    }
}

/// A source whose first read fails, and none after it.
#[test]
fn sources_that_failed_before(rt: HostRuntime) {
    let mut script = FromRead::new(Reader {
        source: source_of(LOOP.as_bytes(), AMPLE, 0),
        kind: ErrorKind::Other,
    });
    let mut unused = source_of(b"", AMPLE, AMPLE);
    let mut out = sink_with(rt.alloc(), AMPLE, AMPLE);
    for wanted in ["cannot read script", "yes"] {
        let found = outcome(&rt, &Engine::Files, &mut script, &mut unused, &mut out);
        require(&rt, found.as_str() == wanted, b"read twice");
    }
}

/// Whether just the front of a report goes out where there is no more room, and this is said.
fn goes_out<'a>(
    rt: &(impl Abort + AllocGlobal),
    engine: &'a Engine,
    script: &'a str,
    answer: &'a str,
    front: &'a str,
) {
    let ends = (AMPLE, AMPLE, front.len());
    let run = run_of(engine, script, ends, answer, front);
    is_answered(rt, &run, 1);
    is_answered(rt, &run, 4);
    // a call that takes no byte, and one that is interrupted
    is_answered_over_std(rt, &run, None);
    is_answered_over_std(rt, &run, Some(ErrorKind::Interrupted));
}

/// Whether a write that fails at once is reported, whatever its error.
fn fails_at_once<'a>(rt: &(impl Abort + AllocGlobal), engine: &'a Engine, script: &'a str) {
    let run = run_of(engine, script, (AMPLE, AMPLE, 0), "cannot write", "");
    for kind in &KINDS {
        is_answered_over_std(rt, &run, Some(*kind));
    }
}

#[test]
fn failing_sinks(rt: HostRuntime) {
    for (engine, script, told, report) in &SINKS {
        for room in 0..report.len() {
            let front = report.get(..room).expect(&rt, "a beginning");
            goes_out(&rt, engine, *script, "cannot write", front);
        }
        goes_out(&rt, engine, *script, *told, *report);
        fails_at_once(&rt, engine, *script);
    }
}

/// The engine, whether the long text is the certificate's, how much is given of the script and of the certificate before reads fail,
/// and what is reported: what lies after the limit is never read.
static LIMITS: [(Engine, bool, usize, usize, &'static str); 7] = [
    (Engine::Check, false, 1_048_576, AMPLE, "cannot read script"),
    (
        Engine::Check,
        false,
        1_048_577,
        AMPLE,
        "script fault 1 too-long at 1048576",
    ),
    (
        Engine::Check,
        false,
        AMPLE,
        AMPLE,
        "script fault 1 too-long at 1048576",
    ),
    (
        Engine::Check,
        true,
        AMPLE,
        1_572_864,
        "cannot read certificate",
    ),
    (
        Engine::Check,
        true,
        AMPLE,
        1_572_865,
        "certificate fault 1 bad-header at line 1",
    ),
    (
        Engine::Upgrade,
        true,
        0,
        1_572_864,
        "cannot read certificate",
    ),
    (
        Engine::Upgrade,
        true,
        0,
        1_572_865,
        "certificate fault 1 bad-header at line 1",
    ),
];

#[test]
fn limits(rt: HostRuntime) {
    let long = "\n".repeat(rt.alloc(), 1_700_000).expect(&rt, "memory");
    for (engine, is_certificate, script_end, certificate_end, fault) in &LIMITS {
        let (script, certificate) = if *is_certificate {
            ("", long.as_str())
        } else {
            (long.as_str(), "")
        };
        let run = Run {
            engine,
            script,
            certificate,
            ends: (*script_end, *certificate_end, 0),
            answer: *fault,
            report: "",
        };
        is_answered(&rt, &run, 100_000);
    }
}
