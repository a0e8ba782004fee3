//! Certificates as values: those that are made, the limit on steps, and writes that fail.
use crate::engines::fakes::{Writer, sink_with};
use crate::texts::{certificate_of, require, require_bytes, script_of};
use sedck_cert::streams::{FromWrite, Sink};
use sedck_cert::{Bound, Cert, bound, write_cert};
use std::alloc::Global;
use std::io::ErrorKind;
use std::process::Abort;

/// The number of commands and of nodes, which have no ranks, the names to read, and whether there is such a certificate.
type Parts = (u16, u16, &'static [&'static str], bool);

static MADE: [Parts; 7] = [
    (0, 4, &[], true),
    (0, 2, &[], false),
    (1, 4, &[], false),
    (4096, 16388, &[], false),
    (0, 4, &["a", "b"], true),
    (0, 4, &["a", "a"], false),
    (0, 4, &["a\0"], false),
];

/// Whether there is a certificate with this many nodes and these names to read.
fn is_made(rt: &impl Abort, alloc: Global, commands: u16, nodes: u16, names: &[&str]) -> bool {
    let mut ranks = Vec::new(alloc);
    for _ in 0..nodes {
        ranks.push(None).expect(rt, "memory");
    }
    let mut reads = Vec::new(alloc);
    for name in names {
        let copy = Vec::from_slice(alloc, name.as_bytes()).expect(rt, "memory");
        reads.push(copy).expect(rt, "memory");
    }
    Cert::new(commands, ranks, reads, Vec::new(alloc)).is_some()
}

#[test]
fn made(rt: HostRuntime) {
    for (commands, nodes, names, wanted) in &MADE {
        let made = is_made(&rt, rt.alloc(), *commands, *nodes, *names);
        require(&rt, made == *wanted, b"a certificate");
    }
}

/// One command that keeps the pattern space.
const KEEPS: &str = "sedck 1\ncommands 1\n0 0 0 1\n0 1 -\n1 0 0 0\n1 1 -\nread 0\nwrite 0\nend\n";

/// A script, a certificate, and the numbers of the limit, zeros for none: the greatest ranks are 0 and 1, then 7 and 3. There is
/// none where the pattern space may grow, and none where the certificate is rejected.
static BOUNDS: [(&'static str, &'static str, (u64, u64, u64)); 4] = [
    ("p", KEEPS, (2, 4, 2)),
    (
        "",
        "sedck 2\ncommands 0\n0 0 0 7 1\n0 0 1 2 3\n0 1 0 -\n0 1 1 -\nread 0\nwrite 0\nend\n",
        (4, 36, 4),
    ),
    (
        "G",
        "sedck 1\ncommands 1\n0 0 1 0\n0 1 -\n1 0 0 9\n1 1 -\nread 0\nwrite 0\nend\n",
        (0, 0, 0),
    ),
    ("r f", KEEPS, (0, 0, 0)),
];

/// The numbers of the limit.
fn numbers_of(bound: Option<Bound>) -> (u64, u64, u64) {
    match bound {
        Some(bound) => (bound.per_byte, bound.per_line, bound.fixed),
        None => (0, 0, 0),
    }
}

#[test]
fn bounds(rt: HostRuntime) {
    for (script, certificate, wanted) in &BOUNDS {
        let text = script.as_bytes();
        let script = script_of(&rt, rt.alloc(), text);
        let cert = certificate_of(&rt, rt.alloc(), certificate.as_bytes());
        require(&rt, numbers_of(bound(&script, &cert)) == *wanted, text);
    }
}

/// The certificate of an endless script of three commands, and one with six names, of odd bytes, that are read. These are statics: a
/// constant's bytes would be in the proof of each function that names it.
static WRITTEN: [&'static [u8]; 2] = [
    b"sedck 2\ncommands 3\n0 0 0 2 2\n0 0 1 2 2\n0 1 0 -\n0 1 1 -\n1 0 0 1 1\n1 0 1 1 1\n1 1 0 -\n1 1 1 -\n2 0 0 3 3\n\
      2 0 1 3 3\n2 1 0 -\n2 1 1 -\n3 0 0 -\n3 0 1 -\n3 1 0 -\n3 1 1 -\nread 0\nwrite 0\nend\n",
    b"sedck 2\ncommands 6\n0 0 0 9 9\n0 0 1 9 9\n0 1 0 -\n0 1 1 -\n1 0 0 8 8\n1 0 1 8 8\n1 1 0 -\n1 1 1 -\n2 0 0 7 7\n\
      2 0 1 7 7\n2 1 0 -\n2 1 1 -\n3 0 0 6 6\n3 0 1 6 6\n3 1 0 -\n3 1 1 -\n4 0 0 5 5\n4 0 1 5 5\n4 1 0 -\n4 1 1 -\n\
      5 0 0 4 4\n5 0 1 4 4\n5 1 0 -\n5 1 1 -\n6 0 0 3 3\n6 0 1 3 3\n6 1 0 -\n6 1 1 -\nread 6\nZ\na\na b \na;b}\nend\n\
      \xe9\nwrite 0\nend\n",
];

/// Whether just this front of the certificate's text is written where there is no more room, by writes of one byte, and the failure
/// is reported. A failing write has an error of the kind, or takes no byte.
fn is_cut(rt: &impl Abort, alloc: Global, cert: &Cert, front: &[u8], kind: Option<ErrorKind>) {
    let sink = sink_with(alloc, 1, front.len());
    let mut out = FromWrite::new(Writer { sink, kind });
    let is_reported = write_cert(cert, &mut out).is_err() && out.failed();
    require(rt, is_reported, front);
    require_bytes(rt, &out.into_inner().sink.bytes, front, front);
}

#[test]
fn writes_that_fail(rt: HostRuntime) {
    for text in &WRITTEN {
        let cert = certificate_of(&rt, rt.alloc(), *text);
        for room in 0..text.len() {
            let front = &text[..room];
            is_cut(&rt, rt.alloc(), &cert, front, None);
            is_cut(&rt, rt.alloc(), &cert, front, Some(ErrorKind::Interrupted));
        }
    }
}
