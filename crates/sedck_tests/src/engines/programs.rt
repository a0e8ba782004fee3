//! The program over texts in memory, and reports that can't be flushed.
use super::{ACCEPTED, LOOP, LOOP_CERTIFICATE};
use crate::texts::{require, require_bytes};
use sedck_cert::streams::FromWrite;
use sedck_cli::{check_in_memory, flushed};
use std::io;
use std::io::{ErrorKind, Write};

/// A script, a certificate, the status and the output.
static CHECKED: [(&'static str, &'static str, u8, &'static str); 4] = [
    (LOOP, LOOP_CERTIFICATE, 0, ACCEPTED),
    ("", LOOP_CERTIFICATE, 1, "rejected 1 wrong-count\n"),
    ("b z", LOOP_CERTIFICATE, 2, ""),
    (LOOP, "x", 2, ""),
];

#[test]
fn checked_in_memory(rt: HostRuntime) {
    for (script, certificate, status, output) in &CHECKED {
        let text = script.as_bytes();
        let ended = check_in_memory(rt.alloc(), text, certificate.as_bytes());
        let ended = ended.expect(&rt, "memory");
        require(&rt, ended.status == *status, text);
        require_bytes(&rt, &ended.output, output.as_bytes(), text);
    }
}

/// Takes every byte, and can't be flushed.
#[derive(Drop)]
struct Unflushed;

impl Write for Unflushed {
    fn write(&mut self, buf: &[u8]) -> io::Result<usize> {
        Ok(buf.len())
    }

    fn flush(&mut self) -> io::Result<()> {
        Err(io::Error::from(ErrorKind::Other))
    }
}

/// A status, the one that it becomes where the report can't be flushed, and what is written to standard error.
static FLUSHES: [(u8, u8, &'static str); 3] = [
    (0, 4, "sedck: cannot write\n"),
    (1, 4, "sedck: cannot write\n"),
    (2, 2, ""),
];

#[test]
fn reports_that_cannot_be_flushed(rt: HostRuntime) {
    for (status, end, line) in &FLUSHES {
        let mut err = FromWrite::new(Vec::new(rt.alloc()));
        let found = flushed(*status, Unflushed, &mut err);
        require(&rt, found == *end, line.as_bytes());
        require_bytes(&rt, &err.into_inner(), line.as_bytes(), line.as_bytes());
    }
}
