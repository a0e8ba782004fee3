//! The program over texts in memory: what it promises of its words, its files and its output, with nothing left open but memory.

ghost use Rattle.std.specs.Prelude.{◌≡◌, ◌⊎◌, ◌↔◌, [], None, Some, false, is_some, IfOk};
ghost use Rattle.sedck_cert.specs.Ranked.{Accepts};
ghost use Rattle.sedck_cert.specs.Headline.{SpellBoth, ReadBoth, IsSafe};
ghost use Rattle.sedck_cert.specs.Everywhere.{IsSafeEverywhere};
ghost use Rattle.sedck_engines.specs.Engines.{ChecksTo};
ghost use Rattle.sedck_cli.specs.Lines.{refusal_line};
ghost use Rattle.sedck_cli.specs.Private.Requests.{two_files};

use crate::command_line::{Refusal, program_over};
use sedck_cert::streams::{Failed, Sink, Source};
use sedck_engines::{Opener, Outcome, RunFault};
use std::alloc::{AllocError, Global};

/// What is left to read of a text in memory. No read fails.
#[derive(Drop)]
pub struct InMemory<'a> {
    rest: &'a [u8],
}

impl Source for InMemory<'_> {
    ghost left = { λ source. Some source.rest.now };

    ghost has_failed = { λ _. false };

    fn read(&mut self, buf: &mut [u8]) -> Result<usize, Failed> {
        let count = buf.len().min(self.rest.len());
        let (front, rest) = self.rest.split_at(count);
        buf[..count].copy_from_slice(front);
        self.rest = rest;
        Ok(count)
    }

    fn failed(&self) -> bool {
        false
    }
}

/// Two files in memory, at the paths `a` and `b`.
#[derive(Drop)]
struct TwoFiles<'a> {
    a: &'a [u8],
    b: &'a [u8],
}

impl<'a> Opener for TwoFiles<'a> {
    type File = InMemory<'a>;

    ghost known = { λ files. two_files files.a.now files.b.now };

    fn open(&self, path: &str) -> Result<InMemory<'a>, Failed> {
        match path {
            "a" => Ok(InMemory { rest: self.a }),
            "b" => Ok(InMemory { rest: self.b }),
            _ => Err(Failed),
        }
    }
}

/// Bytes that are written to memory. A write fails only where the vector is refused memory.
#[derive(Drop)]
struct ToMemory {
    bytes: Vec<u8>,
    refused: Option<AllocError>,
}

impl ToMemory {
    /// No bytes.
    fn new(alloc: Global) -> ToMemory
        ensures { (result.bytes.items ≡ []) × (result.refused ≡ None) }
    {
        ToMemory {
            bytes: Vec::new(alloc),
            refused: None,
        }
    }

    /// The bytes, if memory was never refused.
    fn into_bytes(self) -> Result<Vec<u8>, AllocError>
        ensures { IfOk result (λ bytes. (bytes ≡ self.bytes) × (self.refused ≡ None)) }
    {
        match self.refused {
            None => Ok(self.bytes),
            Some(error) => Err(error),
        }
    }
}

impl Sink for ToMemory {
    ghost taken = { λ sink. Some sink.bytes.items };

    ghost has_failed = { λ sink. is_some sink.refused };

    fn write(&mut self, bytes: &[u8]) -> Result<usize, Failed> {
        match self.bytes.extend_from_slice(bytes) {
            Ok(()) => Ok(bytes.len()),
            Err(error) => {
                self.refused = Some(error);
                Err(Failed)
            }
        }
    }

    fn failed(&self) -> bool {
        self.refused.is_some()
    }
}

/// What a run of the program leaves: its exit status, and what is on its output and on standard error.
#[derive(Drop)]
pub struct Ended {
    pub status: u8,
    pub output: Vec<u8>,
    pub error: Vec<u8>,
}

/// `sedck check a b`, where the files `a` and `b` have these bytes.
pub fn check_in_memory(
    alloc: Global,
    script: &[u8],
    certificate: &[u8],
) -> Result<Ended, AllocError>
    // Yes exactly where the bytes spell a script and a certificate that is accepted for it. Memory may run out: that is status 4.
    ensures exact { IfOk result (λ ended. (ended.status ≡ 4) ⊎ ((ended.status ≡ 0) ↔ SpellBoth script.now certificate.now Accepts)) }
    // Nothing else is: status 4 comes with this very line.
    ensures memory { IfOk result (λ ended. (ended.status ≡ 4) ↔ (ended.error.items ≡ refusal_line (Refusal.Run RunFault.OutOfMemory))) }
    // At a yes the script's runs end, and their files are listed.
    ensures promise { IfOk result (λ ended. ended.status ≡ 0 → ReadBoth script.now certificate.now IsSafe) }
    // So it is on several files, with other ends of lines, and in other locales, where the script is byte safe.
    ensures everywhere { IfOk result (λ ended. ended.status ≡ 0 → ReadBoth script.now certificate.now IsSafeEverywhere) }
    // And the output is `accepted`, the limit on steps if there is one, and the files.
    ensures report { IfOk result (λ ended. ended.status ≡ 0 → ChecksTo script.now certificate.now Outcome.Yes ended.output.items) }
{
    let files = TwoFiles {
        a: script,
        b: certificate,
    };
    let words = [
        String::from_str(alloc, "check")?,
        String::from_str(alloc, "a")?,
        String::from_str(alloc, "b")?,
    ];
    let mut out = ToMemory::new(alloc);
    let mut err = ToMemory::new(alloc);
    let status = program_over(alloc, &files, &words, &mut out, &mut err);
    Ok(Ended {
        status,
        output: out.into_bytes()?,
        error: err.into_bytes()?,
    })
}
