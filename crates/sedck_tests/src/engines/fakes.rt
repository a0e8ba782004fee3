//! Sources and sinks, and readers and writers of std, that fail when they are asked to.

ghost use Rattle.std.specs.Prelude.{None};

use sedck_cert::streams::{Failed, Sink, Source};
use std::alloc::Global;
use std::io;
use std::io::{ErrorKind, Read, Write};

/// Gives its text in pieces, and fails once so much was given.
#[derive(Drop)]
pub struct Given<'a> {
    pub text: &'a [u8],
    pub piece: usize,
    pub before_failure: usize,
    pub failed: bool,
}

pub fn source_of(text: &[u8], piece: usize, before_failure: usize) -> Given<'_> {
    Given {
        text,
        piece,
        before_failure,
        failed: false,
    }
}

impl Source for Given<'_> {
    ghost left = { λ _. None };

    ghost has_failed = { λ source. source.failed };

    fn read(&mut self, buf: &mut [u8]) -> Result<usize, Failed> {
        if self.before_failure == 0 {
            self.failed = true;
            return Err(Failed);
        }
        let count = self
            .piece
            .min(self.before_failure)
            .min(buf.len())
            .min(self.text.len());
        let (front, rest) = self.text.split_at(count);
        buf[..count].copy_from_slice(front);
        self.text = rest;
        self.before_failure -= count;
        Ok(count)
    }

    fn failed(&self) -> bool {
        self.failed
    }
}

/// A reader of std that gives what the source gives. Where that fails it fails once with an error of the kind, and then goes
/// on, so that a read that is tried again would succeed.
#[derive(Drop)]
pub struct Reader<'a> {
    pub source: Given<'a>,
    pub kind: ErrorKind,
}

impl Read for Reader<'_> {
    fn read(&mut self, buf: &mut [u8]) -> io::Result<usize> {
        match self.source.read(buf) {
            Ok(count) => Ok(count),
            Err(_) => {
                self.source.before_failure = usize::MAX;
                Err(io::Error::from(self.kind))
            }
        }
    }
}

/// Keeps what is written, in pieces, and fails once so much was written.
#[derive(Drop)]
pub struct Kept {
    pub bytes: Vec<u8>,
    pub piece: usize,
    pub room: usize,
    pub failed: bool,
}

pub fn sink_with(alloc: Global, piece: usize, room: usize) -> Kept {
    Kept {
        bytes: Vec::new(alloc),
        piece,
        room,
        failed: false,
    }
}

impl Sink for Kept {
    ghost taken = { λ _. None };

    ghost has_failed = { λ sink. sink.failed };

    fn write(&mut self, bytes: &[u8]) -> Result<usize, Failed> {
        let count = self.piece.min(self.room).min(bytes.len());
        if (count == 0 && !bytes.is_empty())
            || self.bytes.extend_from_slice(&bytes[..count]).is_err()
        {
            self.failed = true;
            return Err(Failed);
        }
        self.room -= count;
        Ok(count)
    }

    fn failed(&self) -> bool {
        self.failed
    }
}

/// A writer of std that takes what the sink takes. Where that fails it fails once with an error of the kind, or takes no
/// byte where there is none, and then goes on.
#[derive(Drop)]
pub struct Writer {
    pub sink: Kept,
    pub kind: Option<ErrorKind>,
}

impl Write for Writer {
    fn write(&mut self, bytes: &[u8]) -> io::Result<usize> {
        if let Ok(count) = self.sink.write(bytes) {
            return Ok(count);
        }
        self.sink.room = usize::MAX;
        match self.kind {
            Some(kind) => Err(io::Error::from(kind)),
            None => Ok(0),
        }
    }

    fn flush(&mut self) -> io::Result<()> {
        Ok(())
    }
}
