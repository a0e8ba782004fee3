//! What is read from and written to, with failures that are remembered.

ghost use Rattle.std.specs.Prelude.{◌≡◌, ◌<◌, ◌≤◌, ℕ, List, length, Option, Bool, IfOk, OnOk, OnErr, false, decimal};
ghost use Rattle.std.specs.Io.KnownBytes.{ReadConsumes, WriteAppends, Appends};
ghost use Rattle.sedck_cert.specs.Streams.{ReportsFailure, AppendsPrefix};

use itoa::Buffer;
use std::io::{Read, Write};

/// A read or a write failed.
#[derive(Clone, Copy)]
pub struct Failed;

/// What is read from.
pub trait Source {
    /// The bytes that reads will give from here on, where they are known.
    ghost left: { Self → Option (List ℕ) };

    /// Whether a read has failed.
    ghost has_failed: { Self → Bool };

    /// Reads into the start of `buf`. 0 bytes into a non-empty buffer is the end.
    fn read(&mut self, buf: &mut [u8]) -> Result<usize, Failed>
        ensures bound { IfOk result (λ count. count ≤ length buf.new) }
        ensures bytes { ReadConsumes (left self.old) (left self.new) result buf.new }
        ensures failure { ReportsFailure result (has_failed self.old) (has_failed self.new) };

    /// Whether a read has failed.
    fn failed(&self) -> bool
        ensures { result ≡ has_failed self.now };
}

/// What is written to.
pub trait Sink {
    /// The bytes that were taken, where they are known.
    ghost taken: { Self → Option (List ℕ) };

    /// Whether a write has failed.
    ghost has_failed: { Self → Bool };

    /// Takes a prefix of `bytes`, and some of it where there is any.
    fn write(&mut self, bytes: &[u8]) -> Result<usize, Failed>
        ensures bound { IfOk result (λ count. count ≤ length bytes.now) }
        ensures some { IfOk result (λ count. 0 < length bytes.now → 0 < count) }
        ensures bytes { WriteAppends (taken self.old) (taken self.new) result bytes.now }
        ensures failure { ReportsFailure result (has_failed self.old) (has_failed self.new) };

    /// Whether a write has failed.
    fn failed(&self) -> bool
        ensures { result ≡ has_failed self.now };
}

/// Writes all of the bytes.
pub fn write_all<W: Sink>(out: &mut W, bytes: &[u8]) -> Result<(), Failed>
    // Where what was taken is known, it grows by all of the bytes, or on an error by a prefix of them.
    ensures written { OnOk result (Appends (W.taken out.old) (W.taken out.new) bytes.now) }
    ensures begun { OnErr result (AppendsPrefix (W.taken out.old) (W.taken out.new) bytes.now) }
    ensures failure { ReportsFailure result (W.has_failed out.old) (W.has_failed out.new) }
{
    let mut rest = bytes;
    while !rest.is_empty() {
        let count = out.write(rest)?;
        rest = &rest[count..];
    }
    Ok(())
}

/// Writes the decimal of the number. It takes no memory.
pub fn write_decimal<W: Sink>(out: &mut W, number: usize) -> Result<(), Failed>
    ensures written { OnOk result (Appends (W.taken out.old) (W.taken out.new) (decimal number)) }
    ensures begun { OnErr result (AppendsPrefix (W.taken out.old) (W.taken out.new) (decimal number)) }
    ensures failure { ReportsFailure result (W.has_failed out.old) (W.has_failed out.new) }
{
    let mut buffer = Buffer::new();
    write_all(out, buffer.format(number).as_bytes())
}

/// A source over a reader of std.
#[derive(Drop)]
pub struct FromRead<R> {
    inner: R,
    failed: bool,
}

impl<R: Read> FromRead<R> {
    /// Nothing has failed yet.
    pub fn new(inner: R) -> FromRead<R>
        ensures left { ⟦<FromRead<R> as Source>⟧.left result ≡ R.remaining inner }
        ensures sound { ⟦<FromRead<R> as Source>⟧.has_failed result ≡ false }
    {
        FromRead {
            inner,
            failed: false,
        }
    }

    /// The reader.
    pub fn into_inner(self) -> R
        ensures { R.remaining result ≡ ⟦<FromRead<R> as Source>⟧.left self }
    {
        self.inner
    }
}

impl<R: Read> Source for FromRead<R> {
    ghost left = { λ source. R.remaining source.inner };

    ghost has_failed = { λ source. source.failed };

    fn read(&mut self, buf: &mut [u8]) -> Result<usize, Failed> {
        match self.inner.read(buf) {
            Ok(count) => Ok(count),
            Err(_) => {
                self.failed = true;
                Err(Failed)
            }
        }
    }

    fn failed(&self) -> bool {
        self.failed
    }
}

/// A sink over a writer of std.
#[derive(Drop)]
pub struct FromWrite<W> {
    inner: W,
    failed: bool,
}

impl<W: Write> FromWrite<W> {
    /// Nothing has failed yet.
    pub fn new(inner: W) -> FromWrite<W>
        ensures taken { ⟦<FromWrite<W> as Sink>⟧.taken result ≡ W.contents inner }
        ensures sound { ⟦<FromWrite<W> as Sink>⟧.has_failed result ≡ false }
    {
        FromWrite {
            inner,
            failed: false,
        }
    }

    /// The writer.
    pub fn into_inner(self) -> W
        ensures { W.contents result ≡ ⟦<FromWrite<W> as Sink>⟧.taken self }
    {
        self.inner
    }
}

impl<W: Write> Sink for FromWrite<W> {
    ghost taken = { λ sink. W.contents sink.inner };

    ghost has_failed = { λ sink. sink.failed };

    fn write(&mut self, bytes: &[u8]) -> Result<usize, Failed> {
        match self.inner.write(bytes) {
            Ok(count) if count > 0 || bytes.is_empty() => Ok(count),
            _ => {
                self.failed = true;
                Err(Failed)
            }
        }
    }

    fn failed(&self) -> bool {
        self.failed
    }
}
