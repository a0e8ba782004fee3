//! No line of an error where the reader of the report is gone, as after `| head -n 1`: whoever closed the pipe wants no more. The exit
//! status still is that of a report that can't be written.

use std::cell::Cell;
use std::io::{ErrorKind, Result, Write};

/// The output, which notices that its reader is gone.
#[derive(Drop)]
pub(crate) struct Watched<'a, W> {
    inner: W,
    is_gone: &'a Cell<bool>,
}

impl<'a, W: Write> Watched<'a, W> {
    pub(crate) fn new(inner: W, is_gone: &'a Cell<bool>) -> Watched<'a, W> {
        Watched { inner, is_gone }
    }
}

impl<W: Write> Write for Watched<'_, W> {
    ghost contents = { λ watched. W.contents watched.inner };

    fn write(&mut self, bytes: &[u8]) -> Result<usize> {
        let result = self.inner.write(bytes);
        notice(&result, self.is_gone);
        result
    }

    fn flush(&mut self) -> Result<()> {
        let result = self.inner.flush();
        notice(&result, self.is_gone);
        result
    }
}

/// Keeps that the reader is gone, if this is why nothing was written.
fn notice<T>(written: &Result<T>, is_gone: &Cell<bool>) {
    if let Err(error) = written
        && error.kind() == ErrorKind::BrokenPipe
    {
        is_gone.set(true);
    }
}

/// Standard error, which takes nothing more once the reader of the output is gone. What it holds is never known.
#[derive(Drop)]
pub(crate) struct Muted<'a, W> {
    inner: W,
    is_gone: &'a Cell<bool>,
}

impl<'a, W: Write> Muted<'a, W> {
    pub(crate) fn new(inner: W, is_gone: &'a Cell<bool>) -> Muted<'a, W> {
        Muted { inner, is_gone }
    }
}

impl<W: Write> Write for Muted<'_, W> {
    fn write(&mut self, bytes: &[u8]) -> Result<usize> {
        if self.is_gone.get() {
            return Ok(bytes.len());
        }
        self.inner.write(bytes)
    }

    fn flush(&mut self) -> Result<()> {
        self.inner.flush()
    }
}
