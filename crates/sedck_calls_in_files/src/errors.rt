//! What the program writes to standard error: why it ends, and which file can't be read.

ghost use Rattle.std.specs.Prelude.{◌≡◌, ◌++◌, false, codes, OnOk};
ghost use Rattle.std.specs.Io.KnownBytes.{Appends};
ghost use Rattle.sedck_cert.specs.Streams.{ReportsFailure};
ghost use Rattle.sedck_calls_in_files.specs.Lines.{error_line};

use sedck_cert::streams::{Failed, Sink, write_all};
use sedck_engines::Opener;
use sedck_explanation::{Status, Unexplained};
use sedck_formats::shown_letter;
use std::alloc::{AllocError, Global};

/// Writes why the program ends, and answers its exit status.
pub fn end<E: Sink>(err: &mut E, words: &[u8], status: Status) -> Status
    ensures status { result ≡ status }
    ensures line { E.has_failed err.new ≡ false → Appends (E.taken err.old) (E.taken err.new) (codes "sedck-explain: " ++ words.now) }
{
    let _ = write_named(err, words);
    status
}

/// Writes the words after the program's name.
pub(crate) fn write_named<E: Sink>(err: &mut E, words: &[u8]) -> Result<(), Failed>
    ensures written { OnOk result (Appends (E.taken err.old) (E.taken err.new) (codes "sedck-explain: " ++ words.now)) }
    ensures failure { ReportsFailure result (E.has_failed err.old) (E.has_failed err.new) }
{
    write_all(err, b"sedck-explain: ")?;
    write_all(err, words)
}

/// Reports that memory ran out, and answers the exit status.
pub fn out_of_memory<E: Sink>(err: &mut E) -> Status
    ensures { result ≡ Status.Failed }
{
    end(err, b"out of memory\n", Status::Failed)
}

/// Reports that the output can't be written, and answers the exit status.
pub fn unwritten<E: Sink>(err: &mut E) -> Status
    ensures status { result ≡ Status.Failed }
    ensures line { E.has_failed err.new ≡ false → Appends (E.taken err.old) (E.taken err.new) (error_line (codes "cannot write")) }
{
    end(err, b"cannot write\n", Status::Failed)
}

/// Reports why nothing more is explained, and answers the exit status.
pub fn ended<E: Sink>(err: &mut E, fault: Unexplained) -> Status
    ensures { result ≡ Status.Failed }
{
    match fault {
        Unexplained::Write => unwritten(err),
        _ => out_of_memory(err),
    }
}

/// Files are opened by names of text alone; what standard input is has no name.
pub const NOT_UTF_8: &str = "its name is not UTF-8; give the file as standard input";

/// Why the file at the path can't be read. A path has NUL before the two digits of a byte where it isn't UTF-8.
pub fn why_unread<O: Opener>(files: &O, path: &str) -> Option<&'static str> {
    if path.contains('\0') {
        Some(NOT_UTF_8)
    } else {
        files.why_unreadable(path)
    }
}

/// A file that can't be read.
#[derive(Clone, Copy)]
pub struct Unread<'a> {
    pub name: &'a str,
    /// Why, where that is known.
    pub reason: Option<&'static str>,
}

impl Unread<'_> {
    /// Reports which file can't be read, and why, and answers the exit status. It takes no memory.
    pub fn end<E: Sink>(self, err: &mut E) -> Status
        ensures { result ≡ Status.Failed }
    {
        let _ = self.write(err);
        Status::Failed
    }

    fn write<E: Sink>(self, err: &mut E) -> Result<(), Failed> {
        write_named(err, b"cannot read ")?;
        for letter in self.name.chars() {
            write_all(
                err,
                shown_letter(letter).encode_utf8(&mut [0; 4]).as_bytes(),
            )?;
        }
        if let Some(reason) = self.reason {
            write_all(err, b": ")?;
            write_all(err, reason.as_bytes())?;
        }
        write_all(err, b"\n")
    }

    /// The same in words, without the newline.
    pub fn words(self, alloc: Global) -> Result<String, AllocError> {
        let mut words = String::from_str(alloc, "cannot read ")?;
        for letter in self.name.chars() {
            words.push(shown_letter(letter))?;
        }
        if let Some(reason) = self.reason {
            words.push_str(": ")?;
            words.push_str(reason)?;
        }
        Ok(words)
    }
}
