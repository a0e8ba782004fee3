//! What opens the files that arguments name.

ghost use Rattle.std.specs.Prelude.{◌≡◌, true, false, List, ℕ, Option, None, Some, IsTrue, IfOk, IfSome, OnErr};
ghost use Rattle.sedck_engines.specs.Opened.{Known, unknown};

use sedck_cert::streams::{Failed, FromRead, Source};
use std::fs::Files;
use std::io::{ErrorKind, Read};
use std::{fs, io};

/// What opens the files that arguments name.
pub trait Opener {
    /// What reads an open file.
    type File: Source + Drop;

    /// What is known of the files.
    ghost known: { Self → Known };

    /// Opens the file at the path, to read it from its beginning.
    fn open(&self, path: &str) -> Result<Self::File, Failed>
        ensures bytes { IfOk result (λ file. IfSome ((known self.now).bytes_at path.now) (λ bytes. Self.File.left file ≡ Some bytes)) }
        ensures opened { IfOk result (λ file. (known self.now).may_open path.now true) }
        ensures refused { OnErr result ((known self.now).may_open path.now false) }
        ensures failing { (file : Self.File) → IsTrue (Self.File.has_failed file) → (known self.now).may_fail };

    /// Why the file at the path can't be read, in a few words, where that is known. It tries once more, since a failed read keeps
    /// no reason.
    fn why_unreadable(&self, _path: &str) -> Option<&'static str> {
        None
    }
}

/// The files of the system. Nothing is known of them.
#[derive(Drop)]
pub struct FromFiles<'a, R> {
    files: &'a R,
}

impl<'a, R: Files> FromFiles<'a, R> {
    pub fn new(files: &'a R) -> FromFiles<'a, R> {
        FromFiles { files }
    }
}

impl<R: Files> Opener for FromFiles<'_, R> {
    type File = FromRead<R::File>;

    ghost known = { λ _. unknown };

    fn open(&self, path: &str) -> Result<FromRead<R::File>, Failed> {
        match fs::open(self.files, path) {
            Ok(file) => Ok(FromRead::new(file)),
            Err(_) => Err(Failed),
        }
    }

    fn why_unreadable(&self, path: &str) -> Option<&'static str> {
        match first_byte(self.files, path) {
            Ok(()) => None,
            Err(error) => reason_of(error.kind()),
        }
    }
}

/// Opens the file at the path, and reads its first byte.
fn first_byte<R: Files>(files: &R, path: &str) -> io::Result<()> {
    let mut file = fs::open(files, path)?;
    file.read(&mut [0])?;
    Ok(())
}

/// The reason in words, for those that a user can mend.
fn reason_of(kind: ErrorKind) -> Option<&'static str> {
    match kind {
        ErrorKind::NotFound => Some("no such file"),
        ErrorKind::PermissionDenied => Some("permission denied"),
        ErrorKind::IsADirectory => Some("it is a directory"),
        ErrorKind::NotADirectory => Some("a part of the path is not a directory"),
        ErrorKind::FilesystemLoop => Some("too many symbolic links"),
        ErrorKind::InvalidFilename => Some("the name is too long"),
        _ => None,
    }
}
