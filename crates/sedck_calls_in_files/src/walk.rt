//! Files and folders, one after another.

ghost use Rattle.std.specs.Prelude.{◌≡◌, ◌≢◌, map, IfOk};
ghost use Rattle.std.specs.Io.KnownBytes.{Keeps};
ghost use Rattle.sedck_calls_in_files.specs.Scanned.{asked_of, PathStatus, IsWorstOf};
ghost use Rattle.sedck_calls_in_files.specs.Private.Contents.{ContentsStatus, IsHeldAt};

use crate::answers::{path_report, write_report};
use crate::assumed::assumed_texts;
use crate::errors::{Unread, ended, why_unread, write_named};
use crate::file::explain_text;
use crate::finder::Finder;
use crate::reading::{Contents, contents_of};
use crate::request::{File, FileScan, Look, Scan};
use sedck_cert::streams::{Failed, FromRead, Sink, write_all};
use sedck_engines::{Opener, read_script};
use sedck_explanation::{Status, Unexplained, explain};
use sedck_formats::{Counts, assumed_line, json_counts, json_unreadable};
use std::alloc::{AllocError, Global};
use std::fs;
use std::fs::Files;
use std::io::{Error, ErrorKind, Input};

/// Why a file that is too long can't be read.
pub(crate) const TOO_LONG: Option<&'static str> = Some("it has more than 4,194,304 bytes");

/// Folders of version control, which aren't walked.
static HIDDEN: [&'static str; 5] = [".git", ".hg", ".svn", ".bzr", "_darcs"];

/// What is known so far, and where the reports go.
#[derive(Drop)]
struct Pass<'a, W> {
    counts: Counts,
    /// What can't be read, and why.
    unread: Vec<String>,
    out: &'a mut W,
}

/// What the files and folders are visited with.
#[derive(Drop)]
pub struct Walk<'a, 'b, R, O, F> {
    /// Memory, standard input and the folders of the system.
    pub rt: &'a R,
    pub files: &'a O,
    pub finder: &'a F,
    pub scan: &'b Scan<'b>,
}

/// Explains each call in the files and in those below the folders, in sorted order, writes the reports and at the end how many there
/// are, and answers the exit status: the worst one of the calls, or `Failed` where a file can't be read, a write fails or memory runs
/// out. Links in folders aren't followed. What can't be read is reported at the end.
///
/// Files are opened by the opener, and folders are those of the system.
pub fn scan_files<
    R: Files + Input + AllocGlobal + Clone + Drop,
    O: Opener,
    F: Finder,
    W: Sink,
    E: Sink,
>(walk: &Walk<R, O, F>, out: &mut W, err: &mut E) -> Status
    ensures known { result ≢ Status.Misused }
    ensures worst { result ≢ Status.Failed
        → IsWorstOf (PathStatus (O.known walk.now.files.now) (F.found walk.now.finder.now) (asked_of walk.now.scan.now)) Status.Accepted
        (map (λ path. path.now) walk.now.scan.now.paths.now) result }
    ensures silent { result ≢ Status.Failed → Keeps (E.taken err.old) (E.taken err.new) }
{
    let mut pass = Pass {
        counts: Counts::NONE,
        unread: Vec::new(walk.rt.alloc()),
        out,
    };
    match walk.visit_all(&mut pass) {
        Ok(status) if pass.unread.is_empty() => status_of(status),
        Ok(_) => {
            let _ = write_unread(err, &pass.unread);
            Status::Failed
        }
        Err(fault) => ended(err, fault),
    }
}

/// The status where all was read and written.
fn status_of(status: Status) -> Status
    ensures known { result ≢ Status.Misused }
    ensures same { result ≢ Status.Failed → result ≡ status }
{
    match status {
        Status::Misused => Status::Failed,
        _ => status,
    }
}

impl<R: Files + Input + AllocGlobal + Clone + Drop, O: Opener, F: Finder> Walk<'_, '_, R, O, F> {
    /// Visits all that is given, and writes how many calls there are. Answers the worst status.
    fn visit_all<W: Sink>(&self, pass: &mut Pass<W>) -> Result<Status, Unexplained>
        ensures { IfOk result (IsWorstOf (PathStatus (O.known self.now.files.now) (F.found self.now.finder.now) (asked_of self.now.scan.now)) Status.Accepted
            (map (λ path. path.now) self.now.scan.now.paths.now)) }
    {
        let mut status = Status::Accepted;
        for path in self.scan.paths {
            let one = self.visit_path(path, pass)?;
            status = status.worse(one);
        }
        write_counts(self.rt.alloc(), self.scan, pass.counts, status, pass.out)?;
        Ok(status)
    }

    /// Visits a file that is given, or a folder with all that is below it: the worst status, `Failed` where something
    /// can't be read. The path `-` is standard input.
    fn visit_path<W: Sink>(&self, path: &str, pass: &mut Pass<W>) -> Result<Status, Unexplained>
        ensures { IfOk result (PathStatus (O.known self.now.files.now) (F.found self.now.finder.now) (asked_of self.now.scan.now) path.now) }
    {
        let contents = contents_at(self, path)?;
        if matches!(&contents, Contents::Unreadable) && path != "-" && self.is_folder(path) {
            return self.visit_folder(path, pass);
        }
        self.explain(path, &contents, pass)
    }

    /// Explains the calls of a file that holds this.
    fn explain<W: Sink>(
        &self,
        path: &str,
        contents: &Contents,
        pass: &mut Pass<W>,
    ) -> Result<Status, Unexplained>
        ensures { IfOk result (ContentsStatus (F.found self.now.finder.now path.now) (asked_of self.now.scan.now) contents.now) }
    {
        match contents {
            Contents::Text(kind, text) => {
                let asked = FileScan {
                    alloc: self.rt.alloc(),
                    scan: self.scan,
                    file: File {
                        path,
                        kind: *kind,
                        text,
                    },
                };
                explain_text(&asked, self.finder, &mut pass.counts, pass.out)
            }
            Contents::Other => Ok(Status::Accepted),
            Contents::TooLong => self.report_unread(path, TOO_LONG, pass),
            Contents::Unopened | Contents::Unreadable => self.skip(path, pass),
        }
    }

    /// Whether a folder is at the path.
    fn is_folder(&self, path: &str) -> bool {
        matches!(fs::metadata(self.rt, path), Ok(metadata) if metadata.is_dir())
    }

    /// Visits all that is in the folder, in sorted order: the worst status.
    fn visit_folder<W: Sink>(
        &self,
        folder: &str,
        pass: &mut Pass<W>,
    ) -> Result<Status, Unexplained> {
        let mut pending = Vec::new(self.rt.alloc());
        let mut status = self.enter(folder, &mut pending, pass)?;
        for _ in 0..u64::MAX {
            let Some(next) = pending.pop() else {
                break;
            };
            let one = self.visit_entry(next.as_str(), &mut pending, pass)?;
            status = status.worse(one);
        }
        Ok(status)
    }

    /// Visits an entry of a folder. The entries of a folder are added to what is pending.
    fn visit_entry<W: Sink>(
        &self,
        path: &str,
        pending: &mut Vec<String>,
        pass: &mut Pass<W>,
    ) -> Result<Status, Unexplained> {
        let Ok(metadata) = fs::symlink_metadata(self.rt, path) else {
            return self.skip(path, pass);
        };
        if metadata.is_dir() {
            return self.enter(path, pending, pass);
        }
        if !metadata.is_file() {
            return Ok(Status::Accepted);
        }
        let Ok(mut file) = self.files.open(path) else {
            return self.skip(path, pass);
        };
        // A file with the name of a script has calls only where its first line names a shell or make.
        let is_script = path.ends_with(".sed");
        let named = if is_script { "" } else { path };
        match contents_of(self.rt.alloc(), named, None, false, &mut file)? {
            Contents::Other if is_script => self.explain_script(path, pass),
            contents => self.explain(path, &contents, pass),
        }
    }

    /// Explains the script at the path, which is below a folder.
    fn explain_script<W: Sink>(
        &self,
        path: &str,
        pass: &mut Pass<W>,
    ) -> Result<Status, Unexplained> {
        let alloc = self.rt.alloc();
        let Ok(mut file) = self.files.open(path) else {
            return self.skip(path, pass);
        };
        let Ok(text) = read_script(alloc, &mut file) else {
            return self.skip(path, pass);
        };
        let explanation = explain(alloc, Some(path.as_bytes()), &text, None, self.scan.denied)?;
        pass.counts.scripts = pass.counts.scripts.saturating_add(1);
        let report = path_report(alloc, self.scan, path, &explanation, false);
        write_report(pass.out, report)?;
        Ok(explanation.status)
    }

    /// Adds the entries of the folder to what is pending, unless not all of their names can be read.
    fn enter<W: Sink>(
        &self,
        folder: &str,
        pending: &mut Vec<String>,
        pass: &mut Pass<W>,
    ) -> Result<Status, Unexplained> {
        if add_entries(self.rt, folder, pending)? {
            return Ok(Status::Accepted);
        }
        self.skip(folder, pass)
    }

    /// Keeps that the file or folder can't be read.
    fn skip<W: Sink>(&self, path: &str, pass: &mut Pass<W>) -> Result<Status, Unexplained>
        ensures { IfOk result (λ status. status ≡ Status.Failed) }
    {
        let reason = match why_unread(self.files, path) {
            Some("it is a directory") => Some("not all of its names can be read"),
            other => other,
        };
        self.report_unread(path, reason, pass)
    }

    /// Keeps that a file can't be read, and reports it where each has an object.
    fn report_unread<W: Sink>(
        &self,
        path: &str,
        reason: Option<&'static str>,
        pass: &mut Pass<W>,
    ) -> Result<Status, Unexplained>
        ensures { IfOk result (λ status. status ≡ Status.Failed) }
    {
        let alloc = self.rt.alloc();
        let message = Unread { name: path, reason }.words(alloc)?;
        pass.counts.unreadable = pass.counts.unreadable.saturating_add(1);
        if self.scan.look == Look::Json {
            write_report(pass.out, json_unreadable(alloc, path, message.as_str()))?;
        }
        if pass.unread.push(message).is_err() {
            return Err(Unexplained::OutOfMemory);
        }
        Ok(Status::Failed)
    }
}

/// What the file at the path holds, which is given; `-` is standard input.
pub(crate) fn contents_at<R: Input + AllocGlobal, O: Opener, F>(
    walk: &Walk<R, O, F>,
    path: &str,
) -> Result<Contents, AllocError>
    ensures { IfOk result (IsHeldAt (O.known walk.now.files.now) path.now) }
{
    let alloc = walk.rt.alloc();
    let kind = walk.scan.kind;
    if path == "-" {
        let mut input = FromRead::new(walk.rt.reader());
        return contents_of(alloc, path, kind, true, &mut input);
    }
    match walk.files.open(path) {
        Ok(mut file) => contents_of(alloc, path, kind, true, &mut file),
        Err(_) => Ok(Contents::Unopened),
    }
}

/// Writes what was assumed, and how many calls there are, where the look has such a line.
fn write_counts<W: Sink>(
    alloc: Global,
    scan: &Scan,
    counts: Counts,
    status: Status,
    out: &mut W,
) -> Result<(), Unexplained> {
    let assumed = assumed_texts(alloc, &scan.assumed)?;
    match scan.look {
        Look::Text { .. } => {
            write_report(out, assumed_line(alloc, "", &assumed))?;
            write_report(out, counts.text(alloc))
        }
        Look::Json => write_report(out, json_counts(alloc, counts, &assumed, status)),
        Look::Gcc => write_report(out, assumed_line(alloc, "sedck-explain: note: ", &assumed)),
    }
}

/// Adds the entries of the folder, of which the first in order comes last. Whether all of its names could be read.
fn add_entries<R: Files + AllocGlobal + Clone + Drop>(
    rt: &R,
    folder: &str,
    pending: &mut Vec<String>,
) -> Result<bool, AllocError> {
    let alloc = rt.alloc();
    let entries = match fs::read_dir(rt, folder) {
        Ok(entries) => entries,
        Err(error) => return failed(&error),
    };
    let mut is_whole = true;
    let mut paths: Vec<String> = Vec::new(alloc);
    for entry in entries {
        match entry {
            Ok(entry) => {
                let name = entry.file_name();
                if !HIDDEN.contains(&name) {
                    paths.push(joined(alloc, folder, name)?)?;
                }
            }
            Err(error) => is_whole = failed(&error)?,
        }
    }
    paths.sort()?;
    paths.reverse();
    pending.append(&mut paths)?;
    Ok(is_whole)
}

/// That a folder's names can't all be read, unless it is memory that lacks.
fn failed(error: &Error) -> Result<bool, AllocError> {
    if error.kind() == ErrorKind::OutOfMemory {
        return Err(AllocError);
    }
    Ok(false)
}

/// The path of an entry of the folder.
fn joined(alloc: Global, folder: &str, name: &str) -> Result<String, AllocError> {
    if folder.ends_with('/') {
        return format!(in alloc; "{folder}{name}");
    }
    format!(in alloc; "{folder}/{name}")
}

/// Writes a line for each that can't be read.
fn write_unread<E: Sink>(err: &mut E, unread: &[String]) -> Result<(), Failed> {
    for words in unread {
        write_named(err, words.as_bytes())?;
        write_all(err, b"\n")?;
    }
    Ok(())
}
