//! What isn't explained, and why.

ghost use Rattle.std.specs.Prelude.{◌≡◌};

use crate::format::Format;
use crate::session::Session;
use sedck_calls_in_files::{NOT_UTF_8, Unread, end, ended, why_unread};
use sedck_cert::streams::{Sink, write_all};
use sedck_engines::{Input, Opener, RunFault};
use sedck_explanation::{Status, Unexplained};
use sedck_formats::{json_unreadable, sarif_unreadable};

/// Reports what is wrong with the words of the command line, and answers the exit status.
pub(crate) fn misused<E: Sink>(err: &mut E, words: &[u8]) -> Status
    ensures { result ≡ Status.Misused }
{
    end(err, words, Status::Misused)
}

/// Reports why a call isn't explained, and answers the exit status.
pub(crate) fn report_unexplained<R: AllocGlobal, O: Opener, F, W: Sink, E: Sink>(
    session: &Session<R, O, F>,
    words: &[&[u8]],
    fault: Unexplained,
    out: &mut W,
    err: &mut E,
) -> Status
    ensures { result ≡ Status.Failed }
{
    let Unexplained::Unread(origin) = fault else {
        return ended(err, fault);
    };
    let unread = unread_part(session.files, origin.text(words));
    match report_unread(session, unread, "sed", out, err) {
        Ok(()) => Status::Failed,
        Err(fault) => ended(err, fault),
    }
}

/// Reports why a script isn't explained. Whether the next one may follow: after a failed write, or where memory runs out, none does.
pub(crate) fn report_fault<R: AllocGlobal, O: Opener, F, W: Sink, E: Sink>(
    session: &Session<R, O, F>,
    path: &str,
    fault: RunFault,
    out: &mut W,
    err: &mut E,
) -> bool {
    let reported = match fault {
        RunFault::Read(input) => {
            let unread = unread_of(session, path, input);
            report_unread(session, unread, session.request.name_of(path), out, err)
        }
        RunFault::Write => Err(Unexplained::Write),
        // Texts that are refused are reported, so that memory is all that is left.
        _ => Err(Unexplained::OutOfMemory),
    };
    match reported {
        Ok(()) => true,
        Err(fault) => {
            let _ = ended(err, fault);
            false
        }
    }
}

/// Reports that a file can't be read, and writes its object where the format has one, so that programs find one for each script or
/// call, which has this name.
fn report_unread<R: AllocGlobal, O, F, W: Sink, E: Sink>(
    session: &Session<R, O, F>,
    unread: Unread,
    name: &str,
    out: &mut W,
    err: &mut E,
) -> Result<(), Unexplained> {
    let _ = unread.end(err);
    let alloc = session.alloc();
    let report = match session.request.format {
        Format::Sarif => sarif_unreadable(alloc, name, unread.words(alloc)?.as_str())?,
        Format::Json => json_unreadable(alloc, name, unread.words(alloc)?.as_str())?,
        _ => return Ok(()),
    };
    Ok(write_all(out, &report)?)
}

/// Which file of the script at the path can't be read, and why.
fn unread_of<'a, R, O: Opener, F>(
    session: &Session<'_, '_, 'a, R, O, F>,
    path: &'a str,
    input: Input,
) -> Unread<'a> {
    match input {
        Input::Script if path == "-" => Unread {
            name: session.request.stdin_name,
            reason: None,
        },
        Input::Script => unread_file(session.files, path),
        Input::Certificate => {
            unread_file(session.files, session.request.certificate.unwrap_or(path))
        }
    }
}

/// Why a file of a call's script can't be read.
fn unread_part<'a, O: Opener>(files: &O, path: &'a [u8]) -> Unread<'a> {
    match str::from_utf8(path) {
        Ok("-") => Unread {
            name: "-",
            reason: None,
        },
        Ok(path) => unread_file(files, path),
        Err(_) => Unread {
            name: "a file of -f",
            reason: Some(NOT_UTF_8),
        },
    }
}

/// Why the file at the path can't be read.
fn unread_file<'a, O: Opener>(files: &O, path: &'a str) -> Unread<'a> {
    Unread {
        name: path,
        reason: why_unread(files, path),
    }
}
