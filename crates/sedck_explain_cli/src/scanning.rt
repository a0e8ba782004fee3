//! Calls of sed in files and folders.

ghost use Rattle.std.specs.Prelude.{◌≡◌, ◌≢◌};
ghost use Rattle.std.specs.Io.KnownBytes.{Keeps};
ghost use Rattle.sedck_calls_in_files.specs.Scanned.{PathStatus, IsWorstOf};
ghost use Rattle.sedck_explain_cli.specs.Requests.{scripts_of, asked_by};
ghost use Rattle.sedck_explain_cli.specs.Spelled.{SpellsFound};

use crate::request::Request;
use crate::session::Session;
use crate::unexplained::misused;
use sedck_calls_in_files::{Finder, Look, Scan, Walk, scan_files, spell_call};
use sedck_cert::streams::Sink;
use sedck_engines::Opener;
use sedck_explanation::Status;
use sedck_found::Assumptions;
use std::fs::Files;
use std::io::Input;

/// Explains the calls of sed in the files of the request and below its folders, and answers the exit status.
pub(crate) fn explain_files<
    R: Files + Input + AllocGlobal + Clone + Drop,
    O: Opener,
    F: Finder,
    W: Sink,
    E: Sink,
>(session: &Session<R, O, F>, out: &mut W, err: &mut E) -> Status
    ensures status { result ≢ Status.Misused → result ≢ Status.Failed
        → IsWorstOf (PathStatus (O.known session.now.files.now) (F.found session.now.finder.now) (asked_by session.now.request.now)) Status.Accepted
        (scripts_of session.now.request.now) result }
    ensures refused { result ≡ Status.Misused → Keeps (W.taken out.old) (W.taken out.new) }
    ensures silent { result ≢ Status.Misused → result ≢ Status.Failed → Keeps (E.taken err.old) (E.taken err.new) }
{
    let Some(look) = session.request.format.look(session.colour) else {
        return misused(err, b"this format is for one script\n");
    };
    let scan = scan_of(session.request, look);
    let walk = Walk {
        rt: session.rt,
        files: session.files,
        finder: session.finder,
        scan: &scan,
    };
    scan_files(&walk, out, err)
}

/// Writes the script of a call in a file in its plain spelling, and answers the exit status.
pub(crate) fn spell_found<
    R: Files + Input + AllocGlobal + Clone + Drop,
    O: Opener,
    F: Finder,
    W: Sink,
    E: Sink,
>(session: &Session<R, O, F>, out: &mut W, err: &mut E) -> Status
    ensures spelled { result ≢ Status.Misused → result ≢ Status.Failed
        → SpellsFound (O.known session.now.files.now) (F.found session.now.finder.now) (asked_by session.now.request.now)
        (scripts_of session.now.request.now) (record { before = W.taken out.old; after = W.taken out.new }) result }
    ensures refused { result ≡ Status.Misused → Keeps (W.taken out.old) (W.taken out.new) }
    ensures silent { result ≡ Status.Accepted → Keeps (E.taken err.old) (E.taken err.new) }
{
    let Some(at) = session.request.at else {
        return misused(err, b"--format sed is for one call: give --at LINE\n");
    };
    let [path] = session.request.scripts.as_slice() else {
        return misused(err, b"--at is for one file\n");
    };
    let scan = scan_of(session.request, Look::Text { colour: false });
    let walk = Walk {
        rt: session.rt,
        files: session.files,
        finder: session.finder,
        scan: &scan,
    };
    spell_call(&walk, path, at, out, err)
}

/// The scan that is asked for, whose reports look so.
fn scan_of<'a>(request: &'a Request<'_>, look: Look) -> Scan<'a>
    ensures paths { result.paths.now ≡ request.now.scripts.items }
    ensures denied { result.denied ≡ request.now.denied }
    ensures assumed { result.assumed.variables.now ≡ request.now.assumed.items }
{
    Scan {
        paths: &request.scripts,
        kind: request.kind,
        assumed: Assumptions {
            variables: &request.assumed,
            mends: request.mends,
        },
        denied: request.denied,
        look,
        least: request.least,
    }
}
