//! The program `sedck-explain`: its arguments, its standard streams and its exit status. All else is in `sedck_explain_cli`.
#![tactic(auto)]

mod checker;
mod quiet;

use crate::checker::write_checker;
use crate::quiet::{Muted, Watched};
use sedck_cert::streams::{FromWrite, write_all};
use sedck_explain_cli::{Status, Words, arguments, flushed, out_of_memory, program, unwritten};
use std::cell::Cell;
use std::env;
use std::env::VarError;
use std::io::IsTerminal;
use std::process::ExitCode;
use std::rt::Env;

/// What is said on a terminal before a script is read from there.
const WAITING: &[u8] =
    b"sedck-explain: reading a script from the terminal, to the end of input (Ctrl-D); --help shows what else it does\n";

fn main(rt: HostRuntime) -> ExitCode {
    let is_gone = Cell::new(false);
    let mut out = FromWrite::new(Watched::new(rt.stdout(), &is_gone));
    let mut err = FromWrite::new(Muted::new(rt.stderr(), &is_gone));
    let colour = wants_colour(&rt) && rt.stdout().is_terminal();
    let status = match arguments(&rt) {
        Ok(words) => {
            if is_empty(&words) && rt.stdin().is_terminal() {
                // Whoever started it by mistake sees what it waits for; if this can't be written, it reads all the same.
                let _ = write_all(&mut err, WAITING);
            }
            let status = program(&rt, &words, colour, &mut out, &mut err);
            if status == Status::Accepted
                && asks_for_version(&words)
                && write_checker(&rt, &mut out).is_err()
            {
                unwritten(&mut err)
            } else {
                status
            }
        }
        Err(_) => out_of_memory(&mut err),
    };
    ExitCode::from(flushed(status, out.into_inner(), &mut err).code())
}

/// Whether no word is given.
fn is_empty(words: &Words) -> bool {
    words.own.is_empty() && words.call.is_none()
}

/// Whether the version is all that is asked for.
fn asks_for_version(words: &Words) -> bool {
    match words.own.as_slice() {
        [word] => words.call.is_none() && (word.as_str() == "-V" || word.as_str() == "--version"),
        _ => false,
    }
}

/// Whether the user hasn't asked for no colours (no-color.org): `NO_COLOR` is empty or isn't set.
fn wants_colour(rt: &(impl Env + AllocGlobal)) -> bool {
    match env::var(rt, "NO_COLOR") {
        Ok(value) => value.is_empty(),
        Err(error) => error == VarError::NotPresent,
    }
}
