//! The program `sedck`: its words, its standard streams and its exit status. All else is in `sedck_cli`.
#![tactic(auto)]

use sedck_cli::{FromWrite, Refusal, RunFault, flushed, program};
use std::env;
use std::io::ErrorKind;
use std::process::ExitCode;
use std::rt::Env;

fn main(rt: HostRuntime) -> ExitCode {
    let mut out = FromWrite::new(rt.stdout());
    let mut err = FromWrite::new(rt.stderr());
    let status = match words(&rt) {
        Ok(words) => program(&rt, &words, &mut out, &mut err),
        Err(refusal) => refusal.report(&mut err),
    };
    ExitCode::from(flushed(status, out.into_inner(), &mut err))
}

/// The words after the program's name. Any that is not UTF-8 is of no known form.
fn words(rt: &(impl Env + AllocGlobal)) -> Result<Vec<String>, Refusal> {
    match env::args(rt) {
        Ok(words) => Ok(words.skip(1).collect(rt.alloc())?),
        Err(error) => match error.kind() {
            ErrorKind::OutOfMemory => Err(Refusal::Run(RunFault::OutOfMemory)),
            _ => Err(Refusal::Usage),
        },
    }
}
