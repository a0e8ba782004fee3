//! The program `sedck`, but for its streams: what its arguments ask for, done by the engines on the files that they name.
#![tactic(auto)]

mod command_line;
mod in_memory;
mod refusal_line;

pub use command_line::{Refusal, flushed, program, program_over};
pub use in_memory::{Ended, InMemory, check_in_memory};
pub use sedck_cert::streams::FromWrite;
pub use sedck_engines::{
    FromFiles, Input, Opener, Outcome, RunFault, read_certificate, read_script, run_check,
    run_files, run_graph, run_rank, run_upgrade,
};
