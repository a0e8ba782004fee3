//! The program `sedck-explain`, but for its streams: what its arguments ask for, read and explained, with the report written.
//!
//! `inputs_of` reads a script and its certificate, and `explain_inputs` explains them, `explain_all` several scripts, `explain_words` and
//! `explain_call` a call of sed, and `program` does what the arguments ask for. Their exit status is proved to be that of what is said of
//! what was read: of several scripts and of all calls in files the worst one. Where commands are read with other delimiters,
//! `Unknown` takes the place of a yes.
#![tactic(auto)]

mod calls;
mod command_line;
mod conditions;
mod delivering;
mod explaining;
mod finding;
mod format;
mod mending;
mod policy;
mod reading;
mod request;
mod scanning;
mod session;
mod sets;
mod unexplained;
mod words;

pub use calls::explain_words;
pub use command_line::{
    System, explain_all, explain_call, flushed, program, program_over, spell_script,
};
pub use explaining::{Inputs, explain_inputs, inputs_of};
pub use format::{Format, NAMES, Style};
pub use request::{Request, request_of};
pub use sedck_calls_in_files::{Named, Reporter, deliver, out_of_memory, unwritten};
pub use sedck_explanation::{Denied, Level, Status};
pub use session::Session;
pub use words::{Words, arguments};
