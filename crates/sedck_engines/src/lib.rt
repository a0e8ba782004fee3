//! The engines: what is read from streams is judged, searched or listed, and the report is written to one.
//!
//! Also what opens the files that arguments name. Arguments, statuses and the lines of refusals are the matter of `sedck_cli`.
#![tactic(auto)]

mod answer;
mod engines;
mod input;
mod opener;
mod rank;
mod report;

pub use answer::{Input, Outcome, RunFault};
pub use engines::{
    ScriptReport, run_check, run_files, run_graph, run_rank, run_script, run_upgrade,
};
pub use input::{read_certificate, read_script, read_up_to};
pub use opener::{FromFiles, Opener};
