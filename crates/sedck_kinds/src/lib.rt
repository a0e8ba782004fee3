//! Kinds of files that have shell text: what a file is by its name and its first line.
//!
//! Nothing is promised of which kind it is.
#![tactic(auto)]

mod kind;
mod words;

pub use kind::{Kind, is_dollar_quoting, is_run_by_sed, kind_of, shell_of};
pub use words::{is, is_word_of, named};
