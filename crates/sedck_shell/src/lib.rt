//! Commands of shell text: their words without quoting (POSIX.1-2024 XCU 2.2 and 2.3), each byte with its place in the file.
//!
//! Reading is a single pass with a stack of what encloses a byte. What isn't understood, as a quote that is never closed, ends at a
//! next line. Nothing is promised of what is read: what comes of it is compared with the file before it is judged.
#![tactic(auto)]

mod command;
mod documents;
mod expansions;
mod frame;
mod operators;
mod output;
mod quotes;
mod reader;
mod words;

pub use command::{Pattern, ShellCommand, ShellText, ShellWord, Target};
pub use output::read_shell;
pub use reader::Form;
