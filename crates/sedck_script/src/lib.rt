//! Scripts of sed, as POSIX.1-2024 has them (XCU sed).
//!
//! `parse` reads the text of a script: commands with their addresses, blocks, labels, and the expressions, replacements
//! and file names in them. A text spells one script at most; `specs/Spelling` says which, and what is no script is
//! refused by a `ScriptFault` with its place in the text. The names of the files that the script reads and writes are
//! listed beforehand, each once.
//!
//! - `Script`: what was read; its commands, the sorted names of its files, whether it is quiet, and the least length of
//!   what its expressions match.
//! - `Command`, `Address`, `Place`, `Pattern`, `Verb`, `Substitution` and `Part`: what a script is made of. Branches,
//!   tests and blocks hold the place among the commands to which they lead, and texts and names are slices of the text
//!   that was read. A substitution knows which groups its replacement keeps, by the least length of a match outside of
//!   them.
//! - `ScriptFault`: why a text is no script; its number, its name and its place.
//! - `laws`: what is proved of the grammar alone.
//!
//! Commands are read by `sedck_commands`, and expressions by `sedck_bre`. Nothing is run, and no file is opened.
#![tactic(auto)]

mod expressions;
pub mod laws;
mod names;
mod parsing;
mod resolving;
mod script;

pub use names::name_of;
pub use parsing::{Located, locate, parse};
pub use script::{Command, Script};
pub use sedck_commands::{
    Access, Address, Location, Part, Pattern, Place, ScriptFault, Substitution, Verb,
};
