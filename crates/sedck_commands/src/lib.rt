//! Commands of sed as they are written (POSIX.1-2024 XCU sed): the items of a script, whose labels haven't become places yet.
//!
//! - `read_items`: the commands of a text with their addresses, expressions, replacements and file names, and the closings
//!   of its blocks; or why there are none.
//! - `Progress`, `WrittenItem`, `WrittenCommand`, `Written` and `Jump`: what was read. `place_of` finds a label in it, and
//!   `locations` gives the location of each command.
//! - `Address`, `Place`, `Pattern`, `Verb`, `Substitution` and `Part`: what a command is made of. Texts and names are slices
//!   of the text that was read. A substitution knows which groups its replacement keeps, by the least length of a match
//!   outside of them.
//! - `ScriptFault`: why a text is no script; its number, its name and its place.
//! - `laws`: what is proved of the definitions alone.
//!
//! Expressions are read by `sedck_bre`.
#![tactic(auto)]

mod addresses;
mod bytes;
mod commands;
mod delimited;
mod fault;
mod flags;
mod forms;
mod items;
mod labels;
pub mod laws;
mod location;
mod names;
mod replacements;
mod substitutions;
mod texts;
mod types;
mod verbs;

pub use bytes::TEXT_LIMIT;
pub use fault::ScriptFault;
pub use items::{Progress, Written, WrittenCommand, WrittenItem, read_items};
pub use labels::{Jump, place_of};
pub use location::{Location, locations};
pub use names::Access;
pub use types::{Address, Part, Pattern, Place, Substitution, Verb};
