//! The calls of sed in files and folders: what is found in them is explained and reported.
//!
//! What is read of a call isn't trusted: `explain_found` compares it with the file, and its answer and the lines and columns of its
//! findings are proved. So is which status the calls of a file have, and those of the files that are given. Which calls a file has is
//! what a `Finder` says. What the program takes for one is tested; so is what is written.
#![tactic(auto)]

mod answers;
mod assumed;
mod conditions;
mod delivery;
mod errors;
mod file;
mod finder;
mod holes;
mod judging;
mod one;
mod placed;
mod places;
mod reading;
mod request;
mod tracing;
mod unread_words;
mod values;
mod walk;

pub use delivery::{Named, Reporter, deliver};
pub use errors::{NOT_UTF_8, Unread, end, ended, out_of_memory, unwritten, why_unread};
pub use file::{explain_calls, explain_text};
pub use finder::Finder;
pub use judging::explain_found;
pub use one::{At, spell_call};
pub use request::{File, FileScan, Look, Scan};
pub use tracing::slices_of;
pub use walk::{Walk, scan_files};
