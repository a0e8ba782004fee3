//! Scripts in their plain spelling: one text for each program, but for its bracket lists.
//!
//! - `plain_text` answers a text that spells the very program that a script spells, with its bracket lists. It is printed, read again by
//!   `sedck_script`, and compared: the printer isn't trusted. `plain_of` does the same for a script that was read before, also with its
//!   comments.
//! - `is_mended` says whether a script is another text, as seds read it that take a delimiter in a list for a byte of the list.
//! - `same_program` says whether two scripts are the same program.
//! - `Fault` is why there is no plain text. `Position` is of the definition of written lists.
//!
//! In a plain text each command has a line of its own, and blocks are indented by two blanks. Where the
//! grammar lets a part be written in several ways, it is written in the one that all seds read alike. Bracket lists stay as the
//! script has them.
#![tactic(auto)]

mod commands;
mod delimiters;
mod dollars;
mod expressions;
mod layout;
mod mended;
mod plain;
mod printed;
mod same;
mod substitutions;
mod written;

pub use layout::Comments;
pub use mended::is_mended;
pub use plain::{Fault, plain_of, plain_text};
pub use same::same_program;
pub use written::Position;
