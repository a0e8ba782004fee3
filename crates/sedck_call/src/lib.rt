//! What a sed makes of the words of its call: its options, its script with the origin of each byte, and its operands; and which names
//! lead to one file.
//!
//! Options are those of POSIX.1-2024 and of the seds of GNU, BusyBox and the BSDs. Where these differ, the words are read as GNU's sed
//! reads them: an option may follow an operand, and `-i` takes what is right after it in its word.
#![tactic(auto)]

mod call;
mod given;
mod names;
mod option;
mod path;
mod script;

pub use call::{Call, CallFault, Piece, call_of};
pub use given::{Given, Origin};
pub use option::{CallOption, Taken};
pub use path::{last_part, path_of};
pub use script::joined;
