//! In which part of a script a byte is, and where the expressions of a command and their bracket lists are.
//!
//! - `Reading` goes through a text byte by byte, also one that is no script, or none yet; `Place` is where it is.
//! - `mends_in`, `mend_at`: commands that have their own delimiter in a bracket list. `delimited`: such a one with another delimiter.
//!   `escapes_delimiter`: which backslashes it does without.
//! - `expressions_in`: the expressions of a command, as they are written. `lists_in`: the bracket lists of one.
//!
//! No contract says which parts these are: a test compares them with those that `sedck_script` reads.
#![tactic(auto)]

mod delimiters;
mod expressions;
mod reading;

pub use delimiters::{Mend, delimited, escapes_delimiter, mend_at, mends_in};
pub use expressions::{Expression, expressions_in, lists_in};
pub use reading::{Place, Reading};
