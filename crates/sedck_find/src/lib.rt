//! Calls of sed in a file that has shell text, and their scripts, by what their words say.
//!
//! Each text of the file is read as shell text, and so is what it hands to another shell. Then the calls are put together, with the values
//! that the file's text writes for variables. What is found is compared with the file before it is judged. It is promised that no word for
//! a sed is passed in silence.
#![tactic(auto)]

mod calls;
mod conditions;
mod holes;
mod macros;
mod mending;
mod names;
mod overwriting;
mod parts;
mod programs;
mod replaced;
mod script;
mod texts;
mod told;
mod units;
mod values;
mod words;

pub use calls::calls_in;
