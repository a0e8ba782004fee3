//! An input on which a script never ends.
//!
//! [`drawn_lines`] draws lines from the expressions of a script, and [`endless_input`] runs it on some of them, as sed would. Where a run
//! comes back to a state that it was in, each of its steps is held against the model: so what is answered is an input on which some run of
//! the script never ends. No answer says nothing.
#![tactic(auto)]

mod advancing;
mod drawing;
mod held;
pub mod laws;
mod matching;
mod replacing;
mod rounds;
mod searching;
mod selecting;

pub use drawing::drawn_lines;
pub use searching::endless_input;
