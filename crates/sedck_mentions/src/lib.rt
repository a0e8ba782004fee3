//! Words for a sed in a file, by its bytes alone.
//!
//! What reads a file as a shell does isn't trusted: `untold` looks through the bytes, and answers the words that weren't told of.
#![tactic(auto)]

mod laws;
mod line;
mod pass;
mod spans;
mod words;

pub use laws::each_is_told;
pub use pass::untold;
pub use spans::Span;
