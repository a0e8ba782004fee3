//! Texts of bytes as readers go over them: a cursor, and the classes of bytes that it skips.
//!
//! - `Cursor`: a text, and how far it has been read.
//! - `Class`: the bytes that belong together, as blanks or digits.
#![tactic(auto)]

mod class;
mod cursor;

pub use class::Class;
pub use cursor::Cursor;
