//! Texts that are taken from a file, each byte with the place in the file that it comes from.
//!
//! What reads shell text undoes its quoting, and isn't trusted: `is_traced` compares what it made with the file.
#![tactic(auto)]

mod cursor;
mod hole;
mod origin;
mod unit;

pub use cursor::Cursor;
pub use hole::{Hole, Way, hole_name, is_name_byte};
pub use origin::{Origin, Traced, escape_byte, has_byte, has_hole, is_traced};
pub use unit::{
    Result, Text, Unit, begins_with, byte_at, is_among, is_one_of, is_text, name_length, named,
};
