//! Basic regular expressions of POSIX (XBD 9.3) as they are written: their grammar, and its reader.
//!
//! - `read_tree` reads a text, in time linear in it: the tree that it spells, or the first fault that is met.
//! - `Bre` is what was written, as a tree; `ByteSet` is the set of a bracket list.
//! - `misjudged` says where matchers of real seds get an expression wrong, if they do.
//! - `ReFault` is why a text is no expression, with a number, a name and a place.
//!
//! How a text spells a tree is said in `specs/Shape.antt`, and no text spells two.
#![tactic(auto)]

mod brackets;
mod fault;
mod groups;
mod intervals;
mod items;
mod judging;
mod parser;
mod parts;
mod tree;

pub use fault::ReFault;
pub use judging::misjudged;
pub use parser::read_tree;
pub use tree::{Bre, ByteSet};
