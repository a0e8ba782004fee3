//! Basic regular expressions of POSIX (XBD 9.3), and the least length of what they match.
//!
//! - `parse` reads a text, in time linear in it: the expression that it spells, or the first fault that is met.
//! - `Expr` is a well formed tree that knows its number of groups and its least length, which groups are items of it, and
//!   the least length of what of a match lies outside of such groups.
//! - `Bre`, `ByteSet` and `ReFault` are those of `sedck_expressions`, which reads.
//! - `laws`: what is proved of expressions alone.
//!
//! What a tree means, `Match` and `Language`, is said in `specs/Match.antt`: no text is matched here.
#![tactic(auto)]

mod expression;
pub mod laws;
mod least;
mod outside;

pub use expression::{Expr, parse};
pub use sedck_expressions::{Bre, ByteSet, ReFault};
