//! The checker and the search for programs in C: each function judges texts that the caller has in memory.
//!
//! What C owes is in `library/sedck.h`: pointers that are not null, and one allocator.
#![tactic(auto)]

mod answer;
mod certified;
pub mod exports;
mod room;
mod statuses;

pub use answer::Answer;
