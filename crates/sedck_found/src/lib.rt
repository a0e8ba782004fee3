//! What is found of calls of sed in a file: their words and scripts, and on what these depend.
//!
//! What finds them isn't trusted. What judges them stands on these types alone.
#![tactic(auto)]

mod found;

pub use found::{
    Assumed, Assumptions, Followed, Found, FoundCall, FoundScript, KnownValue, OpenHole,
    Overwritten, Role, Unknown,
};
