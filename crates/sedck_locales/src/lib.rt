//! What an expression matches where the locale says what its bracket lists do.
//!
//! - `laws`: what is proved of it. Two spellings of an expression match alike in each locale where their bracket lists are written alike, and so
//!   a script and its plain text are one program there.
#![tactic(auto)]

pub mod laws;
