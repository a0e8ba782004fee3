//! What is said of a script: the answer of the engines, the exit status, and all that is reported with them.
//!
//! How an answer is found is the matter of `sedck_explanation`, and how it is printed that of `sedck_formats`: neither needs the other.
#![tactic(auto)]

mod answer;
mod explanation;
mod status;

pub use answer::Answer;
pub use explanation::{Explanation, not_judged};
pub use status::Status;
