//! The model of sed, decided: whether a substitution, a step or a run is one of the model's.
//!
//! - `ends`: where the matches of a tree that begin at an offset of a text end, with the texts of the groups at each end.
//! - `has_match`: whether some part of a text is in the language of a tree.
//! - `substitutes`: whether `s` may make one text of another one.
//! - `step`: whether a step may lead from one state to another, with its event.
//! - `follows`: whether steps are a run on given lines, or the first that is none.
//!
//! Each answer is exact, by the definition `Match` of `sedck_bre`, and by `Substitutes`, `Step` and `Run` of `sedck_flow`, which say what
//! sed is. Every match counts, not only the longest one. A list of spots stands for all places that matches have come to, so ways that lead
//! to one place are followed once. There can still be exponentially many, so each call spends from a `Budget`, and may answer that the
//! budget was used up.
#![tactic(auto)]

mod adding;
mod applying;
mod arriving;
mod candidates;
mod changing;
mod events;
mod following;
mod groups;
mod reaching;
mod reading;
mod runs;
mod selecting;
mod single;
mod spending;
mod spots;
mod states;
mod stepping;
mod substituting;
mod texts;
mod transliterating;

pub use arriving::is_same;
pub use reaching::{ends, has_match};
pub use runs::follows;
pub use spending::{Budget, Undecided};
pub use spots::{Span, Spot};
pub use states::{Event, Machine, Move, State};
pub use stepping::step;
pub use substituting::substitutes;
