//! The search for ranks, or for a loop that rules them out.
//!
//! [`search`] counts for each node of a script's flow graph what it reaches without reading a line, and what it reaches while
//! the pattern space is kept. Where an edge leads to a node that reaches just as many, it closes a walk that no ranks allow, and
//! the search answers the first such walk; else the counts are the ranks of a certificate that is accepted. The rule is this
//! project's own.
#![tactic(auto)]

mod answer;
mod components;
mod counting;
mod distances;
mod edge_table;
mod filter;
mod kept_sets;
pub mod laws;
mod loops;
mod members;
mod node_set;
mod order;
mod other_side;
mod reachable;
mod reaching;
pub mod rows;
mod same_ranks;
mod searching;
mod sets;
mod turned;

pub use answer::{Form, Found, Walk};
pub use reachable::reachability;
pub use searching::search;
