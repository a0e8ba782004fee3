//! The runs of a script, and its flow graph.
//!
//! `specs/Run.antt` says what a run is, `specs/Flow.antt` what the graph is, and what is proved of both
//! in `laws`. `edges_of` lists the edges that leave a node. Nothing here takes memory.
#![tactic(auto)]

mod edge_list;
mod edges;
pub mod graph;
pub mod laws;
mod success;
mod verbs;
mod words;

pub use edges::{Edges, edges_of};
pub use graph::{Edge, Kind, Node, node_count};
