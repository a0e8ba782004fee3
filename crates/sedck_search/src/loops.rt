//! The loop that is reported: the first closing edge, and the shortest way back.

ghost use Rattle.std.specs.Prelude.{◌≡◌, ◌≢◌, ℕ, ◌+◌, ◌*◌, ◌<◌, ◌≤◌, ◌↔◌, length, IfOk, IsTrue, MatchOption};
ghost use Rattle.sedck_flow.specs.declared.graph.Edge.{Edge};
ghost use Rattle.sedck_script.specs.Invariant.{IsScript};
ghost use Rattle.sedck_flow.specs.Nodes.{node_count};
ghost use Rattle.sedck_flow.specs.Flow.{Flow};
ghost use Rattle.sedck_search.specs.Private.EdgeTable.{IsTable};
ghost use Rattle.sedck_search.specs.Private.Closing.{Closes, IsFirstClosing, back_filter as back_filter_of};
ghost use Rattle.sedck_search.specs.Private.ShortestLoop.{IsClosing, IsNearest, IsShortestLoop};

use crate::answer::{Form, Walk};
use crate::distances::{distances_to, nearer_edge};
use crate::edge_table::edges_of;
use crate::filter::{EdgeFilter, Graph};
use sedck_flow::{Edge, Kind, Node};
use std::alloc::{AllocError, Global};

/// The first edge of the kind between two nodes with one count.
pub(crate) fn first_closing(graph: Graph, kind: Kind, counts: &[u16]) -> Option<Edge>
    requires script { IsScript graph.script.now }
    requires listed { IsTable graph.script.now graph.table.now }
    requires long { length counts.now ≡ node_count (length graph.script.now.commands) }
    ensures { MatchOption result ((e : Edge) → ¬ Closes graph.entry.script.now kind counts.now e) (IsFirstClosing graph.entry.script.now kind counts.now) }
{
    for index in 0..counts.len() {
        let edge = first_closing_from(graph, kind, counts, Node::nth(index));
        if edge.is_some() {
            return edge;
        }
    }
    None
}

/// The first such edge that leaves the node.
fn first_closing_from(graph: Graph, kind: Kind, counts: &[u16], node: Node) -> Option<Edge>
    requires script { IsScript graph.script.now }
    requires listed { IsTable graph.script.now graph.table.now }
    requires inside { node.at ≤ length graph.script.now.commands }
    requires long { length counts.now ≡ node_count (length graph.script.now.commands) }
    ensures { MatchOption result ((e : Edge) → Closes graph.entry.script.now kind counts.now e → e.from ≢ node)
        (λ e. Closes graph.entry.script.now kind counts.now e × (e.from ≡ node)) }
{
    let count = counts[node.index()];
    if count == 0 {
        return None;
    }
    for edge in edges_of(graph, node) {
        if is_of(edge, kind) && counts[edge.to.index()] == count {
            return Some(edge);
        }
    }
    None
}

/// The shortest closed walk that begins with an edge as this one. Of several it takes the first edge each time.
pub(crate) fn loop_from(
    alloc: Global,
    graph: Graph,
    form: Form,
    closing: Edge,
) -> Result<Walk, AllocError>
    requires script { IsScript graph.script.now }
    requires listed { IsTable graph.script.now graph.table.now }
    requires closing { IsClosing graph.script.now form closing }
    ensures { IfOk result (IsShortestLoop graph.entry.script.now form closing.from) }
{
    let filter = back_filter(form);
    let back = Graph {
        script: graph.script,
        table: graph.table,
        filter,
    };
    let distances = distances_to(alloc, back, closing.from)?;
    let first = nearest(graph, closing, &distances);
    let mut nodes = Vec::new(alloc);
    let mut kinds = Vec::new(alloc);
    nodes.push(first.from)?;
    nodes.push(first.to)?;
    kinds.push(first.kind)?;
    let mut at = first.to;
    let distance = distances[at.index()];
    for step in 0..distance {
        let edge = nearer_edge(back, at, distance - 1 - step, &distances);
        nodes.push(edge.to)?;
        kinds.push(edge.kind)?;
        at = edge.to;
    }
    Ok(Walk { nodes, kinds, form })
}

/// Of the edges of the same node and kind the first from whose target the distance is shortest.
fn nearest(graph: Graph, closing: Edge, distances: &[u16]) -> Edge
    requires script { IsScript graph.script.now }
    requires listed { IsTable graph.script.now graph.table.now }
    requires edge { Flow graph.script.now closing }
    requires long { length distances.now ≡ node_count (length graph.script.now.commands) }
    ensures { IsNearest graph.entry.script.now distances.now closing result }
{
    let mut nearest = closing;
    for edge in edges_of(graph, closing.from) {
        if is_of(edge, closing.kind) && distances[edge.to.index()] < distances[nearest.to.index()] {
            nearest = edge;
        }
    }
    nearest
}

/// Whether the edge is of the kind. A function, so that the comparison is proved once to say it of the kinds.
fn is_of(edge: Edge, kind: Kind) -> bool
    ensures { IsTrue result ↔ (edge.kind ≡ kind) }
{
    edge.kind == kind
}

/// The edges over which a loop of the form goes back.
fn back_filter(form: Form) -> EdgeFilter
    ensures { result ≡ back_filter_of form }
{
    match form {
        Form::Idle => EdgeFilter::Kept,
        Form::Growing => EdgeFilter::Unread,
    }
}
