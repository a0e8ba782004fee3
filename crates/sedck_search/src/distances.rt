//! How far it is from each node to one of them.

ghost use Rattle.std.specs.Prelude.{◌≡◌, ◌≢◌, ℕ, suc, true, false, ◌+◌, ◌*◌, ◌<◌, ◌≤◌, length, slice_get, IfOk};
ghost use Rattle.sedck_script.specs.Invariant.{IsScript};
ghost use Rattle.sedck_search.specs.Private.EdgeTable.{IsTable};
ghost use Rattle.sedck_flow.specs.Nodes.{node_index, node_count};
ghost use Rattle.sedck_flow.specs.declared.graph.Edge.{Edge};
ghost use Rattle.sedck_flow.specs.declared.graph.Node.{Node};
ghost use Rattle.sedck_search.specs.Private.Reaching.{FollowedEdge, IsClosed, IsIn};
ghost use Rattle.sedck_search.specs.Private.Distances.{ArePathLengths, AreDistances, HasNeighborWithin, HasDistance, IsSettled, total};

use crate::edge_table::edges_of;
use crate::filter::Graph;
use crate::kept_sets::KeptSets;
use crate::node_set::NodeSet;
use crate::reaching::{Known, add_reached};
use crate::turned::nearest_first;
use sedck_flow::{Edge, Node, node_count};
use std::alloc::{AllocError, Global};

/// The mark of a node without a distance: more than any distance.
const NONE: u16 = u16::MAX;

/// How many followed edges it takes at least from each node to this one.
pub(crate) fn distances_to(alloc: Global, graph: Graph, to: Node) -> Result<Vec<u16>, AllocError>
    requires script { IsScript graph.script.now }
    requires listed { IsTable graph.script.now graph.table.now }
    requires inside { to.at ≤ length graph.script.now.commands }
    ensures { IfOk result (λ distances. AreDistances graph.entry.script.now graph.entry.filter to distances.items) }
{
    let mut distances = Vec::new(alloc);
    for index in 0..node_count(graph.script.commands().len()) {
        distances.push(if index == to.index() { 0 } else { NONE })?;
    }
    let none = KeptSets::none(alloc);
    let mut reached = NodeSet::new();
    let mut frontier = NodeSet::new();
    let known = Known {
        graph,
        kept: &none,
        counts: &[],
    };
    add_reached(known, to, &mut reached, &mut frontier);
    let order = nearest_first(alloc, graph, to.index())?;
    settle(graph, to, &reached, &order, &mut distances);
    Ok(distances)
}

/// Shortens the distance of each node of the order. Where the nearest nodes come first, no distance gets shorter afterwards.
/// `_to` is there for the contract alone: the node that they lead to.
fn relax_in_order(
    graph: Graph,
    _to: Node,
    reached: &NodeSet,
    order: &[usize],
    distances: &mut [u16],
)
    requires script { IsScript graph.script.now }
    requires listed { IsTable graph.script.now graph.table.now }
    requires some { ArePathLengths graph.script.now graph.filter _to distances.old }
    ensures { ArePathLengths graph.entry.script.now graph.entry.filter _to distances.new }
{
    for index in order {
        if *index < distances.len() {
            relax_at(graph, _to, reached, *index, distances);
        }
    }
}

/// Shortens distances, in this order first, and then as long as any gets shorter. `_to` is there for the contract alone.
fn settle(graph: Graph, _to: Node, reached: &NodeSet, order: &[usize], distances: &mut [u16])
    requires script { IsScript graph.script.now }
    requires listed { IsTable graph.script.now graph.table.now }
    requires here { IsIn reached.now _to }
    requires closed { IsClosed graph.script.now graph.filter reached.now }
    requires some { ArePathLengths graph.script.now graph.filter _to distances.old }
    ensures { AreDistances graph.entry.script.now graph.entry.filter _to distances.new }
{
    relax_in_order(graph, _to, reached, order, distances);
    while relax_all(graph, _to, reached, distances) {}
}

/// Shortens the distance of each node of the set by those of its targets, from the last node on. It answers whether
/// any is shorter now. `_to` is there for the contract alone.
fn relax_all(graph: Graph, _to: Node, reached: &NodeSet, distances: &mut [u16]) -> bool
    requires script { IsScript graph.script.now }
    requires listed { IsTable graph.script.now graph.table.now }
    requires some { ArePathLengths graph.script.now graph.filter _to distances.old }
    ensures some { ArePathLengths graph.entry.script.now graph.entry.filter _to distances.new }
    ensures shorter { result ≡ true → total distances.new < total distances.old }
    ensures settled { result ≡ false → (n : Node) → IsIn reached.now n → IsSettled graph.entry.script.now graph.entry.filter distances.new n }
{
    let mut shorter = false;
    for step in 0..distances.len() {
        let index = distances.len() - 1 - step;
        if relax_at(graph, _to, reached, index, distances) {
            shorter = true;
        }
    }
    shorter
}

/// Shortens the distance of the node with this index, if it is in the set, and answers whether it is shorter now.
/// `_to` is there for the contract alone.
fn relax_at(graph: Graph, _to: Node, reached: &NodeSet, index: usize, distances: &mut [u16]) -> bool
    requires script { IsScript graph.script.now }
    requires listed { IsTable graph.script.now graph.table.now }
    requires inside { index < node_count (length graph.script.now.commands) }
    requires some { ArePathLengths graph.script.now graph.filter _to distances.old }
    ensures some { ArePathLengths graph.entry.script.now graph.entry.filter _to distances.new }
    ensures shorter { result ≡ true → total distances.new < total distances.old }
    ensures same { result ≡ false → distances.new ≡ distances.old }
    ensures settled { result ≡ false → (n : Node) → IsIn reached.now n → node_index n ≡ index
        → IsSettled graph.entry.script.now graph.entry.filter distances.old n }
{
    if !reached.has(index) {
        return false;
    }
    let distance = relaxed(graph, Node::nth(index), distances);
    if distance >= distances[index] {
        return false;
    }
    distances[index] = distance;
    true
}

/// The shortest distance from the node that its edges give.
fn relaxed(graph: Graph, node: Node, distances: &[u16]) -> u16
    requires script { IsScript graph.script.now }
    requires listed { IsTable graph.script.now graph.table.now }
    requires inside { node.at ≤ length graph.script.now.commands }
    requires long { length distances.now ≡ node_count (length graph.script.now.commands) }
    ensures least { (e : Edge) → FollowedEdge graph.entry.script.now graph.entry.filter e → e.from ≡ node → (after : ℕ)
        → HasDistance distances.now e.to after → result ≤ suc after }
    ensures some { result < 65535 → (distance : ℕ) × (result ≡ suc distance)
        × HasNeighborWithin graph.entry.script.now graph.entry.filter distances.now node distance }
{
    let mut least = NONE;
    for edge in edges_of(graph, node) {
        if graph.filter.follows(edge.kind) {
            least = least.min(distances[edge.to.index()].saturating_add(1));
        }
    }
    least
}

/// The first followed edge from the node to one from which the distance is so long.
pub(crate) fn nearer_edge(graph: Graph, node: Node, distance: u16, distances: &[u16]) -> Edge
    requires script { IsScript graph.script.now }
    requires listed { IsTable graph.script.now graph.table.now }
    requires inside { node.at ≤ length graph.script.now.commands }
    requires long { length distances.now ≡ node_count (length graph.script.now.commands) }
    requires some { (e : Edge) × FollowedEdge graph.script.now graph.filter e × (e.from ≡ node) × HasDistance distances.now e.to distance }
    ensures followed { FollowedEdge graph.entry.script.now graph.entry.filter result }
    ensures leaves { result.from ≡ node }
    ensures distance { HasDistance distances.now result.to distance }
{
    for edge in edges_of(graph, node) {
        if graph.filter.follows(edge.kind) && distances[edge.to.index()] == distance {
            return edge;
        }
    }
    unreachable!()
}
