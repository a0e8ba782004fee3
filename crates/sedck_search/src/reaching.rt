//! All that a node reaches: a walk that takes over the kept sets of the nodes that it comes to.

ghost use Rattle.std.specs.Prelude.{◌≡◌, ◌<◌, ◌≤◌, length};
ghost use Rattle.sedck_script.specs.Invariant.{IsScript};
ghost use Rattle.sedck_search.specs.Private.EdgeTable.{IsTable};
ghost use Rattle.sedck_flow.specs.Nodes.{node_index};
ghost use Rattle.sedck_search.specs.Private.NodeSet.{IsEmpty, IsNodeSet};
ghost use Rattle.sedck_search.specs.Private.Reaching.{FollowedEdge, IsClosed, IsIn};
ghost use Rattle.sedck_search.specs.Private.KeptSets.{AreCounts, AreKept};
ghost use Rattle.sedck_search.specs.Private.Frontier.{AddsNode, AddsReached, AddsTarget, AddsTargets, AreSearchSets};
ghost use Rattle.sedck_flow.specs.declared.graph.Edge.{Edge};

use crate::edge_table::edges_of;
use crate::filter::Graph;
use crate::kept_sets::KeptSets;
use crate::node_set::NodeSet;
use sedck_flow::Node;

/// A graph, and what is known of it: sets that are kept, and the counts that say for which nodes they are.
#[derive(Clone, Copy)]
pub(crate) struct Known<'a> {
    pub(crate) graph: Graph<'a>,
    pub(crate) kept: &'a KeptSets,
    pub(crate) counts: &'a [u16],
}

/// Adds all that the node reaches to the set, out of which no edge leads. The frontier is empty before and after.
pub(crate) fn add_reached(known: Known, node: Node, reached: &mut NodeSet, frontier: &mut NodeSet)
    requires script { IsScript known.graph.script.now }
    requires listed { IsTable known.graph.script.now known.graph.table.now }
    requires kept { AreKept known.graph.script.now known.graph.filter known.kept.now.sets.items }
    requires counts { AreCounts known.graph.script.now known.graph.filter known.counts.now }
    requires inside { node.at ≤ length known.graph.script.now.commands }
    requires reached { IsNodeSet reached.old }
    requires frontier { IsNodeSet frontier.old }
    requires idle { IsEmpty frontier.old }
    requires closed { IsClosed known.graph.script.now known.graph.filter reached.old }
    ensures closed { IsClosed known.entry.graph.script.now known.entry.graph.filter reached.new }
    ensures grown { AddsReached known.entry.graph.script.now known.entry.graph.filter node reached.old reached.new }
    ensures sets { IsNodeSet reached.new × IsNodeSet frontier.new }
    ensures idle { IsEmpty frontier.new }
{
    let mut first = add_node(node, reached, frontier, node.index());
    while let Some(index) = frontier.next_from(first) {
        frontier.remove(index);
        first = visit(known, Node::nth(index), reached, frontier, index);
    }
}

/// Adds all nodes to which followed edges lead from the node. It answers from where on the frontier has nodes.
fn visit(
    known: Known,
    node: Node,
    reached: &mut NodeSet,
    frontier: &mut NodeSet,
    first: usize,
) -> usize
    requires script { IsScript known.graph.script.now }
    requires listed { IsTable known.graph.script.now known.graph.table.now }
    requires kept { AreKept known.graph.script.now known.graph.filter known.kept.now.sets.items }
    requires counts { AreCounts known.graph.script.now known.graph.filter known.counts.now }
    requires inside { node.at ≤ length known.graph.script.now.commands }
    requires sets { AreSearchSets reached.old frontier.old }
    ensures sets { AreSearchSets reached.new frontier.new }
    ensures targets { AddsTargets known.entry.graph.script.now known.entry.graph.filter node reached.old frontier.old reached.new frontier.new first result }
    ensures added { (e : Edge) → FollowedEdge known.entry.graph.script.now known.entry.graph.filter e → e.from ≡ node → IsIn reached.new e.to }
{
    let mut first = first;
    for edge in edges_of(known.graph, node) {
        if known.graph.filter.follows(edge.kind) {
            first = add_target(known, edge.to, reached, frontier, first);
        }
    }
    first
}

/// Adds the node, or what it reaches, where a set is kept for it. It answers from where on the frontier has nodes.
fn add_target(
    known: Known,
    node: Node,
    reached: &mut NodeSet,
    frontier: &mut NodeSet,
    first: usize,
) -> usize
    requires inside { node_index node < 16384 }
    requires sets { AreSearchSets reached.old frontier.old }
    ensures sets { AreSearchSets reached.new frontier.new }
    ensures target { AddsTarget known.entry.kept.now.sets.items known.entry.counts.now node reached.old frontier.old reached.new frontier.new first result }
    ensures added { IsIn reached.new node }
{
    if !reached.has(node.index())
        && let Some(set) = known.kept.of(node.index(), known.counts)
    {
        reached.add_all(set);
        return first;
    }
    add_node(node, reached, frontier, first)
}

/// Puts the node into the set and the frontier, if it isn't there. It answers from where on the frontier has nodes.
fn add_node(node: Node, reached: &mut NodeSet, frontier: &mut NodeSet, first: usize) -> usize
    requires inside { node_index node < 16384 }
    requires sets { AreSearchSets reached.old frontier.old }
    ensures sets { AreSearchSets reached.new frontier.new }
    ensures node { AddsNode node reached.old frontier.old reached.new frontier.new first result }
    ensures added { IsIn reached.new node }
{
    let index = node.index();
    if !reached.insert(index) {
        return first;
    }
    frontier.insert(index);
    first.min(index)
}
