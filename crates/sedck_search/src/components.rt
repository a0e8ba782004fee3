//! The order in which nodes are counted: strongly connected components, by Tarjan's depth-first search.
//!
//! A component is counted when its root is finished, after all that it leads to, so that what it reaches is put
//! together from kept sets; and all its nodes reach the same. No proof rests on the order: each node of a component
//! is counted only where it is seen to reach what the root does, and a node left out would be counted by a walk.

ghost use Rattle.std.specs.Prelude.{◌≡◌, ◌<◌, ◌≤◌, length, IfSome};
ghost use Rattle.sedck_script.specs.Invariant.{IsScript};
ghost use Rattle.sedck_search.specs.Private.EdgeTable.{IsTable};
ghost use Rattle.sedck_flow.specs.Nodes.{node_index, node_count};
ghost use Rattle.sedck_flow.specs.declared.graph.Node.{Node};
ghost use Rattle.sedck_search.specs.Private.Reaching.{ArePartlyCounted, Reaches};
ghost use Rattle.sedck_search.specs.Private.Components.{AreBelow, AreLinks, AreSets, IsOrderOf};

use crate::counting::{UNCOUNTED, count_node};
use crate::edge_table::edges_of;
use crate::filter::Graph;
use crate::members::count_component;
use crate::order::{Order, UNVISITED};
use crate::sets::Sets;
use sedck_flow::Node;

/// Counts what each uncounted node reaches that the root leads to. Each step visits a node or finishes one.
pub(crate) fn count_from(
    graph: Graph,
    root: usize,
    order: &mut Order,
    sets: &mut Sets,
    counts: &mut [u16],
)
    requires script { IsScript graph.script.now }
    requires listed { IsTable graph.script.now graph.table.now }
    requires inside { root < length counts.old }
    requires order { IsOrderOf graph.script.now graph.filter order.old }
    requires sets { AreSets graph.script.now graph.filter sets.old }
    requires counted { ArePartlyCounted graph.script.now graph.filter counts.old }
    ensures order { IsOrderOf graph.entry.script.now graph.entry.filter order.new }
    ensures sets { AreSets graph.entry.script.now graph.entry.filter sets.new }
    ensures counted { ArePartlyCounted graph.entry.script.now graph.entry.filter counts.new }
{
    order.visit(root, root);
    let mut at = root;
    for _ in 0..2 * counts.len() {
        if let Some(to) = next_unvisited(graph, Node::nth(at), &order.positions, counts) {
            order.visit(to, at);
            at = to;
            continue;
        }
        finish(graph, at, order, sets, counts);
        let parent = order.parent(at);
        if parent == at {
            return;
        }
        at = parent;
    }
}

/// The first node to which a followed edge leads from this one, and that is neither counted nor visited.
fn next_unvisited(graph: Graph, node: Node, positions: &[u16], counts: &[u16]) -> Option<usize>
    requires script { IsScript graph.script.now }
    requires listed { IsTable graph.script.now graph.table.now }
    requires inside { node.at ≤ length graph.script.now.commands }
    requires counts { length counts.now ≡ node_count (length graph.script.now.commands) }
    requires positions { length positions.now ≡ length counts.now }
    ensures { IfSome result (λ to. to < length counts.now) }
{
    for edge in edges_of(graph, node) {
        let to = edge.to.index();
        if graph.filter.follows(edge.kind)
            && counts[to] == UNCOUNTED
            && positions[to] == UNVISITED
        {
            return Some(to);
        }
    }
    None
}

/// Links the node, all of whose targets were visited, and counts its component, where it is the root of it.
fn finish(graph: Graph, index: usize, order: &mut Order, sets: &mut Sets, counts: &mut [u16])
    requires script { IsScript graph.script.now }
    requires listed { IsTable graph.script.now graph.table.now }
    requires inside { index < length counts.old }
    requires order { IsOrderOf graph.script.now graph.filter order.old }
    requires sets { AreSets graph.script.now graph.filter sets.old }
    requires counted { ArePartlyCounted graph.script.now graph.filter counts.old }
    ensures order { IsOrderOf graph.entry.script.now graph.entry.filter order.new }
    ensures sets { AreSets graph.entry.script.now graph.entry.filter sets.new }
    ensures counted { ArePartlyCounted graph.entry.script.now graph.entry.filter counts.new }
{
    let node = Node::nth(index);
    let link = lowest_link(graph, node, &order.links, &order.positions, counts);
    order.link(index, link);
    if link == index {
        count_node(graph, index, sets, counts);
        count_component(graph, index, order, sets, counts);
    }
}

/// Of the node and those that uncounted targets link to the one that was visited first.
fn lowest_link(graph: Graph, node: Node, links: &[u16], positions: &[u16], counts: &[u16]) -> usize
    requires script { IsScript graph.script.now }
    requires listed { IsTable graph.script.now graph.table.now }
    requires inside { node.at ≤ length graph.script.now.commands }
    requires counts { length counts.now ≡ node_count (length graph.script.now.commands) }
    requires positions { length positions.now ≡ length counts.now }
    requires long { length links.now ≡ length counts.now }
    requires below { AreBelow (length counts.now) links.now }
    requires links { AreLinks graph.script.now graph.filter links.now }
    ensures inside { result < length counts.now }
    ensures reached { (m : Node) → node_index m ≡ result → Reaches graph.entry.script.now graph.entry.filter node m }
{
    let mut lowest = node.index();
    for edge in edges_of(graph, node) {
        let to = edge.to.index();
        if graph.filter.follows(edge.kind) && counts[to] == UNCOUNTED {
            let link = usize::from(links[to]);
            if positions[link] < positions[lowest] {
                lowest = link;
            }
        }
    }
    lowest
}
