//! The edges of a script's flow graph, found once: a search looks at those of a node a dozen times.

ghost use Rattle.std.specs.Prelude.{◌≡◌, suc, ◌<◌, ◌≤◌, length, Some, slice_get, IfOk, OnOk};
ghost use Rattle.sedck_script.specs.Invariant.{IsScript};
ghost use Rattle.sedck_flow.specs.Flow.{FlowFrom, ListsEdges};
ghost use Rattle.sedck_flow.specs.Nodes.{node_index};
ghost use Rattle.sedck_search.specs.Private.EdgeTable.{ListsNodes, IsTable};

use crate::filter::Graph;
use sedck_flow::{Edge, Node, node_count};
use sedck_script::Script;
use std::alloc::{AllocError, Global};
use std::marker::Model;

/// The edges of all nodes, in the order of the nodes.
#[derive(Drop)]
pub(crate) struct EdgeTable {
    /// Where the edges of each node begin, and where those of the last one end.
    pub(crate) starts: Vec<usize>,
    pub(crate) edges: Vec<Edge>,
}

impl EdgeTable {
    /// The edges of the script's nodes.
    pub(crate) fn of(alloc: Global, script: &Script) -> Result<EdgeTable, AllocError>
        ensures script { IsScript script.now }
        ensures table { IfOk result (IsTable script.now) }
    {
        let count = node_count(script.commands().len());
        let mut table = EdgeTable {
            starts: Vec::with_capacity(alloc, count + 1)?,
            edges: Vec::with_capacity(alloc, count)?,
        };
        table.starts.push(0)?;
        for index in 0..count {
            table.add(script, Node::nth(index))?;
        }
        Ok(table)
    }

    /// Adds the edges of the next node.
    fn add(&mut self, script: &Script, node: Node) -> Result<(), AllocError>
        requires inside { node.at ≤ length script.now.commands }
        requires listed { ListsNodes script.now self.old.starts.items self.old.edges.items (node_index node) }
        ensures { OnOk result (ListsNodes script.now self.new.starts.items self.new.edges.items (suc (node_index node))) }
    {
        for edge in sedck_flow::edges_of(script, node) {
            self.edges.push(edge)?;
        }
        let end = self.edges.as_slice().len();
        self.starts.push(end)?;
        Ok(())
    }
}

/// The edges that leave one node, one after another.
#[derive(Drop)]
pub(crate) struct ListedEdges<'t> {
    edges: &'t [Edge],
    next: usize,
}

impl<'t> Model for ListedEdges<'t> {
    ghost use Rattle.std.specs.Prelude.{List, drop, length, ◌≤◌};
    ghost use Rattle.sedck_flow.specs.declared.graph.Edge.{Edge};

    /// The edges that are still to come.
    ghost Value = { List Edge };

    ghost view = { λ a. drop a.next a.edges.now };

    ghost invariant = { λ a. a.next ≤ length a.edges.now };
}

impl<'t> Iterator for ListedEdges<'t> {
    type Item = Edge;

    ghost use Rattle.std.specs.Iterator.{YieldsFirst, item_count};

    ghost next_gives = { YieldsFirst (λ edges. edges) };

    ghost remaining = { item_count (λ edges. edges) };

    fn next(&mut self) -> Option<Edge> {
        if self.next == self.edges.len() {
            return None;
        }
        let edge = edge_at(self.edges, self.next);
        self.next += 1;
        Some(edge)
    }
}

/// The edge at this place.
fn edge_at(edges: &[Edge], at: usize) -> Edge
    requires { at < length edges.now }
    ensures { slice_get edges.now at ≡ Some result }
{
    edges[at]
}

/// The edges that leave the node, by the node that they lead to and then by their kind.
pub(crate) fn edges_of<'g>(graph: Graph<'g>, node: Node) -> ListedEdges<'g>
    requires listed { IsTable graph.script.now graph.table.now }
    requires inside { node.at ≤ length graph.script.now.commands }
    ensures edges { ListsEdges result (FlowFrom graph.entry.script.now node) }
{
    let starts = graph.table.starts.as_slice();
    let edges = graph.table.edges.as_slice();
    let index = node.index();
    let start = starts[index];
    let end = starts[index + 1];
    ListedEdges {
        edges: &edges[start..end],
        next: 0,
    }
}
