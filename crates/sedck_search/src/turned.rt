//! Followed edges turned round, and the order in which a breadth-first search over them comes to nodes. No proof rests on it.

ghost use Rattle.std.specs.Prelude.{◌<◌, length};
ghost use Rattle.sedck_script.specs.Invariant.{IsScript};
ghost use Rattle.sedck_search.specs.Private.EdgeTable.{IsTable};
ghost use Rattle.sedck_flow.specs.Nodes.{node_count};

use crate::edge_table::edges_of;
use crate::filter::Graph;
use sedck_flow::{Node, node_count};
use std::alloc::{AllocError, Global};

/// Of each node, by its index, the edges that lead to it, as a list that begins with the last one.
#[derive(Drop)]
struct Turned {
    /// For each node the last edge to it.
    last: Vec<Option<usize>>,
    /// For each edge the node that it leaves, and the edge before it to the same node.
    edges: Vec<(usize, Option<usize>)>,
}

impl Turned {
    /// The followed edges of the graph.
    fn of(alloc: Global, graph: Graph) -> Result<Turned, AllocError>
        requires script { IsScript graph.script.now }
        requires listed { IsTable graph.script.now graph.table.now }
    {
        let count = node_count(graph.script.commands().len());
        let mut turned = Turned {
            last: Vec::new(alloc),
            edges: Vec::new(alloc),
        };
        turned.last.resize(count, None)?;
        for index in 0..count {
            turned.add_edges(graph, index)?;
        }
        Ok(turned)
    }

    /// Adds the followed edges of the node with this index.
    fn add_edges(&mut self, graph: Graph, index: usize) -> Result<(), AllocError>
        requires script { IsScript graph.script.now }
        requires listed { IsTable graph.script.now graph.table.now }
        requires inside { index < node_count (length graph.script.now.commands) }
    {
        for edge in edges_of(graph, Node::nth(index)) {
            if graph.filter.follows(edge.kind)
                && let Some(last) = self.last.get_mut(edge.to.index())
            {
                let edge = self.edges.len();
                self.edges.push((index, *last))?;
                *last = Some(edge);
            }
        }
        Ok(())
    }
}

/// The indices of the nodes from which followed edges lead to this one, the nearest first, and its own before them.
pub(crate) fn nearest_first(
    alloc: Global,
    graph: Graph,
    to: usize,
) -> Result<Vec<usize>, AllocError>
    requires script { IsScript graph.script.now }
    requires listed { IsTable graph.script.now graph.table.now }
{
    let turned = Turned::of(alloc, graph)?;
    let mut seen = Vec::new(alloc);
    seen.resize(turned.last.len(), false)?;
    let mut order = Vec::new(alloc);
    order.push(to)?;
    for at in 0..turned.last.len() {
        let Some(node) = order.get(at) else {
            break;
        };
        let node = *node;
        add_sources(&turned, node, &mut seen, &mut order)?;
    }
    Ok(order)
}

/// Adds the nodes from which edges lead to this one, those that weren't seen.
fn add_sources(
    turned: &Turned,
    node: usize,
    seen: &mut [bool],
    order: &mut Vec<usize>,
) -> Result<(), AllocError> {
    let Some(last) = turned.last.get(node) else {
        return Ok(());
    };
    let mut next = *last;
    for _ in 0..turned.edges.len() {
        let Some(edge) = next else {
            break;
        };
        let Some((from, before)) = turned.edges.get(edge) else {
            break;
        };
        next = *before;
        if let Some(is_seen) = seen.get_mut(*from)
            && !*is_seen
        {
            *is_seen = true;
            order.push(*from)?;
        }
    }
    Ok(())
}
