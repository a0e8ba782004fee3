//! The sets at work while nodes are counted.

ghost use Rattle.std.specs.Prelude.{◌≡◌, ◌<◌, ◌≤◌, length, All, IfOk};
ghost use Rattle.sedck_script.specs.Invariant.{IsScript};
ghost use Rattle.sedck_search.specs.Private.EdgeTable.{IsTable};
ghost use Rattle.sedck_flow.specs.declared.graph.Node.{Node};
ghost use Rattle.sedck_search.specs.Private.NodeSet.{IsEmpty, IsNodeSet};
ghost use Rattle.sedck_search.specs.Private.KeptSets.{AreCounts, AreKept};
ghost use Rattle.sedck_search.specs.Private.Reaching.{IsClosed, IsIn, IsReachOf, Reaches};
ghost use Rattle.sedck_search.specs.Private.Components.{AreSets};

use crate::edge_table::edges_of;
use crate::filter::Graph;
use crate::kept_sets::KeptSets;
use crate::node_set::NodeSet;
use crate::reaching::{Known, add_reached};
use sedck_flow::Node;
use std::alloc::{AllocError, Global};

/// The sets that are kept, what the node counted last reaches, and the frontier of a walk, empty outside of walks.
#[derive(Drop)]
pub(crate) struct Sets {
    pub(crate) kept: KeptSets,
    pub(crate) reached: NodeSet,
    pub(crate) frontier: NodeSet,
}

impl Sets {
    /// Empty sets for so many nodes, of which so many are to be counted on one side of the last line.
    pub(crate) fn new(alloc: Global, nodes: usize, side: usize) -> Result<Sets, AllocError>
        requires { nodes < 65536 }
        ensures kept { IfOk result (λ sets. All IsEmpty sets.kept.sets.items) }
        ensures slots { IfOk result (λ sets. length sets.kept.slots.items ≡ nodes) }
        ensures reached { IfOk result (λ sets. IsNodeSet sets.reached × IsEmpty sets.reached) }
        ensures frontier { IfOk result (λ sets. IsNodeSet sets.frontier × IsEmpty sets.frontier) }
    {
        let kept = KeptSets::new(alloc, nodes, side)?;
        Ok(Sets {
            kept,
            reached: NodeSet::new(),
            frontier: NodeSet::new(),
        })
    }
}

/// Finds all that the node reaches: a kept set of one of its targets, and what a walk adds to it.
pub(crate) fn find_reached(graph: Graph, counts: &[u16], node: Node, sets: &mut Sets)
    requires script { IsScript graph.script.now }
    requires listed { IsTable graph.script.now graph.table.now }
    requires inside { node.at ≤ length graph.script.now.commands }
    requires counts { AreCounts graph.script.now graph.filter counts.now }
    requires sets { AreSets graph.script.now graph.filter sets.old }
    ensures sets { AreSets graph.entry.script.now graph.entry.filter sets.new }
    ensures reached { IsReachOf graph.entry.script.now graph.entry.filter node sets.new.reached }
{
    let known = Known {
        graph,
        kept: &sets.kept,
        counts,
    };
    start_from_target(known, node, &mut sets.reached);
    add_reached(known, node, &mut sets.reached, &mut sets.frontier);
}

/// Takes over the largest set that is kept for a target of the node, or no node.
fn start_from_target(known: Known, node: Node, reached: &mut NodeSet)
    requires script { IsScript known.graph.script.now }
    requires listed { IsTable known.graph.script.now known.graph.table.now }
    requires inside { node.at ≤ length known.graph.script.now.commands }
    requires counts { AreCounts known.graph.script.now known.graph.filter known.counts.now }
    requires kept { AreKept known.graph.script.now known.graph.filter known.kept.now.sets.items }
    ensures is_set { IsNodeSet reached.new }
    ensures closed { IsClosed known.entry.graph.script.now known.entry.graph.filter reached.new }
    ensures reached { (m : Node) → IsIn reached.new m → Reaches known.entry.graph.script.now known.entry.graph.filter node m }
{
    let mut size = 0;
    for edge in edges_of(known.graph, node) {
        if known.graph.filter.follows(edge.kind)
            && let Some(set) = known.kept.of(edge.to.index(), known.counts)
        {
            let nodes = set.len();
            if nodes > size {
                reached.copy_from(set);
                size = nodes;
            }
        }
    }
    if size == 0 {
        reached.clear();
    }
}
