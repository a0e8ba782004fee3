//! The nodes that can be reached from where a run begins.

ghost use Rattle.std.specs.Prelude.{IfOk};
ghost use Rattle.sedck_script.specs.Invariant.{IsScript};
ghost use Rattle.sedck_search.specs.Obstacle.{MarkReachable};
ghost use Rattle.sedck_search.specs.Private.EdgeTable.{IsTable};
ghost use Rattle.sedck_search.specs.Private.Reaching.{ArePartlyCounted};
ghost use Rattle.sedck_search.specs.declared.filter.EdgeFilter.{EdgeFilter};

use crate::counting::{UNCOUNTED, UNREACHED};
use crate::edge_table::EdgeTable;
use crate::filter::{EdgeFilter, Graph};
use crate::kept_sets::KeptSets;
use crate::node_set::NodeSet;
use crate::reaching::{Known, add_reached};
use sedck_flow::{Node, node_count};
use sedck_script::Script;
use std::alloc::{AllocError, Global};

/// For each node, by its index, whether one of the two starts reaches it.
pub fn reachability(alloc: Global, script: &Script) -> Result<Vec<bool>, AllocError>
    ensures script { IsScript script.now }
    ensures marks { IfOk result (λ marks. MarkReachable script.now marks.items) }
{
    let table = EdgeTable::of(alloc, script)?;
    let filter = EdgeFilter::Every;
    let graph = Graph {
        script,
        table: &table,
        filter,
    };
    reached_from_starts(alloc, graph)
}

/// The same of a graph, whichever of its edges are followed.
fn reached_from_starts(alloc: Global, graph: Graph) -> Result<Vec<bool>, AllocError>
    requires script { IsScript graph.script.now }
    requires listed { IsTable graph.script.now graph.table.now }
    ensures { IfOk result (λ marks. MarkReachable graph.entry.script.now marks.items) }
{
    let count = node_count(graph.script.commands().len());
    let none = KeptSets::none(alloc);
    let mut reached = NodeSet::new();
    let mut frontier = NodeSet::new();
    let known = Known {
        graph: Graph {
            script: graph.script,
            table: graph.table,
            filter: EdgeFilter::Every,
        },
        kept: &none,
        counts: &[],
    };
    add_reached(known, Node::start(false), &mut reached, &mut frontier);
    add_reached(known, Node::start(true), &mut reached, &mut frontier);
    let mut marks = Vec::new(alloc);
    for index in 0..count {
        marks.push(reached.has(index))?;
    }
    Ok(marks)
}

/// The same as counts: each node that can be reached is still to be counted.
pub(crate) fn reachable_marks(alloc: Global, graph: Graph) -> Result<Vec<u16>, AllocError>
    requires script { IsScript graph.script.now }
    requires listed { IsTable graph.script.now graph.table.now }
    ensures marks { IfOk result (λ marks. (filter : EdgeFilter) → ArePartlyCounted graph.entry.script.now filter marks.items) }
{
    let reachable = reached_from_starts(alloc, graph)?;
    let mut marks = Vec::new(alloc);
    for is_reachable in &reachable {
        marks.push(if *is_reachable { UNCOUNTED } else { UNREACHED })?;
    }
    Ok(marks)
}
