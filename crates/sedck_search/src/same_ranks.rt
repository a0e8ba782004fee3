//! Scripts that never change the pattern space without reading a line: both ranks of a node are the same.

ghost use Rattle.std.specs.Prelude.{◌≤◌, length};
ghost use Rattle.std.specs.Bool.{OnTrue};
ghost use Rattle.sedck_script.specs.Invariant.{IsScript};
ghost use Rattle.sedck_flow.specs.Flow.{FlowFrom};
ghost use Rattle.sedck_flow.specs.declared.graph.Edge.{Edge};
ghost use Rattle.sedck_search.specs.Private.EdgeTable.{IsTable};
ghost use Rattle.sedck_search.specs.Private.SameRanks.{KeepsSpace, KeepsOrReads};

use crate::edge_table::edges_of;
use crate::filter::{EdgeFilter, Graph};
use sedck_flow::{Kind, Node, node_count};

/// Whether the pattern space is kept on each edge on which no line is read.
pub(crate) fn keeps_space(graph: Graph) -> bool
    requires script { IsScript graph.script.now }
    requires listed { IsTable graph.script.now graph.table.now }
    ensures { OnTrue result (KeepsSpace graph.entry.script.now) }
{
    for index in 0..node_count(graph.script.commands().len()) {
        if !keeps_space_from(graph, Node::nth(index)) {
            return false;
        }
    }
    true
}

/// The same of the edges that leave the node.
fn keeps_space_from(graph: Graph, node: Node) -> bool
    requires script { IsScript graph.script.now }
    requires listed { IsTable graph.script.now graph.table.now }
    requires inside { node.at ≤ length graph.script.now.commands }
    ensures { OnTrue result ((e : Edge) → FlowFrom graph.entry.script.now node e → KeepsOrReads e.kind) }
{
    for edge in edges_of(graph, node) {
        if !keeps_or_reads(edge.kind) {
            return false;
        }
    }
    true
}

/// Whether an edge of the kind keeps the pattern space, where no line is read on it.
fn keeps_or_reads(kind: Kind) -> bool
    ensures { OnTrue result (KeepsOrReads kind) }
{
    EdgeFilter::Kept.follows(kind) || !EdgeFilter::Unread.follows(kind)
}
