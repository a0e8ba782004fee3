//! How many nodes each node reaches.

ghost use Rattle.std.specs.Prelude.{◌≡◌, ◌≢◌, ℕ, ◌<◌, ◌≤◌, length, Some, slice_get, IfOk};
ghost use Rattle.sedck_script.specs.Invariant.{IsScript};
ghost use Rattle.sedck_search.specs.Private.EdgeTable.{IsTable};
ghost use Rattle.sedck_flow.specs.Nodes.{node_count};
ghost use Rattle.sedck_search.specs.Private.Reaching.{AreCounted, ArePartlyCounted};
ghost use Rattle.sedck_search.specs.Private.Components.{AreSets, IsOrderOf};
ghost use Rattle.sedck_search.specs.declared.filter.EdgeFilter.TheVariants.{Every};

use crate::components::count_from;
use crate::filter::{EdgeFilter, Graph};
use crate::order::Order;
use crate::other_side::{asks_for_last, count_turned};
use crate::sets::{Sets, find_reached};
use sedck_flow::Node;
use std::alloc::{AllocError, Global};

/// The mark of a node that is still to be counted: more than any count. Marks and counts share 16 bits a node, which
/// become the ranks.
pub(crate) const UNCOUNTED: u16 = u16::MAX;

/// The count of a node that no start reaches: less than any other, since each node reaches itself.
pub(crate) const UNREACHED: u16 = 0;

/// How many nodes each marked node reaches. First the nodes before the last line are counted and then those on it: no
/// followed edge leads from these to those, and where no command asks for the last line both reach as many.
pub(crate) fn counts_of(
    alloc: Global,
    graph: Graph,
    filter: EdgeFilter,
    marks: &[u16],
) -> Result<Vec<u16>, AllocError>
    requires script { IsScript graph.script.now }
    requires listed { IsTable graph.script.now graph.table.now }
    requires filter { filter ≢ Every }
    requires marks { ArePartlyCounted graph.script.now filter marks.now }
    ensures { IfOk result (λ counts. AreCounted graph.entry.script.now filter counts.items) }
{
    let mut counts = Vec::new(alloc);
    counts.extend_from_slice(marks)?;
    let mut order = Order::new(alloc, marks.len())?;
    let mut sets = Sets::new(alloc, marks.len(), most_on_one_side(marks))?;
    let graph = Graph {
        script: graph.script,
        table: graph.table,
        filter,
    };
    count_all(graph, &mut order, &mut sets, &mut counts);
    Ok(counts)
}

/// How many nodes are marked on that side of the last line on which more are.
fn most_on_one_side(marks: &[u16]) -> usize {
    let mut before: usize = 0;
    let mut on: usize = 0;
    for step in 0..marks.len() / 2 {
        if marks[2 * step] == UNCOUNTED {
            before = before.saturating_add(1);
        }
        if marks[2 * step + 1] == UNCOUNTED {
            on = on.saturating_add(1);
        }
    }
    before.max(on)
}

/// Counts what each marked node reaches.
fn count_all(graph: Graph, order: &mut Order, sets: &mut Sets, counts: &mut [u16])
    requires script { IsScript graph.script.now }
    requires listed { IsTable graph.script.now graph.table.now }
    requires filter { graph.filter ≢ Every }
    requires order { IsOrderOf graph.script.now graph.filter order.old }
    requires sets { AreSets graph.script.now graph.filter sets.old }
    requires counted { ArePartlyCounted graph.script.now graph.filter counts.old }
    ensures { AreCounted graph.entry.script.now graph.entry.filter counts.new }
{
    count_side(graph, 0, order, sets, counts);
    if !asks_for_last(graph.script) {
        count_turned(graph, counts);
    }
    count_side(graph, 1, order, sets, counts);
    count_rest(graph, sets, counts);
}

/// Counts the components of every second node, from this one on.
fn count_side(graph: Graph, first: usize, order: &mut Order, sets: &mut Sets, counts: &mut [u16])
    requires script { IsScript graph.script.now }
    requires listed { IsTable graph.script.now graph.table.now }
    requires first { first ≤ 1 }
    requires order { IsOrderOf graph.script.now graph.filter order.old }
    requires sets { AreSets graph.script.now graph.filter sets.old }
    requires counted { ArePartlyCounted graph.script.now graph.filter counts.old }
    ensures order { IsOrderOf graph.entry.script.now graph.entry.filter order.new }
    ensures sets { AreSets graph.entry.script.now graph.entry.filter sets.new }
    ensures counted { ArePartlyCounted graph.entry.script.now graph.entry.filter counts.new }
{
    // No followed edge leads back to the other side: its sets give way.
    sets.kept.nodes = 0;
    for step in 0..counts.len() / 2 {
        let root = 2 * step + first;
        if counts[root] == UNCOUNTED {
            count_from(graph, root, order, sets, counts);
        }
    }
}

/// Counts the nodes that are left, if any is: the order in which nodes are counted makes none, but no proof rests on it.
fn count_rest(graph: Graph, sets: &mut Sets, counts: &mut [u16])
    requires script { IsScript graph.script.now }
    requires listed { IsTable graph.script.now graph.table.now }
    requires sets { AreSets graph.script.now graph.filter sets.old }
    requires counted { ArePartlyCounted graph.script.now graph.filter counts.old }
    ensures { AreCounted graph.entry.script.now graph.entry.filter counts.new }
{
    for index in 0..counts.len() {
        count_node(graph, index, sets, counts);
    }
}

/// Counts what the node with this index reaches, where it is marked.
pub(crate) fn count_node(graph: Graph, index: usize, sets: &mut Sets, counts: &mut [u16])
    requires script { IsScript graph.script.now }
    requires listed { IsTable graph.script.now graph.table.now }
    requires inside { index < node_count (length graph.script.now.commands) }
    requires sets { AreSets graph.script.now graph.filter sets.old }
    requires counted { ArePartlyCounted graph.script.now graph.filter counts.old }
    ensures sets { AreSets graph.entry.script.now graph.entry.filter sets.new }
    ensures counted { ArePartlyCounted graph.entry.script.now graph.entry.filter counts.new }
    ensures done { slice_get counts.new index ≢ Some 65535 }
    ensures others { (i : ℕ) → i ≢ index → slice_get counts.new i ≡ slice_get counts.old i }
{
    if counts[index] == UNCOUNTED {
        find_reached(graph, counts, Node::nth(index), sets);
        counts[index] = sets.reached.counted() as u16;
    }
}
