//! The nodes of a component: each reaches what its root does.

ghost use Rattle.std.specs.Prelude.{◌≡◌, ◌<◌, length};
ghost use Rattle.std.specs.Bool.{OnTrue};
ghost use Rattle.sedck_script.specs.Invariant.{IsScript};
ghost use Rattle.sedck_search.specs.Rows.{bit_count};
ghost use Rattle.sedck_search.specs.Private.Reaching.{ArePartlyCounted};
ghost use Rattle.sedck_search.specs.Private.Components.{AreSets, IsMember, IsOrderOf};

use crate::counting::UNCOUNTED;
use crate::filter::Graph;
use crate::node_set::NodeSet;
use crate::order::Order;
use crate::sets::Sets;

/// Counts the nodes of the component of the root, which is counted: those above it on the stack, in the order in
/// which they were visited, so that the one that each links to is counted before it.
pub(crate) fn count_component(
    graph: Graph,
    root: usize,
    order: &mut Order,
    sets: &mut Sets,
    counts: &mut [u16],
)
    requires script { IsScript graph.script.now }
    requires inside { root < length counts.old }
    requires order { IsOrderOf graph.script.now graph.filter order.old }
    requires sets { AreSets graph.script.now graph.filter sets.old }
    requires counted { ArePartlyCounted graph.script.now graph.filter counts.old }
    ensures order { IsOrderOf graph.entry.script.now graph.entry.filter order.new }
    ensures sets { AreSets graph.entry.script.now graph.entry.filter sets.new }
    ensures counted { ArePartlyCounted graph.entry.script.now graph.entry.filter counts.new }
{
    let bottom = usize::from(order.positions[root]);
    let count = sets.reached.len() as u16;
    let slot = sets
        .kept
        .store(&sets.reached, order.height.saturating_sub(bottom));
    for position in bottom..order.height {
        let node = order.at(position);
        let link = order.linked(node);
        sets.kept.slots[node] = slot;
        if counts[node] == UNCOUNTED && is_member(&sets.reached, count, counts, node, link) {
            counts[node] = count;
        }
    }
    order.pop(bottom);
}

/// Whether the node is in the set of so many nodes, and so is the one that it links to, which counts as many.
fn is_member(reached: &NodeSet, count: u16, counts: &[u16], node: usize, link: usize) -> bool
    requires count { count ≡ bit_count reached.now }
    requires node { node < 16384 }
    requires link { link < 16384 }
    requires inside { link < length counts.now }
    ensures { OnTrue result (IsMember reached.now counts.now node link) }
{
    reached.has(node) && reached.has(link) && counts[link] == count
}
