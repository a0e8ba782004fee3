//! Sets of what counted nodes reach. A set that is kept saves a walk over its nodes.
//!
//! A set for each node would take 16 MiB or more. So the sets stored last are kept, and of the others every `STRIDE`-th:
//! then a walk soon comes to a node with a kept set. Only time depends on which sets are kept.

ghost use Rattle.std.specs.Prelude.{◌≡◌, ◌<◌, [], length, All, IfSome, IfOk};
ghost use Rattle.sedck_search.specs.Private.NodeSet.{IsEmpty, IsNodeSet};
ghost use Rattle.sedck_search.specs.Private.KeptSets.{IsKeptFor, StoresSet};

use crate::node_set::NodeSet;
use std::alloc::{AllocError, Global};

/// How many of the sets stored last are kept at most.
const LATEST: u32 = 64;

/// Of the other sets every one with this step between them is kept. It is a prime: where nodes of several kinds take turns,
/// as those with the flag set and reset do, sets of each kind are kept.
const STRIDE: u32 = 13;

/// The sets that are kept, and for each node the slot in which its set was stored.
#[derive(Drop)]
pub(crate) struct KeptSets {
    pub(crate) sets: Vec<NodeSet>,
    pub(crate) slots: Vec<u16>,
    /// How many of the sets stored last are kept: no more than there are nodes on one side of the last line.
    pub(crate) latest: u32,
    /// How many sets were stored, and of how many nodes.
    pub(crate) stored: u32,
    pub(crate) nodes: u32,
}

impl KeptSets {
    /// No set and no slot.
    pub(crate) fn none(alloc: Global) -> KeptSets
        ensures { result.sets.items ≡ [] }
    {
        KeptSets {
            sets: Vec::new(alloc),
            slots: Vec::new(alloc),
            latest: 0,
            stored: 0,
            nodes: 0,
        }
    }

    /// Empty sets, enough for so many nodes to be counted on one side of the last line, and a slot number for each node.
    pub(crate) fn new(alloc: Global, nodes: usize, side: usize) -> Result<KeptSets, AllocError>
        requires { nodes < 65536 }
        ensures { IfOk result (λ kept. All IsEmpty kept.sets.items × (length kept.slots.items ≡ nodes)) }
    {
        let mut kept = KeptSets::none(alloc);
        let side = side.min(nodes / 2) as u32;
        kept.latest = LATEST.min(side);
        let count = kept.latest + side / STRIDE + 1;
        kept.sets.reserve_exact(count as usize)?;
        for _ in 0..count {
            kept.sets.push(NodeSet::new())?;
        }
        kept.slots.resize(nodes, 0)?;
        Ok(kept)
    }

    /// The set that is kept for the node with this index, by the nodes' counts.
    pub(crate) fn of(&self, node: usize, counts: &[u16]) -> Option<&NodeSet>
        requires { node < 16384 }
        ensures { IfSome result (λ set. IsKeptFor self.now.sets.items counts.now node set.now × IsNodeSet set.now) }
    {
        let slot = usize::from(*self.slots.get(node)?);
        let count = usize::from(*counts.get(node)?);
        let set = self.sets.get(slot)?;
        if set.has(node) && set.len() == count {
            return Some(set);
        }
        None
    }

    /// Stores a set of so many nodes of a component, and answers its slot.
    pub(crate) fn store(&mut self, set: &NodeSet, nodes: usize) -> u16
        requires { nodes < 65536 }
        ensures sets { StoresSet self.old.sets.items set.now self.new.sets.items }
        ensures slots { self.new.slots ≡ self.old.slots }
    {
        let slot = self.next_slot(nodes);
        let at = usize::from(slot);
        if at < self.sets.len() {
            self.sets[at].copy_from(set);
        }
        slot
    }

    /// The slot of the next set, of so many nodes: one for good, where they come to a further multiple of the stride.
    fn next_slot(&mut self, nodes: usize) -> u16
        requires { nodes < 65536 }
        ensures sets { self.new.sets ≡ self.old.sets }
        ensures slots { self.new.slots ≡ self.old.slots }
    {
        let before = self.nodes / STRIDE;
        self.nodes = self.nodes.wrapping_add(nodes as u32);
        let after = self.nodes / STRIDE;
        self.stored = self.stored.wrapping_add(1);
        let slot = if after == before {
            self.stored.checked_rem(self.latest).unwrap_or(0)
        } else {
            self.latest.saturating_add(after)
        };
        (slot % 65536) as u16
    }
}
