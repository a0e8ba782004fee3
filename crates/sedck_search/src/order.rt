//! The state of Tarjan's depth-first search: 16 bits for each node, four times.

ghost use Rattle.std.specs.Prelude.{◌≡◌, ◌<◌, ◌≤◌, length, set, Some, slice_get, IfOk};
ghost use Rattle.sedck_search.specs.Private.Components.{AreIndices, IsOrder};

use std::alloc::{AllocError, Global};

/// The position of a node that was never visited: more than any other.
pub(crate) const UNVISITED: u16 = u16::MAX;

/// Which nodes were visited, from where, and which of them wait for their component to be counted.
#[derive(Drop)]
pub(crate) struct Order {
    /// The node from which each node was visited. A root is its own parent.
    pub(crate) parents: Vec<u16>,
    /// For each node the first visited one of its component that it is known to reach, at first itself.
    pub(crate) links: Vec<u16>,
    /// Where each visited node is on the stack.
    pub(crate) positions: Vec<u16>,
    /// Below the height: the visited nodes whose component isn't counted, in the order of their visits.
    pub(crate) stack: Vec<u16>,
    pub(crate) height: usize,
}

impl Order {
    /// No node is visited.
    pub(crate) fn new(alloc: Global, nodes: usize) -> Result<Order, AllocError>
        requires { nodes < 65536 }
        ensures order { IfOk result (λ order. IsOrder order × (length order.parents.items ≡ nodes)) }
        ensures links { IfOk result (λ order. AreIndices order.links.items) }
    {
        let parents = indices(alloc, nodes)?;
        let links = indices(alloc, nodes)?;
        let stack = indices(alloc, nodes)?;
        let mut positions = Vec::new(alloc);
        positions.resize(nodes, UNVISITED)?;
        Ok(Order {
            parents,
            links,
            positions,
            stack,
            height: 0,
        })
    }

    /// Puts the node on the stack, which has room for each.
    pub(crate) fn visit(&mut self, node: usize, parent: usize)
        requires order { IsOrder self.old }
        requires node { node < length self.old.parents.items }
        requires parent { parent < length self.old.parents.items }
        requires few { length self.old.parents.items < 65536 }
        ensures order { IsOrder self.new }
        ensures long { length self.new.parents.items ≡ length self.old.parents.items }
        ensures links { self.new.links ≡ self.old.links }
    {
        self.parents[node] = parent as u16;
        self.positions[node] = self.height as u16;
        if self.height < self.stack.len() {
            self.stack[self.height] = node as u16;
            self.height += 1;
        }
    }

    /// The node from which this one was visited.
    pub(crate) fn parent(&self, node: usize) -> usize
        requires order { IsOrder self.now }
        requires node { node < length self.now.parents.items }
        ensures { result < length self.now.parents.items }
    {
        usize::from(self.parents[node])
    }

    /// The node at this position of the stack.
    pub(crate) fn at(&self, position: usize) -> usize
        requires order { IsOrder self.now }
        requires position { position < self.now.height }
        ensures { result < length self.now.parents.items }
    {
        usize::from(self.stack[position])
    }

    /// The node that this one links to.
    pub(crate) fn linked(&self, node: usize) -> usize
        requires order { IsOrder self.now }
        requires node { node < length self.now.parents.items }
        ensures link { slice_get self.now.links.items node ≡ Some result }
        ensures inside { result < length self.now.parents.items }
    {
        usize::from(self.links[node])
    }

    /// Links the node to another one.
    pub(crate) fn link(&mut self, node: usize, to: usize)
        requires order { IsOrder self.old }
        requires node { node < length self.old.parents.items }
        requires to { to < length self.old.parents.items }
        requires few { length self.old.parents.items < 65536 }
        ensures order { IsOrder self.new }
        ensures long { length self.new.parents.items ≡ length self.old.parents.items }
        ensures links { self.new.links.items ≡ set self.old.links.items node to }
    {
        self.links[node] = to as u16;
    }

    /// Takes the nodes from this height on from the stack.
    pub(crate) fn pop(&mut self, height: usize)
        requires order { IsOrder self.old }
        ensures order { IsOrder self.new }
        ensures long { length self.new.parents.items ≡ length self.old.parents.items }
        ensures links { self.new.links ≡ self.old.links }
    {
        self.height = self.height.min(height);
    }
}

/// The numbers below this one, in their order.
fn indices(alloc: Global, count: usize) -> Result<Vec<u16>, AllocError>
    requires { count < 65536 }
    ensures long { IfOk result (λ numbers. length numbers.items ≡ count) }
    ensures same { IfOk result (λ numbers. AreIndices numbers.items) }
{
    let mut numbers = Vec::new(alloc);
    for index in 0..count {
        numbers.push(index as u16)?;
    }
    Ok(numbers)
}
