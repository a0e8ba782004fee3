//! The edges that leave one node: at most five, in order, each once.

ghost use Rattle.std.specs.Prelude.{◌≡◌, ◌+◌, ◌<◌, ◌≤◌, List, [], ◌∷◌, ◌++◌, length, insert, slice_get, MatchOption};
ghost use Rattle.sedck_flow.specs.declared.graph.Node.{Node};
ghost use Rattle.sedck_flow.specs.declared.graph.Kind.{Kind};
ghost use Rattle.sedck_flow.specs.Private.EdgeList.{number, Adds, IsTarget};

use crate::graph::{Kind, Node};
use std::marker::Model;

/// The node and the kind of each edge that leaves one node, in order and each once, in no memory.
#[derive(Drop)]
pub(crate) struct EdgeList {
    targets: [(Node, Kind); 5],
    count: usize,
}

impl Model for EdgeList {
    ghost use Rattle.std.specs.Prelude.{◌≡◌, List, take, length, ◌≤◌};
    ghost use Rattle.sedck_flow.specs.declared.graph.Node.{Node};
    ghost use Rattle.sedck_flow.specs.declared.graph.Kind.{Kind};

    ghost Value = { List (Node × Kind) };

    ghost view = { λ a. take a.count a.targets };

    ghost invariant = { λ a. (length a.targets ≡ 5) × (a.count ≤ 5) };
}

/// How many edges that may leave a node are before the one to this target.
fn number_of(target: (Node, Kind)) -> u32
    ensures { result ≡ number target }
{
    let (to, kind) = target;
    4 * to.index() as u32 + kind as u32
}

/// Where the target belongs among those, unless it is there.
fn place_of(targets: &[(Node, Kind)], target: (Node, Kind)) -> Option<usize>
    ensures { MatchOption result (Adds (IsTarget target) targets.now targets.now)
        (λ at. (at ≤ length targets.now) × Adds (IsTarget target) targets.now (insert targets.now at target)) }
{
    let number = number_of(target);
    for at in 0..targets.len() {
        let other = number_of(targets[at]);
        if number == other {
            return None;
        }
        if number < other {
            return Some(at);
        }
    }
    Some(targets.len())
}

/// Moves the last one to the index, and those from there on up.
fn last_to(targets: &mut [(Node, Kind)], index: usize)
    requires { index < length targets.old }
    ensures { (front : List (Node × Kind)) (last : Node × Kind) → targets.old ≡ front ++ last ∷ [] → targets.new ≡ insert front index last }
{
    targets[index..].rotate_right(1);
}

impl EdgeList {
    ghost use Rattle.sedck_flow.specs.Private.EdgeList.{AddsEdge, AddsLine};

    pub(crate) fn new() -> Self
        ensures { result ≡ [] }
    {
        let unused = (Node::start(false), Kind::Keep);
        EdgeList {
            targets: [unused; 5],
            count: 0,
        }
    }

    /// Adds the edge where it belongs, unless it is there.
    pub(crate) fn add(&mut self, kind: Kind, to: Node)
        requires room { length self.old < 5 }
        ensures edges { AddsEdge kind to self.old self.new }
        ensures few { length self.new ≤ length self.old + 1 }
    {
        let Some(at) = place_of(&self.targets[..self.count], (to, kind)) else {
            return;
        };
        self.targets[self.count] = (to, kind);
        self.count += 1;
        last_to(&mut self.targets[..self.count], at);
    }

    /// Adds the edges on which a line is read: to the node after the last line, and to the one before it. No line is
    /// read where none is left.
    pub(crate) fn add_line(&mut self, from: Node, to: Node)
        requires room { length self.old < 4 }
        ensures edges { AddsLine from to self.old self.new }
        ensures few { length self.new ≤ length self.old + 2 }
    {
        if from.last {
            return;
        }
        self.add(Kind::Consume, to.with_last(false));
        self.add(Kind::Consume, to.with_last(true));
    }

    pub(crate) fn len(&self) -> usize
        ensures { result ≡ length self.now }
    {
        self.count
    }

    /// The node and the kind of the edge at this place in the list.
    pub(crate) fn get(&self, at: usize) -> (Node, Kind)
        requires { at < length self.now }
        ensures { slice_get self.now at ≡ Some result }
    {
        let targets = &self.targets;
        targets[at]
    }
}
