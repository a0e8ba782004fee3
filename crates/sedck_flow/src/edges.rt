//! The edges that leave one node, one after another.

ghost use Rattle.std.specs.Prelude.{◌≡◌, ◌↔◌, ◌+◌, ◌<◌, ◌≤◌, length, IsTrue};
ghost use Rattle.sedck_script.specs.Invariant.{IsTargetWithin, IsReplacement};
ghost use Rattle.sedck_script.specs.View.{command_of, verb_of};
ghost use Rattle.sedck_flow.specs.Flow.{node_past as node_past_verb, MayApplyAt, MaySkipAt, CommandEdge, ListsEdges, FlowFrom};
ghost use Rattle.sedck_flow.specs.Private.EdgeList.{Adds};
ghost use Rattle.sedck_flow.specs.Private.Least.{HasFormed};

use crate::edge_list::EdgeList;
use crate::graph::{Edge, Kind, Node};
use crate::verbs::add_verb_edges;
use sedck_script::{Address, Command, Place, Script, Verb};
use std::marker::{Model, PhantomData};

/// The edges that leave one node, over the borrowed script. It takes no memory.
#[derive(Drop)]
pub struct Edges<'s, 'a> {
    from: Node,
    list: EdgeList,
    next: usize,
    script: PhantomData<&'s Script<'a>>,
}

impl<'s, 'a> Model for Edges<'s, 'a> {
    ghost use Rattle.std.specs.Prelude.{List, drop, length, map, ◌≤◌};
    ghost use Rattle.sedck_flow.specs.declared.graph.Edge.{Edge};
    ghost use Rattle.sedck_flow.specs.Private.EdgeList.{edge_to};

    /// The edges that are still to come.
    ghost Value = { List Edge };

    ghost view = { λ a. map (edge_to a.from) (drop a.next a.list) };

    ghost invariant = { λ a. a.next ≤ length a.list };
}

impl<'s, 'a> Iterator for Edges<'s, 'a> {
    type Item = Edge;

    ghost use Rattle.std.specs.Iterator.{YieldsFirst, item_count};

    ghost next_gives = { YieldsFirst (λ edges. edges) };

    ghost remaining = { item_count (λ edges. edges) };

    fn next(&mut self) -> Option<Edge> {
        if self.next == self.list.len() {
            return None;
        }
        let (to, kind) = self.list.get(self.next);
        self.next += 1;
        Some(Edge {
            from: self.from,
            to,
            kind,
        })
    }
}

/// The edges that leave the node, by the node that they lead to and then by their kind. The time is constant.
pub fn edges_of<'s, 'a>(script: &'s Script<'a>, node: Node) -> Edges<'s, 'a>
    requires inside { node.at ≤ length script.now.commands }
    ensures edges { ListsEdges result (FlowFrom script.now node) }
    ensures few { length result ≤ 5 }
{
    let mut list = EdgeList::new();
    match script.commands().get(usize::from(node.at)) {
        Some(command) => add_command_edges(&mut list, script, command, node),
        None => list.add_line(node, Node::start(node.last)),
    }
    Edges {
        from: node,
        list,
        next: 0,
        script: PhantomData,
    }
}

/// Adds the edges from a command's node: those of its verb, where it may be applied, and one by which it may be passed.
fn add_command_edges(list: &mut EdgeList, script: &Script, command: &Command, from: Node)
    requires room { length list.old < 1 }
    requires place { from.at < 4095 }
    requires target { IsTargetWithin 4095 (verb_of command.now.verb) }
    requires formed { HasFormed (verb_of command.now.verb) }
    requires replacement { IsReplacement (verb_of command.now.verb) }
    ensures edges { Adds (CommandEdge script.now (command_of command.now) from) list.old list.new }
    ensures few { length list.new ≤ length list.old + 5 }
{
    if may_apply(command, from) {
        add_verb_edges(list, script, command, from);
    }
    if may_skip(command, from) {
        list.add(Kind::Keep, node_past(&command.verb, from));
    }
}

/// Whether the command may be applied at the node: where `$` selects it, only on the last line, and with `!` only before it.
fn may_apply(command: &Command, node: Node) -> bool
    ensures { IsTrue result ↔ MayApplyAt (command_of command.now) node }
{
    match &command.address {
        Address::One(Place::Last) => node.last != command.negated,
        _ => true,
    }
}

/// Whether the command may be skipped at the node, since it has an address or `!`; where `$` selects it, only before the
/// last line, and with `!` only on it.
fn may_skip(command: &Command, node: Node) -> bool
    ensures { IsTrue result ↔ MaySkipAt (command_of command.now) node }
{
    match &command.address {
        Address::None => command.negated,
        Address::One(Place::Last) => node.last == command.negated,
        Address::One(_) | Address::Two(_, _) => true,
    }
}

/// The node after a command that isn't applied.
fn node_past(verb: &Verb, from: Node) -> Node
    requires place { from.at < 4095 }
    requires target { IsTargetWithin 4095 (verb_of verb.now) }
    ensures { result ≡ node_past_verb (verb_of verb.now) from }
{
    match verb {
        Verb::Block(behind) => from.to(*behind),
        _ => from.next(),
    }
}
