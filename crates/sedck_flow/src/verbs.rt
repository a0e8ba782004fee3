//! The edges of a command that is applied, by its verb.

ghost use Rattle.std.specs.Prelude.{◌≡◌, ℕ, ◌+◌, ◌<◌, ◌≤◌, false, if◌then◌else◌, List, length};
ghost use Rattle.sedck_commands.specs.Program as plain;
ghost use Rattle.sedck_script.specs.Invariant.{IsTargetWithin, IsReplacement};
ghost use Rattle.sedck_script.specs.View.{address_of, verb_of};
ghost use Rattle.sedck_flow.specs.Flow.{VerbEdge};
ghost use Rattle.sedck_flow.specs.Nodes.{moved_to, next, with_flag};
ghost use Rattle.sedck_flow.specs.Private.EdgeList.{Adds};
ghost use Rattle.sedck_flow.specs.Private.Least.{HasFormed};

use crate::edge_list::EdgeList;
use crate::graph::{Kind, Node};
use crate::success::success_kind;
use sedck_script::{Address, Command, Script, Verb};

/// Adds the edges of the command where it is applied.
pub(crate) fn add_verb_edges(list: &mut EdgeList, script: &Script, command: &Command, from: Node)
    requires room { length list.old < 2 }
    requires place { from.at < 4095 }
    requires target { IsTargetWithin 4095 (verb_of command.now.verb) }
    requires formed { HasFormed (verb_of command.now.verb) }
    requires replacement { IsReplacement (verb_of command.now.verb) }
    ensures edges { Adds (VerbEdge script.now (address_of command.now.address) (verb_of command.now.verb) from) list.old list.new }
    ensures few { length list.new ≤ length list.old + 4 }
{
    let start = Node::start(from.last);
    let onward = from.next();
    match &command.verb {
        Verb::Branch(target) => list.add(Kind::Keep, from.to(*target)),
        Verb::Change(_) => add_change_edges(list, &command.address, from),
        Verb::Delete => list.add_line(from, start),
        Verb::DeleteFirstLine => {
            // Without a newline it is as `d`; where a line is dropped, the flag is kept or reset.
            list.add_line(from, start);
            list.add(Kind::Shorten, start.with_flag(from.flag));
            list.add(Kind::Shorten, start);
        }
        Verb::Exchange | Verb::Get | Verb::GetAppend => list.add(Kind::Grow, onward),
        Verb::Next | Verb::NextAppend => {
            // The flag is kept or reset.
            list.add_line(from, onward);
            list.add_line(from, onward.with_flag(false));
        }
        Verb::Quit => {}
        Verb::Substitute(substitution) => {
            list.add(Kind::Keep, onward);
            list.add(success_kind(script, substitution), onward.with_flag(true));
        }
        Verb::Test(target) => list.add(Kind::Keep, node_after_test(*target, from)),
        _ => list.add(Kind::Keep, onward),
    }
}

/// `c`: the next cycle begins, or at a range the pattern space may be left empty.
fn add_change_edges(list: &mut EdgeList, address: &Address, from: Node)
    requires room { length list.old < 3 }
    requires place { from.at < 4095 }
    ensures edges { (p : plain.Program) (text : List ℕ)
        → Adds (VerbEdge p (address_of address.now) (plain.Change text) from) list.old list.new }
    ensures few { length list.new ≤ length list.old + 3 }
{
    list.add_line(from, Node::start(from.last));
    match address {
        Address::Two(_, _) => list.add(Kind::Keep, from.next()),
        Address::One(_) => {}
        Address::None => {}
    }
}

/// `t`: it leads to its target where the flag is set, and resets it.
fn node_after_test(target: usize, from: Node) -> Node
    requires place { from.at < 4095 }
    requires target { target ≤ 4095 }
    ensures { result ≡ (if from.flag then with_flag (moved_to from target) false else next from) }
{
    if from.flag {
        from.to(target).with_flag(false)
    } else {
        from.next()
    }
}
