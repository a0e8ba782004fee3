//! Whether a loop never ends once it is entered, whatever the pattern space holds. A no says nothing.

use sedck_bre::Expr;
use sedck_expressions::Bre;
use sedck_flow::Node;
use sedck_script::{Address, Command, Part, Pattern, Place, Script, Substitution, Verb};
use sedck_search::Walk;

/// Whether each run that takes all steps of the loop once takes them for ever, or at least never leaves the loop and what follows it.
pub(crate) fn never_ends(script: &Script, walk: &Walk) -> bool {
    goes_round(script, walk) || is_closed(script, walk)
}

/// Whether no command from the loop's first one on leads back before it, to the end of a cycle or to a line, as far as a run may go from
/// there.
fn is_closed(script: &Script, walk: &Walk) -> bool {
    let places = walk.nodes.iter().map(|node| usize::from(node.at));
    let first = places.min().unwrap_or(0);
    let mut last = first;
    for (at, command) in script.commands().iter().enumerate().skip(first) {
        if at > last {
            return true;
        }
        match furthest(command, at, first) {
            Some(target) => last = last.max(target),
            None => return false,
        }
    }
    last < script.commands().len()
}

/// The last place to which the command at this one may lead, if it leads to none before the first one, and neither reads a line nor ends a
/// cycle, whatever its address.
fn furthest(command: &Command, at: usize, first: usize) -> Option<usize> {
    let next = at.saturating_add(1);
    match &command.verb {
        Verb::Next
        | Verb::NextAppend
        | Verb::Delete
        | Verb::DeleteFirstLine
        | Verb::Change(_)
        | Verb::Quit => None,
        Verb::Branch(target) | Verb::Test(target) if *target < first => None,
        Verb::Branch(target) if is_plain(command) => Some(*target),
        Verb::Branch(target) | Verb::Test(target) | Verb::Block(target) => {
            let target = *target;
            Some(target.max(next))
        }
        _ => Some(next),
    }
}

/// Whether each run that takes all steps of the loop once takes them for ever.
fn goes_round(script: &Script, walk: &Walk) -> bool {
    let mut facts = Facts {
        tests: false,
        changes: false,
    };
    for node in &walk.nodes {
        if let Some(command) = script.commands().get(usize::from(node.at)) {
            facts.tests = facts.tests || may_test(command, *node);
            facts.changes = facts.changes || may_change(&command.verb);
        }
    }
    for (from, to) in walk.nodes.iter().zip(walk.nodes.iter().skip(1)) {
        let command = script.commands().get(usize::from(from.at));
        if !command.is_some_and(|command| is_certain(command, *from, *to, facts)) {
            return false;
        }
    }
    true
}

/// What commands of a loop do.
#[derive(Clone, Copy)]
struct Facts {
    /// A `t` may be applied.
    tests: bool,
    /// A command may change the pattern space.
    changes: bool,
}

/// Whether the command is applied at the node, by its addresses and what is known of the last line; nothing where the text decides.
fn is_applied(command: &Command, node: Node) -> Option<bool> {
    match &command.address {
        Address::None => Some(!command.negated),
        Address::One(Place::Last) => Some(node.last != command.negated),
        _ => None,
    }
}

/// Whether the command is a `t` that may be applied.
fn may_test(command: &Command, node: Node) -> bool {
    matches!(command.verb, Verb::Test(_)) && is_applied(command, node) != Some(false)
}

/// Whether the verb may change the pattern space, as long as no line is read.
fn may_change(verb: &Verb) -> bool {
    match verb {
        Verb::Substitute(substitution) => !keeps_match(substitution),
        Verb::Transliterate(_, _) | Verb::Get | Verb::GetAppend | Verb::Exchange => true,
        _ => false,
    }
}

/// Whether a run takes this step of the loop from its first node. That of a range is unknown, and that of what has an expression for its address.
fn is_certain(command: &Command, from: Node, to: Node, facts: Facts) -> bool {
    let applied = is_applied(command, from);
    match &command.verb {
        Verb::Branch(_) | Verb::Block(_) => applied.is_some(),
        // Whether its flag is set is decided at the `s` of the loop.
        Verb::Test(_) => applied.is_some(),
        Verb::Substitute(substitution) => {
            // An empty expression may stand for another one in each round.
            let is_same = !facts.changes && matches!(substitution.pattern, Pattern::Expr(_));
            let succeeds = always_matches(substitution) || is_same;
            !facts.tests || from.flag || (to.flag && applied == Some(true) && succeeds)
        }
        Verb::Next
        | Verb::NextAppend
        | Verb::Delete
        | Verb::DeleteFirstLine
        | Verb::Change(_)
        | Verb::Quit => applied == Some(false),
        _ => true,
    }
}

/// Whether the `s` replaces something in each text: its first match is replaced, and its expression matches the empty text at the start.
fn always_matches(substitution: &Substitution) -> bool {
    match &substitution.pattern {
        Pattern::Expr(expression) => {
            matches!(substitution.nth, None | Some(1)) && matches_nothing(expression)
        }
        Pattern::Previous => false,
    }
}

/// Whether the expression matches the empty text at the start of each text: each of its items may be missing or is `^`.
fn matches_nothing(expression: &Expr) -> bool {
    match expression.body() {
        Bre::Seq(items) => items.iter().all(may_be_missing),
        body => may_be_missing(body),
    }
}

fn may_be_missing(item: &Bre) -> bool {
    matches!(item, Bre::Start | Bre::Repeat { least: 0, .. })
}

/// Whether the `s` writes just what it matches.
fn keeps_match(substitution: &Substitution) -> bool {
    match (substitution.parts.as_slice(), &substitution.pattern) {
        ([Part::Whole], _) => true,
        ([Part::Text(text)], Pattern::Expr(expression)) => is_literal(expression, text),
        _ => false,
    }
}

/// Whether the expression has just these bytes.
fn is_literal(expression: &Expr, text: &[u8]) -> bool {
    match expression.body() {
        Bre::Seq(items) => {
            items.len() == text.len()
                && items
                    .iter()
                    .zip(text)
                    .all(|(item, byte)| is_byte(item, *byte))
        }
        body => text.len() == 1 && text.iter().all(|byte| is_byte(body, *byte)),
    }
}

fn is_byte(item: &Bre, byte: u8) -> bool {
    matches!(item, Bre::Byte(own) if *own == byte)
}

/// Whether the loop only repeats one `s` that does the same once with the flag `g`: what it writes can't be a part of a match, since its
/// expression is a text that has no byte of the replacement.
pub(crate) fn is_repeated_once(script: &Script, walk: &Walk) -> bool {
    let mut found = None;
    for node in &walk.nodes {
        let Some(command) = script.commands().get(usize::from(node.at)) else {
            return false;
        };
        match &command.verb {
            Verb::Label(_) => {}
            Verb::Test(_) if is_plain(command) => {}
            Verb::Substitute(substitution) if is_plain(command) && writes_no_match(substitution) =>
                {
                    if found.is_some_and(|at| at != node.at) {
                        return false;
                    }
                    found = Some(node.at);
                }
            _ => return false,
        }
    }
    found.is_some()
}

/// Whether the command has no address.
fn is_plain(command: &Command) -> bool {
    matches!(command.address, Address::None) && !command.negated
}

/// Whether a text is replaced by another one with none of its bytes, and nothing else is done.
fn writes_no_match(substitution: &Substitution) -> bool {
    let is_alone = substitution.nth.is_none() && substitution.file.is_none() && !substitution.print;
    match (substitution.parts.as_slice(), &substitution.pattern) {
        ([Part::Text(text)], Pattern::Expr(expression)) => {
            is_alone && has_other_bytes(expression.body(), text)
        }
        _ => false,
    }
}

/// Whether the expression has only bytes, and none of this text.
fn has_other_bytes(body: &Bre, text: &[u8]) -> bool {
    match body {
        Bre::Seq(items) => items.iter().all(|item| is_other_byte(item, text)),
        body => is_other_byte(body, text),
    }
}

fn is_other_byte(item: &Bre, text: &[u8]) -> bool {
    matches!(item, Bre::Byte(own) if !text.contains(own))
}
