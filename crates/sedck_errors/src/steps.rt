//! What a step from one command to the next does, in words.

ghost use Rattle.std.specs.Prelude.{◌≡◌};
ghost use Rattle.sedck_errors.specs.Errors.{node_position};

use sedck_flow::{Edge, Kind, Node};
use sedck_report::{Position, Step};
use sedck_script::{Command, Part, Pattern, Script, Substitution, Verb};
use std::alloc::{AllocError, Global};

/// The step along the edge.
pub(crate) fn step(
    alloc: Global,
    script: &Script,
    positions: &[Position],
    edge: Edge,
) -> Result<Step, AllocError> {
    Ok(Step {
        node: edge.from,
        position: position_of(positions, edge.from),
        kind: Some(edge.kind),
        message: step_words(alloc, script, edge)?,
    })
}

/// The node to which a step leads, with these words.
pub(crate) fn target_step(
    alloc: Global,
    positions: &[Position],
    node: Node,
    words: &str,
) -> Result<Step, AllocError> {
    Ok(Step {
        node,
        position: position_of(positions, node),
        kind: None,
        message: String::from_str(alloc, words)?,
    })
}

/// Where the node's command is; none for the script's end.
pub(crate) fn position_of(positions: &[Position], node: Node) -> Option<Position>
    ensures { result ≡ node_position positions.now node }
{
    positions.get(usize::from(node.at)).copied()
}

/// What the step does.
fn step_words(alloc: Global, script: &Script, edge: Edge) -> Result<String, AllocError> {
    let line = if edge.from.last {
        " (on the last line)"
    } else {
        ""
    };
    let Some(command) = script.commands().get(usize::from(edge.from.at)) else {
        return format!(in alloc; "the cycle ends, and the next line is read{line}");
    };
    let words = verb_words(command, edge);
    match (&command.verb, edge.kind) {
        (Verb::Substitute(substitution), Kind::Grow) => {
            let why = growth(alloc, substitution)?;
            format!(in alloc; "{words}: {why}{line}")
        }
        _ => format!(in alloc; "{words}{line}"),
    }
}

/// What the command does along the edge.
fn verb_words(command: &Command, edge: Edge) -> &'static str {
    match &command.verb {
        Verb::Branch(target) => branch_words(edge, *target),
        Verb::Test(_) => test_words(edge),
        Verb::Block(after) => block_words(edge, *after),
        Verb::Substitute(_) => substitute_words(edge),
        Verb::Delete => reads_or(edge, "is skipped"),
        Verb::DeleteFirstLine => first_line_words(edge.kind),
        Verb::Next | Verb::NextAppend => reads_or(edge, "is skipped, so no line is read"),
        Verb::Get | Verb::GetAppend | Verb::Exchange => hold_words(edge.kind),
        Verb::Change(_) => reads_or(
            edge,
            "does nothing yet: it is skipped, or its range goes on",
        ),
        Verb::Label(_) => "goes on",
        _ => "goes on; reads no line",
    }
}

fn branch_words(edge: Edge, target: usize) -> &'static str {
    if usize::from(edge.to.at) == target {
        "branches"
    } else {
        "is skipped"
    }
}

fn test_words(edge: Edge) -> &'static str {
    match (edge.from.flag, edge.to.flag) {
        (true, false) => "branches, since something was replaced",
        (true, true) => "is skipped",
        (false, _) => "doesn't branch, since nothing was replaced",
    }
}

fn block_words(edge: Edge, after: usize) -> &'static str {
    if usize::from(edge.to.at) == after {
        "the block is skipped"
    } else {
        "the block is entered"
    }
}

fn substitute_words(edge: Edge) -> &'static str {
    match (edge.kind, edge.from.flag, edge.to.flag) {
        (Kind::Shorten, _, _) => "replaces a match with a shorter text",
        (Kind::Grow, _, _) => "may replace a match with a longer text",
        (_, false, true) => "replaces a match with a text that isn't longer",
        (_, true, _) => "replaces nothing, or a match with a text that isn't longer",
        _ => "replaces nothing",
    }
}

fn first_line_words(kind: Kind) -> &'static str {
    match kind {
        Kind::Consume => "starts the next cycle with a new line",
        Kind::Shorten => "deletes up to the first newline, and starts again without reading a line",
        _ => "is skipped",
    }
}

fn hold_words(kind: Kind) -> &'static str {
    match kind {
        Kind::Grow => "may lengthen the pattern space with the contents of the hold space",
        _ => "is skipped",
    }
}

/// Reads a line, or else these words.
fn reads_or(edge: Edge, words: &'static str) -> &'static str {
    match edge.kind {
        Kind::Consume => "reads a line",
        _ => words,
    }
}

/// Why a replacement may be longer than what it replaces.
fn growth(alloc: Global, substitution: &Substitution) -> Result<String, AllocError> {
    let literal = substitution.literal;
    let unit = if literal == 1 { "byte" } else { "bytes" };
    match (&substitution.pattern, substitution.outside) {
        (Pattern::Expr(_), Some(outside)) if keeps_groups(&substitution.parts) => {
            format!(in alloc;
                "it has {literal} {unit} plus its groups, and a match may have only {outside} outside of them"
            )
        }
        (Pattern::Expr(_), Some(outside)) => {
            format!(in alloc; "it has {literal} {unit}, and a match may have only {outside}")
        }
        (_, None) if has_whole(&substitution.parts) => {
            format!(in alloc; "it has the whole match, `&`, and more")
        }
        (Pattern::Previous, _) => {
            format!(in alloc;
                "it has {literal} {unit}, and the expression may be any of the script's"
            )
        }
        _ => format!(in alloc; "it has a group twice, or one that is repeated or inside another"),
    }
}

/// Whether the replacement names a group.
fn keeps_groups(parts: &[Part]) -> bool {
    parts.iter().any(|part| matches!(part, Part::Group(_)))
}

/// Whether the replacement has the whole match.
fn has_whole(parts: &[Part]) -> bool {
    parts.iter().any(|part| matches!(part, Part::Whole))
}
