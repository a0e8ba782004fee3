//! What is reported of a loop, and of a script whose steps or spaces have no limit.

ghost use Rattle.std.specs.Prelude.{◌≡◌, IfOk, IfSome};
ghost use Rattle.sedck_report.specs.declared.finding.Level.TheVariants.{Error, Note};
ghost use Rattle.sedck_errors.specs.Errors.{first_position};

use crate::certain::is_repeated_once;
use crate::endless::{LineEnd, add_ending};
use crate::steps::{position_of, step, target_step};
use sedck_cert::{Cert, Limits, first_growth};
use sedck_flow::{Edge, Kind, Node};
use sedck_report::{Code, Finding, Level, Position, Step};
use sedck_script::{Address, Part, Pattern, Script, Substitution, Verb};
use sedck_search::{Form, Walk};
use std::alloc::{AllocError, Global};

/// The finding for a loop that rules all certificates out, where lines end so.
pub fn loop_finding(
    alloc: Global,
    script: &Script,
    positions: &[Position],
    walk: &Walk,
    line_end: LineEnd,
) -> Result<Finding, AllocError>
    ensures level { IfOk result (λ finding. finding.level ≡ Error) }
    ensures position { IfOk result (λ finding. finding.position ≡ first_position positions.now walk.now.nodes.items) }
{
    let (code, words) = loop_words(walk.form);
    let mut message = String::from_str(alloc, words)?;
    add_ending(alloc, &mut message, script, walk, line_end)?;
    let steps = loop_steps(alloc, script, positions, walk)?;
    let mut finding = Finding::new(alloc, Level::Error, code, message);
    finding.position = loop_position(positions, walk);
    finding.hint = Some(loop_hint(script, walk));
    finding.steps = steps;
    Ok(finding)
}

/// The code of a loop of this form, and how its message begins.
fn loop_words(form: Form) -> (Code, &'static str) {
    match form {
        Form::Idle => (
            Code::LoopIdle,
            "this loop reads no line and never shortens the pattern space: ",
        ),
        Form::Growing => (
            Code::LoopGrowing,
            "this loop reads no line and may lengthen the pattern space each time: ",
        ),
    }
}

/// Where the loop begins.
fn loop_position(positions: &[Position], walk: &Walk) -> Option<Position>
    ensures { result ≡ first_position positions.now walk.now.nodes.items }
{
    match walk.nodes.first() {
        Some(node) => position_of(positions, *node),
        None => None,
    }
}

/// The steps of the loop, in the order of a run, and the node that it comes back to.
fn loop_steps(
    alloc: Global,
    script: &Script,
    positions: &[Position],
    walk: &Walk,
) -> Result<Vec<Step>, AllocError> {
    let mut steps = Vec::new(alloc);
    let ends = walk.nodes.iter().zip(walk.nodes.iter().skip(1));
    for ((from, to), kind) in ends.zip(&walk.kinds) {
        let edge = Edge {
            from: *from,
            to: *to,
            kind: *kind,
        };
        steps.push(step(alloc, script, positions, edge)?)?;
    }
    if let Some(last) = walk.nodes.last() {
        steps.push(target_step(alloc, positions, *last, "and so on")?)?;
    }
    Ok(steps)
}

/// How loops of this shape are repaired.
fn loop_hint(script: &Script, walk: &Walk) -> &'static str {
    if has_verb(script, walk, VerbForm::Reading) {
        return reading_hint(script, walk);
    }
    if let Some(hint) = growth_hint(script, walk) {
        return hint;
    }
    if has_verb(script, walk, VerbForm::Testing) {
        return test_hint(script, walk);
    }
    match walk.form {
        Form::Growing => "repeat the command as often as it may be needed, without the loop",
        Form::Idle
            if has_verb(script, walk, VerbForm::Substituting) && has_condition(script, walk) =>
            "if the `s` has the expression that leads back, as in `s/x/y/` and `/x/b a`, write `t a` in place of that branch; else make each round read \
                a line, or write the commands out a fixed number of times",
        Form::Idle =>
            "make each round read a line, with `n`, `N` or `d`, or shorten the pattern space; or write the commands out a fixed number of times",
    }
}

/// How loops are repaired that have a command which may read a line, and doesn't.
fn reading_hint(script: &Script, walk: &Walk) -> &'static str {
    if restarts(script, walk) {
        return "use `D` only where a line was read: put it into a block with the `N`, and end the last line by `d`, as in `$!{`, `N`, `P`, `D`, `}`, \
            `P`, `d` on lines of their own for `$!N`, `P` and `D`";
    }
    "branch only where a line was read: put the branch into a block with the `N` or `n`, as in `/x/{`, `N`, `b a`, `}` on lines of their own"
}

/// How loops are repaired in which `D` starts again without a line, and something was added before.
fn restart_hint(script: &Script, walk: &Walk) -> &'static str {
    if has_verb(script, walk, VerbForm::Padding) {
        return "`D` starts again without reading a line: if the `s` splits a line, let it put in all newlines at once: for `s/X/&\\n/`, `P` and `D`, where X \
            begins with no `^`, write `s/X/&\\n/g`, then `s/\\n$//` if the end of a line isn't to be split, and with `-n` a `p`";
    }
    if has_verb(script, walk, VerbForm::Substituting) {
        return "`D` starts again without reading a line: if the `s` splits a line, let it put in all newlines at once, as docs/MENDING.md folds \
            lines; else write `d` for `D`, if nothing after the newline is needed";
    }
    "`D` starts again without reading a line, and each round adds a text: add it only where a line was read, or write `d` for `D`, if nothing after \
        the newline is needed"
}

/// Whether a `D` along the loop starts again without a line.
fn restarts(script: &Script, walk: &Walk) -> bool {
    for (node, kind) in walk.nodes.iter().zip(&walk.kinds) {
        if *kind == Kind::Shorten && is_at(script, *node, VerbForm::Restarting) {
            return true;
        }
    }
    false
}

/// How loops are repaired that lengthen the pattern space by what they match; nothing where that doesn't say more than others.
fn growth_hint(script: &Script, walk: &Walk) -> Option<&'static str> {
    if walk.form == Form::Idle {
        return None;
    }
    if has_verb(script, walk, VerbForm::Copying) {
        return Some(
            "each round may copy what it matches, so don't write it out many times: the pattern space could double each time; move bytes instead of \
                copying them, as docs/MENDING.md reverses a line",
        );
    }
    if restarts(script, walk) && !has_verb(script, walk, VerbForm::Testing) {
        return Some(restart_hint(script, walk));
    }
    if has_verb(script, walk, VerbForm::Padding) {
        return Some(
            "if the loop makes a line as long as it should be, add all that may be needed with one `s` and cut the rest off with a second one, as \
                docs/MENDING.md pads a line; else repeat the command as often as it may be needed; then write `t c` and `:c`, since the loop leaves \
                the flag of `t` unset",
        );
    }
    None
}

/// What a replacement has of the match.
#[derive(Clone, Copy)]
enum Copies {
    /// Some of it may be there twice.
    Many,
    /// The whole match once, and a text.
    WholeAndText,
    Other,
}

/// By the parts of the replacement. Groups that are in one another, or repeated, have no length outside of them.
fn copies_of(substitution: &Substitution) -> Copies {
    let mut wholes: usize = 0;
    let mut groups: usize = 0;
    for part in &substitution.parts {
        match part {
            Part::Whole => wholes = wholes.saturating_add(1),
            Part::Group(_) => groups = groups.saturating_add(1),
            _ => {}
        }
    }
    if wholes == 1 && groups == 0 && substitution.literal > 0 {
        return Copies::WholeAndText;
    }
    let is_counted = substitution.outside.is_some() || wholes.saturating_add(groups) < 2;
    if is_counted {
        Copies::Other
    } else {
        Copies::Many
    }
}

/// How loops with `t` are repaired. They leave the flag unset, which a way without a loop must do too.
fn test_hint(script: &Script, walk: &Walk) -> &'static str {
    match walk.form {
        Form::Idle if has_verb(script, walk, VerbForm::MatchingNothing) => {
            "an `s` that matches the empty string sets the flag too: make it match at least one byte, as in `s/^xx*//` for `s/^x*//`"
        }
        _ if has_earlier_flag(script, walk) => {
            "`t` branches for any `s` since the last `t`, here for one that isn't the last: if the last one alone is meant, write `t c` and `:c` \
                before it; else repeat the commands as often as it may be needed, and then write `t c` and `:c`"
        }
        _ if is_entered_elsewhere(script, walk) => {
            "repeat the command as often as it may be needed, and then write `t c` and `:c`, since the loop leaves the flag of `t` unset; keep the \
                label, to which another command leads"
        }
        _ if is_repeated_once(script, walk) => {
            "write one `s` with the flag `g`, and then `t c` and `:c`, since the loop leaves the flag of `t` unset: it does the same, since what it \
                writes can't be a part of a match"
        }
        Form::Idle if has_verb(script, walk, VerbForm::ReplacingAll) => {
            "repeat the command as often as it may be needed, and then write `t c` and `:c`, since the loop leaves the flag of `t` unset; or give the \
                loop fuel, as docs/MENDING.md shows"
        }
        _ =>
            "repeat the command as often as it may be needed, and then write `t c` and `:c`, since the loop leaves the flag of `t` unset",
    }
}

/// Whether an address decides on a branch of the loop.
fn has_condition(script: &Script, walk: &Walk) -> bool {
    for node in &walk.nodes {
        if let Some(command) = script.commands().get(usize::from(node.at)) {
            let is_plain = matches!(command.address, Address::None);
            if !is_plain && matches!(command.verb, Verb::Branch(_) | Verb::Block(_)) {
                return true;
            }
        }
    }
    false
}

/// Whether a branch that isn't part of the loop leads to one of its labels.
fn is_entered_elsewhere(script: &Script, walk: &Walk) -> bool {
    for (index, command) in script.commands().iter().enumerate() {
        match &command.verb {
            Verb::Branch(target) | Verb::Test(target)
                if has_place(walk, *target) && !has_place(walk, index) => {
                return true;
            }
            _ => {}
        }
    }
    false
}

/// Whether the command at this place is part of the loop.
fn has_place(walk: &Walk, place: usize) -> bool {
    walk.nodes.iter().any(|node| usize::from(node.at) == place)
}

/// Whether a `t` branches by the flag that another `s` than the last one set. The walk is gone over twice, since it may begin between them.
fn has_earlier_flag(script: &Script, walk: &Walk) -> bool {
    let mut last = None;
    let mut setter = None;
    for edge in walk.nodes.windows(2).chain(walk.nodes.windows(2)) {
        let [from, to] = edge else {
            continue;
        };
        if is_at(script, *from, VerbForm::Substituting) {
            last = Some(from.at);
            if !from.flag && to.flag {
                setter = last;
            }
        } else if is_at(script, *from, VerbForm::Testing)
            && from.flag
            && !to.flag
            && setter != last
        {
            return setter.is_some();
        }
    }
    false
}

/// Whether the node's command has such a verb.
fn is_at(script: &Script, node: Node, form: VerbForm) -> bool {
    match script.commands().get(usize::from(node.at)) {
        Some(command) => is_of(&command.verb, form),
        None => false,
    }
}

/// Whether the loop has a command with such a verb.
fn has_verb(script: &Script, walk: &Walk, form: VerbForm) -> bool {
    walk.nodes.iter().any(|node| is_at(script, *node, form))
}

/// Verbs that tell the shapes of loops apart.
#[derive(Clone, Copy)]
enum VerbForm {
    Reading,
    Testing,
    Substituting,
    /// `s` that may copy a part of its match.
    Copying,
    /// `s` that adds a text to its match.
    Padding,
    /// `D`.
    Restarting,
    /// `s` with the flag `g`.
    ReplacingAll,
    /// `s` with an expression that matches the empty text.
    MatchingNothing,
}

fn is_of(verb: &Verb, form: VerbForm) -> bool {
    match (form, verb) {
        (VerbForm::Reading, Verb::Next | Verb::NextAppend) => true,
        (VerbForm::Testing, Verb::Test(_)) => true,
        (VerbForm::Substituting, Verb::Substitute(_)) => true,
        (VerbForm::Copying, Verb::Substitute(substitution)) => {
            matches!(copies_of(substitution), Copies::Many)
        }
        (VerbForm::Padding, Verb::Substitute(substitution)) => {
            matches!(copies_of(substitution), Copies::WholeAndText)
        }
        (VerbForm::Restarting, Verb::DeleteFirstLine) => true,
        (VerbForm::ReplacingAll, Verb::Substitute(substitution)) => substitution.global,
        (VerbForm::MatchingNothing, Verb::Substitute(substitution)) => match &substitution.pattern {
            Pattern::Expr(expression) => expression.least() == 0,
            Pattern::Previous => false,
        },
        _ => false,
    }
}

/// A note where no limit on the spaces is known: on the first command that may make the pattern space longer, at a node with ranks, or
/// else on the first one that makes the hold space longer. It says so of the steps where no limit on them is known either.
pub fn growth_note(
    alloc: Global,
    script: &Script,
    positions: &[Position],
    cert: &Cert,
    limits: Limits,
) -> Result<Option<Finding>, AllocError>
    ensures { IfOk result (λ found. IfSome found (λ finding. finding.level ≡ Note)) }
{
    if !limits.is_growing() {
        return Ok(None);
    }
    let Some(edge) = first_growth(script, cert) else {
        let position = first_append(script, positions);
        return Ok(Some(note(
            alloc,
            Code::NoSpaceBound,
            position,
            "every run ends, but no limit on its memory is known, since this lengthens the hold space",
        )?));
    };
    let (code, message) = if limits.is_unbounded() {
        (
            Code::NoBound,
            "every run ends, but no limit on its steps is known, since this may lengthen the pattern space",
        )
    } else {
        (
            Code::NoSpaceBound,
            "every run ends, but no limit on its memory is known, since this may lengthen the pattern space",
        )
    };
    let mut found = note(alloc, code, position_of(positions, edge.from), message)?;
    found.steps.push(step(alloc, script, positions, edge)?)?;
    Ok(Some(found))
}

/// The position of the first `H`.
fn first_append(script: &Script, positions: &[Position]) -> Option<Position> {
    for (index, command) in script.commands().iter().enumerate() {
        if matches!(command.verb, Verb::HoldAppend) {
            return positions.get(index).copied();
        }
    }
    None
}

/// A note with these words.
fn note(
    alloc: Global,
    code: Code,
    position: Option<Position>,
    words: &'static str,
) -> Result<Finding, AllocError>
    ensures { IfOk result (λ finding. finding.level ≡ Note) }
{
    let mut finding = Finding::new(alloc, Level::Note, code, String::from_str(alloc, words)?);
    finding.position = position;
    Ok(finding)
}
