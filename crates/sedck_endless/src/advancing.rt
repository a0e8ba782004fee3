//! One step of a run, as GNU sed takes it.

use crate::held::Held;
use crate::matching::anchors_of;
use crate::replacing::substituted;
use crate::selecting::is_selected;
use memchr::memchr;
use sedck_model::{Budget, Event, Undecided};
use sedck_script::{Command, Pattern, Script, Substitution, Verb};

/// The state after this one; nothing where the run ends, or where what sed does isn't known here.
pub(crate) fn advanced<'a>(
    script: &Script<'a>,
    lines: &[&[u8]],
    held: &Held<'a>,
    budget: &mut Budget,
) -> Result<Option<Held<'a>>, Undecided> {
    let mut next = held.copied(budget.alloc)?;
    let Some(command) = script.commands().get(held.at) else {
        return Ok(next_cycle(next, lines, budget)?);
    };
    let Some(selected) = is_selected(command, held, lines.len(), budget)? else {
        return Ok(None);
    };
    if selected == command.negated {
        next.at = match command.verb {
            Verb::Block(after) => after,
            _ => held.at.saturating_add(1),
        };
        return Ok(Some(next));
    }
    next.at = held.at.saturating_add(1);
    applied(command, held, next, lines, budget)
}

/// The next line is read, if there is one, and begins a cycle.
fn next_cycle<'a>(
    held: Held<'a>,
    lines: &[&[u8]],
    budget: &mut Budget,
) -> Result<Option<Held<'a>>, Undecided> {
    let mut next = held;
    let Some(line) = lines.get(next.read) else {
        return Ok(None);
    };
    next.pattern = Vec::from_slice(budget.alloc, line)?;
    next.read = next.read.saturating_add(1);
    next.at = 0;
    next.flag = false;
    Ok(Some(next))
}

/// The state after a command that is applied, made of the one before, but for the place, which is already that of the next command.
fn applied<'a>(
    command: &Command<'a>,
    before: &Held,
    same: Held<'a>,
    lines: &[&[u8]],
    budget: &mut Budget,
) -> Result<Option<Held<'a>>, Undecided> {
    let mut next = same;
    match &command.verb {
        Verb::Delete | Verb::Change(_) => return next_cycle(next, lines, budget),
        Verb::Quit => return Ok(None),
        Verb::Next | Verb::NextAppend => {
            let is_added = matches!(command.verb, Verb::NextAppend);
            return next_line(next, is_added, lines, budget);
        }
        Verb::DeleteFirstLine => return first_line_deleted(next, lines, budget),
        Verb::Substitute(substitution) => return after_substitution(substitution, next, budget),
        Verb::Branch(target) => next.at = *target,
        Verb::Test(target) => if next.flag {
            next.flag = false;
            next.at = *target;
        },
        Verb::Read(name) => next.event = Event::Reads(*name),
        Verb::Write(name) => next.event = Event::Writes(*name),
        Verb::Transliterate(from, to) => transliterate(&mut next.pattern, from, to),
        Verb::Get => next.pattern = Vec::from_slice(budget.alloc, &before.hold)?,
        Verb::GetAppend => append(&mut next.pattern, &before.hold)?,
        Verb::Hold => next.hold = Vec::from_slice(budget.alloc, &before.pattern)?,
        Verb::HoldAppend => append(&mut next.hold, &before.pattern)?,
        Verb::Exchange => {
            next.pattern = Vec::from_slice(budget.alloc, &before.hold)?;
            next.hold = Vec::from_slice(budget.alloc, &before.pattern)?;
        }
        _ => {}
    }
    Ok(Some(next))
}

/// Adds a newline and the text.
fn append(front: &mut Vec<u8>, back: &[u8]) -> Result<(), Undecided> {
    front.push(b'\n')?;
    front.extend_from_slice(back)?;
    Ok(())
}

/// After `n` and `N`, which end the run where no line is left.
fn next_line<'a>(
    held: Held<'a>,
    is_added: bool,
    lines: &[&[u8]],
    budget: &mut Budget,
) -> Result<Option<Held<'a>>, Undecided> {
    let mut next = held;
    let Some(line) = lines.get(next.read) else {
        return Ok(None);
    };
    if is_added {
        append(&mut next.pattern, line)?;
    } else {
        next.pattern = Vec::from_slice(budget.alloc, line)?;
    }
    next.read = next.read.saturating_add(1);
    Ok(Some(next))
}

/// After `D`.
fn first_line_deleted<'a>(
    held: Held<'a>,
    lines: &[&[u8]],
    budget: &mut Budget,
) -> Result<Option<Held<'a>>, Undecided> {
    let mut next = held;
    let Some(end) = memchr(b'\n', &next.pattern) else {
        return next_cycle(next, lines, budget);
    };
    let rest = next.pattern.get(end.saturating_add(1)..).unwrap_or(b"");
    next.pattern = Vec::from_slice(budget.alloc, rest)?;
    next.at = 0;
    Ok(Some(next))
}

/// After `s`.
fn after_substitution<'a>(
    substitution: &Substitution<'a>,
    held: Held<'a>,
    budget: &mut Budget,
) -> Result<Option<Held<'a>>, Undecided> {
    let mut next = held;
    let Pattern::Expr(expression) = &substitution.pattern else {
        return Ok(None);
    };
    let Some(anchors) = anchors_of(expression.body()) else {
        return Ok(None);
    };
    if let Some(new) = substituted(
        substitution,
        expression.body(),
        anchors,
        &next.pattern,
        budget,
    )? {
        next.pattern = new;
        next.flag = true;
        if let Some(name) = substitution.file {
            next.event = Event::Writes(name);
        }
    }
    Ok(Some(next))
}

/// Each byte that the first list has becomes the one at its place in the second.
fn transliterate(text: &mut Vec<u8>, from: &[u8], to: &[u8]) {
    for byte in text.iter_mut() {
        for (old, new) in from.iter().zip(to) {
            if old == byte {
                *byte = *new;
                break;
            }
        }
    }
}
