//! What is listed of findings, and of their steps.

use sedck_flow::{Kind, Node};
use sedck_report::{Finding, Level, Step};
use sedck_script::{Script, Verb};
use std::alloc::{AllocError, Global};

/// The most steps of a finding that are all listed where people read them.
const STEPS: usize = 20;

/// The most steps that matter of which all are listed: half of them from the front, and half from the end.
const MATTERING: usize = 24;

/// Whether the finding is listed where findings of at least this level are.
pub fn is_listed(finding: &Finding, least: Level) -> bool {
    match finding.level {
        Level::Error => true,
        Level::Warning => matches!(least, Level::Warning | Level::Note),
        Level::Note => matches!(least, Level::Note),
    }
}

/// Steps that follow one another.
#[derive(Clone, Copy)]
pub struct Stretch<'a> {
    /// How many steps before them aren't listed.
    pub left_out: usize,
    pub steps: &'a [Step],
}

/// The steps that are listed where people read them: all of up to twenty. Of more it is the first one, the last one and those that
/// matter, of which twelve from the front and twelve from the end are enough; a step that is alone between two of these is listed as well.
/// A step matters that sets, resets or tests the flag of `t`, reads a line, shortens the pattern space or may lengthen it, or leads to
/// another command than the next one, unless it skips a block.
pub fn listed_steps<'a>(
    alloc: Global,
    script: Option<&Script>,
    steps: &'a [Step],
) -> Result<Vec<Stretch<'a>>, AllocError> {
    let mut marks = Vec::new(alloc);
    for (index, step) in steps.iter().enumerate() {
        let next = steps.get(index.saturating_add(1));
        let is_marked = next.is_some_and(|next| matters(script, step, next.node));
        marks.push(is_marked || steps.len() <= STEPS)?;
    }
    if steps.len() > STEPS {
        thin(marks.as_mut_slice());
    }
    fill(marks.as_mut_slice());
    stretches(alloc, &marks, steps)
}

/// Whether the step to the next node says how a run gets on.
fn matters(script: Option<&Script>, step: &Step, next: Node) -> bool {
    let from = step.node;
    if from.flag != next.flag || !matches!(step.kind, Some(Kind::Keep)) {
        return true;
    }
    let at = usize::from(from.at);
    let leads_on = usize::from(next.at) == at.saturating_add(1);
    let command = script.and_then(|script| script.commands().get(at));
    match command.map(|command| &command.verb) {
        Some(Verb::Test(_)) => true,
        Some(Verb::Block(_)) => false,
        _ => !leads_on,
    }
}

/// Takes marks in the middle away, where there are more than 24.
fn thin(marks: &mut [bool]) {
    let count = marks.iter().filter(|mark| **mark).count();
    let front = MATTERING / 2;
    let end = count.saturating_sub(front);
    let mut seen = 0usize;
    for mark in marks.iter_mut() {
        if *mark {
            *mark = seen < front || seen >= end;
            seen = seen.saturating_add(1);
        }
    }
}

/// Marks the first step, the last one, and each that is alone between two marks: that it is left out would take as much room.
fn fill(marks: &mut [bool]) {
    if let Some(first) = marks.first_mut() {
        *first = true;
    }
    if let Some(last) = marks.last_mut() {
        *last = true;
    }
    for index in 1..marks.len() {
        if is_marked(marks, index.saturating_sub(1)) && is_marked(marks, index.saturating_add(1)) {
            if let Some(mark) = marks.get_mut(index) {
                *mark = true;
            }
        }
    }
}

/// Whether there is a mark with this index.
fn is_marked(marks: &[bool], index: usize) -> bool {
    marks.get(index).copied().unwrap_or(false)
}

/// The steps with marks, in stretches of which each but the first follows steps without marks.
fn stretches<'a>(
    alloc: Global,
    marks: &[bool],
    steps: &'a [Step],
) -> Result<Vec<Stretch<'a>>, AllocError> {
    let mut found = Vec::new(alloc);
    let mut left_out = 0usize;
    let mut start = 0usize;
    let mut end = 0usize;
    for (index, mark) in marks.iter().enumerate() {
        if *mark {
            if index > end {
                let steps = steps.get(start..end).unwrap_or(&[]);
                found.push(Stretch { left_out, steps })?;
                left_out = index.saturating_sub(end);
                start = index;
            }
            end = index.saturating_add(1);
        }
    }
    let steps = steps.get(start..end).unwrap_or(&[]);
    found.push(Stretch { left_out, steps })?;
    Ok(found)
}
