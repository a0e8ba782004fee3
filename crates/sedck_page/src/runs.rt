//! Straight runs of commands: those that one box shows.

use crate::arrows::Arrow;
use sedck_flow::Kind;
use std::alloc::{AllocError, Global};

/// The runs of a script.
#[derive(Drop)]
pub(crate) struct Runs {
    /// Of each command, and of the script's end, the first one of its run.
    heads: Vec<usize>,
    /// Of each command whether a step between it and its neighbours in the run is part of the loop.
    reds: Vec<bool>,
}

impl Runs {
    /// The first command of the run.
    pub(crate) fn head(&self, command: usize) -> usize {
        self.heads.get(command).copied().unwrap_or(command)
    }

    /// Whether the arrow leads from a command of a run to the next one.
    pub(crate) fn is_inside(&self, arrow: Arrow) -> bool {
        arrow.to == arrow.from.saturating_add(1) && self.head(arrow.to) != arrow.to
    }

    /// Whether the steps of the command's run are part of the loop.
    pub(crate) fn is_red(&self, command: usize) -> bool {
        self.reds.get(command).copied().unwrap_or(false)
    }
}

/// The runs of a script with so many commands, between which these arrows are: a command is in the run of the one before it where there is
/// one arrow from that one and one arrow to this one, which are the same, and keep the pattern space from getting longer in all states.
pub(crate) fn runs_of(alloc: Global, arrows: &[Arrow], count: usize) -> Result<Runs, AllocError> {
    let mut leaving = zeros(alloc, count)?;
    let mut reaching = zeros(alloc, count)?;
    for arrow in arrows {
        add_one(&mut leaving, arrow.from);
        add_one(&mut reaching, arrow.to);
    }
    let mut runs = Runs {
        heads: Vec::new(alloc),
        reds: Vec::new(alloc),
    };
    for place in 0..=count {
        runs.heads.push(place)?;
        runs.reds.push(false)?;
    }
    for arrow in arrows {
        let is_alone = leaving.get(arrow.from) == Some(&1) && reaching.get(arrow.to) == Some(&1);
        if is_alone && is_straight(*arrow) && arrow.to < count {
            join(&mut runs, *arrow);
        }
    }
    Ok(runs)
}

/// A zero for each command, and for the script's end.
fn zeros(alloc: Global, count: usize) -> Result<Vec<usize>, AllocError> {
    let mut zeros = Vec::new(alloc);
    for _ in 0..=count {
        zeros.push(0usize)?;
    }
    Ok(zeros)
}

/// Adds one to the number at this place.
fn add_one(counts: &mut [usize], place: usize) {
    if let Some(count) = counts.get_mut(place) {
        *count = count.saturating_add(1);
    }
}

/// Whether the arrow leads to the next command, and says nothing that must be shown.
fn is_straight(arrow: Arrow) -> bool {
    arrow.to == arrow.from.saturating_add(1)
        && arrow.kind == Kind::Keep
        && !arrow.with_flag
        && !arrow.on_last
}

/// Puts the arrow's second command into the run of its first one. The arrows come in the order of their first commands.
fn join(runs: &mut Runs, arrow: Arrow) {
    let head = runs.head(arrow.from);
    if let Some(place) = runs.heads.get_mut(arrow.to) {
        *place = head;
    }
    redden(&mut runs.reds, arrow.from, arrow.is_bold);
    redden(&mut runs.reds, arrow.to, arrow.is_bold);
}

/// Notes at the command whether a step beside it is part of the loop.
fn redden(reds: &mut [bool], command: usize, is_bold: bool) {
    if let Some(red) = reds.get_mut(command) {
        *red = *red || is_bold;
    }
}
