//! Arrows: the edges of a flow graph, put together where they have the same ends and the same kind.

use crate::flow::{Flow, flow_of};
use sedck_answer::Explanation;
use sedck_flow::{Edge, Kind};
use sedck_report::Position;
use std::alloc::{AllocError, Global};

/// All edges of one kind from one command to another, or from one line to another. A number one above the last one stands for the
/// script's end.
#[derive(Clone, Copy)]
pub(crate) struct Arrow {
    pub from: usize,
    pub to: usize,
    pub kind: Kind,
    /// Each of them leaves a node with the flag that `t` tests.
    pub with_flag: bool,
    /// Each of them leaves a node where no line is left to read.
    pub on_last: bool,
    /// One of them belongs to the loop that was found.
    pub is_bold: bool,
}

impl Arrow {
    /// The edge alone. The edges of the loop are sorted.
    fn of(edge: Edge, bold: &[Edge]) -> Arrow {
        Arrow {
            from: usize::from(edge.from.at),
            to: usize::from(edge.to.at),
            kind: edge.kind,
            with_flag: edge.from.flag,
            on_last: edge.from.last,
            is_bold: bold.binary_search(&edge).is_ok(),
        }
    }

    /// The first of its two ends.
    pub(crate) fn top(self) -> usize {
        self.from.min(self.to)
    }

    /// The last of its two ends.
    pub(crate) fn bottom(self) -> usize {
        self.from.max(self.to)
    }

    /// How far its ends are apart.
    pub(crate) fn span(self) -> usize {
        self.from.abs_diff(self.to)
    }

    /// Whether it has the ends and the kind of the other one.
    fn is_like(self, other: Arrow) -> bool {
        self.from == other.from && self.to == other.to && self.kind == other.kind
    }

    /// The edges of both.
    fn with(self, other: Arrow) -> Arrow {
        Arrow {
            with_flag: self.with_flag && other.with_flag,
            on_last: self.on_last && other.on_last,
            is_bold: self.is_bold || other.is_bold,
            ..self
        }
    }
}

/// The arrows between commands, in order.
pub(crate) fn arrows_of(alloc: Global, flow: &Flow) -> Result<Vec<Arrow>, AllocError> {
    let mut arrows = Vec::new(alloc);
    for edge in &flow.edges {
        arrows.push(Arrow::of(*edge, &flow.bold))?;
    }
    merged(alloc, arrows)
}

/// The jumps of a script, in order: the arrows that don't lead to the next command. There are none where the script is refused.
pub(crate) fn jumps_of(alloc: Global, explanation: &Explanation) -> Result<Vec<Arrow>, AllocError> {
    let mut arrows = arrows_of(alloc, &flow_of(alloc, explanation)?)?;
    arrows.retain(|arrow| arrow.to != arrow.from.saturating_add(1));
    Ok(arrows)
}

/// The jumps between the lines of the commands, each pair and kind once, in order, and of those within a line the ones of the loop. `end`
/// is the line of the script's end.
pub(crate) fn line_jumps(
    alloc: Global,
    jumps: &[Arrow],
    positions: &[Position],
    end: usize,
) -> Result<Vec<Arrow>, AllocError> {
    let mut lines = Vec::new(alloc);
    for jump in jumps {
        lines.push(Arrow {
            from: line_of(positions, end, jump.from),
            to: line_of(positions, end, jump.to),
            ..*jump
        })?;
    }
    lines.retain(|jump| jump.from != jump.to || jump.is_bold);
    merged(alloc, lines)
}

/// The line of the command, or of the script's end.
pub(crate) fn line_of(positions: &[Position], end: usize, command: usize) -> usize {
    positions.get(command).map_or(end, |position| position.line)
}

/// The arrows in order, each pair and kind once.
fn merged(alloc: Global, mut arrows: Vec<Arrow>) -> Result<Vec<Arrow>, AllocError> {
    arrows.sort_by_key(|arrow| (arrow.from, arrow.to, arrow.kind))?;
    let mut out: Vec<Arrow> = Vec::new(alloc);
    for arrow in &arrows {
        match out.last_mut() {
            Some(before) if before.is_like(*arrow) => *before = before.with(*arrow),
            _ => out.push(*arrow)?,
        }
    }
    Ok(out)
}
