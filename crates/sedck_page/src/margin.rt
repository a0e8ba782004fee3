//! What is beside the lines of a script in a page: jumps, findings, and marks of a loop.

use crate::arrows::{Arrow, line_of};
use crate::lanes::{Drawing, drawing_of};
use sedck_answer::{Answer, Explanation};
use sedck_formats::{is_listed, length_of};
use sedck_report::Level;
use std::alloc::{AllocError, Global};

/// How many lines apart the ends of a jump back are at least, where it has a label.
const LONG: usize = 20;

/// A finding's place in the lines.
#[derive(Clone, Copy)]
pub(crate) struct Spot {
    pub line: usize,
    pub column: usize,
    /// How many bytes it is about.
    pub length: usize,
    /// Its number among the findings, from 0.
    pub finding: usize,
}

/// What is beside the lines.
#[derive(Drop)]
pub(crate) struct Margin {
    pub drawing: Drawing,
    /// Sorted by line and column.
    spots: Vec<Spot>,
    /// The jumps back over many lines, each pair of lines once, in order.
    returns: Vec<Arrow>,
    of_loop: Vec<usize>,
}

impl Margin {
    /// The findings at the line, by column.
    pub(crate) fn spots(&self, line: usize) -> &[Spot] {
        let start = self.spots.partition_point(|spot| spot.line < line);
        let end = self.spots.partition_point(|spot| spot.line <= line);
        self.spots.get(start..end).unwrap_or(&[])
    }

    /// The long jumps back that leave the line.
    pub(crate) fn returns(&self, line: usize) -> &[Arrow] {
        let start = self.returns.partition_point(|jump| jump.from < line);
        let end = self.returns.partition_point(|jump| jump.from <= line);
        self.returns.get(start..end).unwrap_or(&[])
    }

    /// Whether there is a loop.
    pub(crate) fn has_loop(&self) -> bool {
        !self.of_loop.is_empty()
    }

    /// Whether the line has a command of the loop.
    pub(crate) fn is_of_loop(&self, line: usize) -> bool {
        self.of_loop.binary_search(&line).is_ok()
    }
}

/// What is beside the lines, between which these jumps are; `end` is the line of the script's end.
pub(crate) fn margin_of(
    alloc: Global,
    explanation: &Explanation,
    least: Level,
    jumps: Vec<Arrow>,
    end: usize,
) -> Result<Margin, AllocError> {
    Ok(Margin {
        returns: long_returns(alloc, &jumps)?,
        drawing: drawing_of(alloc, jumps)?,
        spots: spots_of(alloc, explanation, least)?,
        of_loop: loop_lines(alloc, explanation, end)?,
    })
}

/// The jumps back over many lines, each pair of lines once, in order.
fn long_returns(alloc: Global, jumps: &[Arrow]) -> Result<Vec<Arrow>, AllocError> {
    let mut returns: Vec<Arrow> = Vec::new(alloc);
    for jump in jumps {
        let is_new = returns
            .last()
            .is_none_or(|before| before.from != jump.from || before.to != jump.to);
        if jump.to < jump.from && jump.span() >= LONG && is_new {
            returns.push(*jump)?;
        }
    }
    Ok(returns)
}

/// The places of the findings of at least this level that have one, sorted.
fn spots_of(
    alloc: Global,
    explanation: &Explanation,
    least: Level,
) -> Result<Vec<Spot>, AllocError> {
    let mut spots = Vec::new(alloc);
    for (index, finding) in explanation.findings.iter().enumerate() {
        if is_listed(finding, least)
            && let Some(position) = finding.position
        {
            spots.push(Spot {
                line: position.line,
                column: position.column,
                // A note may be on all that follows on its line.
                length: if finding.level == Level::Note {
                    1
                } else {
                    length_of(finding)
                },
                finding: index,
            })?;
        }
    }
    spots.sort_by_key(|spot| (spot.line, spot.column))?;
    Ok(spots)
}

/// The lines of the loop's commands, sorted.
fn loop_lines(
    alloc: Global,
    explanation: &Explanation,
    end: usize,
) -> Result<Vec<usize>, AllocError> {
    let mut lines = Vec::new(alloc);
    if let Answer::Endless(walk) = &explanation.answer {
        for node in &walk.nodes {
            lines.push(line_of(&explanation.positions, end, usize::from(node.at)))?;
        }
    }
    lines.sort()?;
    Ok(lines)
}
