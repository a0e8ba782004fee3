//! Which jump is drawn where beside the lines.

use crate::arrows::Arrow;
use sedck_flow::Kind;
use std::alloc::{AllocError, Global};

/// The most jumps that are drawn beside one line.
const LANES: usize = 12;

/// Arrows that share no line, from the first line on.
#[derive(Drop)]
pub(crate) struct Lane {
    jumps: Vec<Arrow>,
}

impl Lane {
    /// Where the jump belongs among those that are here, if it shares no line with them.
    fn room_for(&self, jump: Arrow) -> Option<usize> {
        let above = self
            .jumps
            .partition_point(|other| other.bottom() < jump.top());
        match self.jumps.get(above) {
            Some(next) if next.top() <= jump.bottom() => None,
            _ => Some(above),
        }
    }

    /// Whether one of the jumps has this kind.
    fn has(&self, kind: Kind) -> bool {
        self.jumps.iter().any(|jump| jump.kind == kind)
    }

    /// The jump that begins, ends or passes at the line.
    pub(crate) fn at(&self, line: usize) -> Option<Arrow> {
        let above = self.jumps.partition_point(|jump| jump.bottom() < line);
        let jump = self.jumps.get(above).copied()?;
        (jump.top() <= line).then_some(jump)
    }
}

/// Arrows in lanes, of which the first one is next to the lines, and how many found no room.
#[derive(Drop)]
pub(crate) struct Drawing {
    pub lanes: Vec<Lane>,
    pub left_out: usize,
}

impl Drawing {
    /// Whether one of the jumps has this kind.
    pub(crate) fn has(&self, kind: Kind) -> bool {
        self.lanes.iter().any(|lane| lane.has(kind))
    }
}

/// Gives each jump a lane while there is room: those of the loop first, then the shorter ones.
pub(crate) fn drawing_of(alloc: Global, mut jumps: Vec<Arrow>) -> Result<Drawing, AllocError> {
    jumps.sort_by_key(|jump| (!jump.is_bold, jump.span()))?;
    let mut drawing = Drawing {
        lanes: Vec::new(alloc),
        left_out: 0,
    };
    for jump in &jumps {
        add_jump(alloc, &mut drawing, *jump)?;
    }
    Ok(drawing)
}

/// Adds the jump to the first lane that has room for it, or to a new one.
fn add_jump(alloc: Global, drawing: &mut Drawing, jump: Arrow) -> Result<(), AllocError> {
    for lane in &mut drawing.lanes {
        if let Some(place) = lane.room_for(jump) {
            lane.jumps.insert(place.min(lane.jumps.len()), jump)?;
            return Ok(());
        }
    }
    if drawing.lanes.len() >= LANES {
        drawing.left_out = drawing.left_out.saturating_add(1);
        return Ok(());
    }
    let mut jumps = Vec::new(alloc);
    jumps.push(jump)?;
    drawing.lanes.push(Lane { jumps })?;
    Ok(())
}
