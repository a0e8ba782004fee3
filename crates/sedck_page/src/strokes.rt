//! The strokes of jumps beside a line, as SVG. Lengths are in pixels of CSS, which a browser's zoom scales.

use crate::arrows::Arrow;
use crate::lanes::Drawing;
use sedck_formats::Written;

/// How far lanes are apart.
const STEP: usize = 8;

/// How much room the arrows take between the lanes and the lines.
const ARROWS: usize = 16;

/// How wide the drawing is.
pub(crate) fn drawing_width(drawing: &Drawing) -> usize {
    match drawing.lanes.len() {
        0 => 0,
        lanes => lanes.saturating_mul(STEP).saturating_add(ARROWS),
    }
}

/// Adds what is drawn beside the line.
pub(crate) fn push_strokes(out: &mut Written, drawing: &Drawing, line: usize) {
    let width = drawing_width(drawing);
    let mut is_empty = true;
    for (index, lane) in drawing.lanes.iter().enumerate().rev() {
        if let Some(jump) = lane.at(line) {
            out.text(if is_empty { OPENING } else { "" });
            is_empty = false;
            push_jump(out, jump, line, Lengths::of(width, index));
        }
    }
    out.text(if is_empty { "" } else { "</svg>" });
}

/// What precedes the strokes beside a line.
const OPENING: &str = "<svg class=\"jumps\" aria-hidden=\"true\">";

/// Where the strokes of a jump begin, turn and end, from the left.
#[derive(Clone, Copy)]
struct Lengths {
    /// Of the whole drawing.
    width: usize,
    /// Where the stroke past a line is.
    x: usize,
}

impl Lengths {
    /// Those in the lane with this number, from the lines.
    fn of(width: usize, lane: usize) -> Lengths {
        let x = width
            .saturating_sub(ARROWS)
            .saturating_sub(lane.saturating_mul(STEP));
        Lengths { width, x }
    }

    /// The length that a letter of a shape stands for.
    fn named(self, letter: u8) -> Option<usize> {
        match letter {
            b'W' => Some(self.width),
            b'E' => Some(self.width.saturating_sub(5)),
            b'X' => Some(self.x),
            b'N' => Some(self.x.saturating_add(6)),
            _ => None,
        }
    }
}

/// Adds what is drawn of one jump beside the line.
fn push_jump(out: &mut Written, jump: Arrow, line: usize, lengths: Lengths) {
    let kind = jump.kind;
    let bold = if jump.is_bold { " bold" } else { "" };
    out.words(format!(in out.alloc(); "<g class=\"{kind}{bold}\">"));
    push_shape(out, shape(jump, line), lengths);
    if line == jump.to {
        push_shape(out, "<path class=\"head\" d=\"MW 8l-7-4v8z\"/>", lengths);
    }
    out.text("</g>");
}

/// The strokes: one past the line, a turn to the line or from it, or a turn back to the same line. Jumps leave a line below its
/// middle and reach it above. A capital letter stands for a length: W, E, X or N.
fn shape(jump: Arrow, line: usize) -> &'static str {
    let leaves = line == jump.from;
    if leaves && line == jump.to {
        "<path d=\"MW 16HNQX 16 X 12QX 8 N 8HE\"/>"
    } else if leaves && line == jump.top() {
        "<path d=\"MW 16HNQX 16 X 22\"/><line x1=\"X\" x2=\"X\" y1=\"22\" y2=\"100%\"/>"
    } else if line == jump.top() {
        "<path d=\"ME 8HNQX 8 X 14\"/><line x1=\"X\" x2=\"X\" y1=\"14\" y2=\"100%\"/>"
    } else if leaves && line == jump.bottom() {
        "<path d=\"MW 16HNQX 16 X 10V0\"/>"
    } else if line == jump.bottom() {
        "<path d=\"MX 0V2QX 8 N 8HE\"/>"
    } else {
        "<line x1=\"X\" x2=\"X\" y1=\"0\" y2=\"100%\"/>"
    }
}

/// Adds the shape, with its lengths in place of the letters.
fn push_shape(out: &mut Written, shape: &str, lengths: Lengths) {
    for letter in shape.as_bytes() {
        match lengths.named(*letter) {
            Some(length) => out.number(length),
            None => out.byte(*letter),
        };
    }
}
