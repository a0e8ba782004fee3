//! The lines of a script in a page, with jumps and findings beside them.

use crate::arrows::{Arrow, line_jumps};
use crate::boxes::{is_at_top, push_box, push_mention};
use crate::margin::{Margin, Spot, margin_of};
use crate::strokes::{drawing_width, push_strokes};
use sedck_answer::Explanation;
use sedck_flow::Kind;
use sedck_formats::{Letters, Shown, Written, line_in, mark_len};
use sedck_report::{Finding, Level};
use std::alloc::AllocError;

/// What the kinds of jumps mean.
static KINDS: &'static [(Kind, &'static str)] = &[
    (Kind::Consume, "consume: a line is read"),
    (Kind::Shorten, "shorten: the pattern space gets shorter"),
    (
        Kind::Keep,
        "keep: the pattern space doesn&rsquo;t get longer",
    ),
    (Kind::Grow, "grow: the pattern space may get longer"),
];

/// Adds the script's lines with what is beside them, and its end.
pub(crate) fn push_listing(
    out: &mut Written,
    shown: &Shown,
    explanation: &Explanation,
    least: Level,
    jumps: &[Arrow],
) -> Result<(), AllocError> {
    let alloc = out.alloc();
    let text = shown.text.strip_suffix(b"\n").unwrap_or(shown.text);
    let newlines = text.iter().filter(|byte| **byte == b'\n').count();
    let end = newlines.saturating_add(2);
    let lines = line_jumps(alloc, jumps, &explanation.positions, end)?;
    let margin = margin_of(alloc, explanation, least, lines, end)?;
    push_legend(out, &margin);
    let mut line = 1usize;
    for bytes in text.split(|byte| *byte == b'\n') {
        push_start(out, &margin, line);
        push_line(out, shown.letters, line, bytes, margin.spots(line));
        push_rest(out, shown, &explanation.findings, &margin, line)?;
        line = line.saturating_add(1);
    }
    push_start(out, &margin, end);
    out.text("<a class=\"number\" id=\"end\" href=\"#end\">end</a>");
    push_rest(out, shown, &explanation.findings, &margin, end)?;
    out.text("</ol>\n");
    Ok(())
}

/// Adds the heading, the legend unless there are no jumps, and the start of the list.
fn push_legend(out: &mut Written, margin: &Margin) {
    out.text("<h2 id=\"script\">Script</h2>\n");
    if !margin.drawing.lanes.is_empty() {
        out.text("<ul class=\"legend\">\n");
        for (kind, words) in KINDS {
            if margin.drawing.has(*kind) {
                push_entry(out, *kind, "", words);
            }
        }
        if margin.has_loop() {
            push_entry(out, Kind::Keep, " bold", "red: part of the loop");
        }
        out.text("</ul>\n");
    }
    if margin.drawing.left_out > 0 {
        out.text("<p>").counted(
            margin.drawing.left_out,
            " jump isn't drawn for lack of space; the list of jumps has it.</p>\n",
            " jumps aren't drawn for lack of space; the list of jumps has them.</p>\n",
        );
    }
    out.text("<ol class=\"script\" style=\"--jumps:")
        .number(drawing_width(&margin.drawing))
        .text("px\">\n");
}

/// Adds what a line of this look means.
fn push_entry(out: &mut Written, kind: Kind, bold: &str, words: &str) {
    out.words(format!(in out.alloc(); "<li><svg aria-hidden=\"true\"><g class=\"{kind}{bold}\">"));
    out.text("<line x1=\"0\" x2=\"48\" y1=\"6\" y2=\"6\"/></g></svg>\n");
    out.text(words).text("</li>\n");
}

/// Begins a line, with the strokes beside it.
fn push_start(out: &mut Written, margin: &Margin, line: usize) {
    let class = if margin.is_of_loop(line) {
        "\" class=\"loop\">"
    } else {
        "\">"
    };
    out.text("<li id=\"L").number(line).text(class);
    push_strokes(out, &margin.drawing, line);
}

/// Adds the number and the bytes of a line.
fn push_line(out: &mut Written, letters: Letters, line: usize, bytes: &[u8], spots: &[Spot]) {
    out.text("<a class=\"number\" href=\"#L").number(line);
    out.text("\">").number(line).text("</a>");
    if bytes.is_empty() && spots.is_empty() {
        return;
    }
    out.text("<code>");
    push_code(out, letters, bytes, spots);
    out.text("</code>");
}

/// Adds what follows the bytes of a line: marks, links, and the findings at the line.
fn push_rest(
    out: &mut Written,
    shown: &Shown,
    findings: &[Finding],
    margin: &Margin,
    line: usize,
) -> Result<(), AllocError> {
    if margin.is_of_loop(line) {
        out.text("<span class=\"tag\">loop</span>");
    }
    // A long jump back has a link, since its other end may be out of sight.
    for jump in margin.returns(line) {
        out.text("<a class=\"tag soft\" href=\"#L").number(jump.to);
        out.text("\">&uarr; ").number(jump.to).text("</a>");
    }
    for spot in margin.spots(line) {
        if let Some(finding) = findings.get(spot.finding) {
            if is_at_top(finding) {
                push_mention(out, finding, spot.finding);
            } else {
                push_box(out, shown, finding, spot.finding)?;
            }
        }
    }
    out.text("</li>\n");
    Ok(())
}

/// Adds the bytes of a line, with a mark on those that a finding is about.
fn push_code(out: &mut Written, letters: Letters, bytes: &[u8], spots: &[Spot]) {
    let mut start = 0usize;
    for spot in spots {
        let at = spot.column.saturating_sub(1);
        if at >= start {
            push_bytes(out, letters, bytes.get(start..at.min(bytes.len())));
            start = at.saturating_add(push_mark(out, letters, bytes.get(at..), spot.length));
        }
    }
    push_bytes(out, letters, bytes.get(start..));
}

/// Adds so many of the bytes with a mark, and at least the first one or its whole character, or a blank where there is none; how many
/// bytes that are.
fn push_mark(out: &mut Written, letters: Letters, rest: Option<&[u8]>, length: usize) -> usize {
    let rest = rest.unwrap_or(&[]);
    let length = mark_len(letters, rest, length);
    out.text("<mark>");
    push_bytes(out, letters, Some(rest.get(..length).unwrap_or(b" ")));
    out.text("</mark>");
    length
}

/// Adds bytes of a line as they are shown.
fn push_bytes(out: &mut Written, letters: Letters, bytes: Option<&[u8]>) {
    if let Some(bytes) = bytes {
        let words = line_in(out.alloc(), letters, bytes);
        out.html_words(words);
    }
}
