//! A finding in a page.

use crate::markup::{push_place, push_prose};
use sedck_formats::{
    Shown, Written, command_line, excerpt, length_of, level_word, listed_steps, page_of,
    page_words, push_left_out,
};
use sedck_report::{Finding, Step};
use std::alloc::AllocError;

/// The most characters of a line that are shown in a finding.
const LINE_WIDTH: usize = 160;

/// The most characters of a line that are shown beside a step.
const STEP_WIDTH: usize = 60;

/// Whether the finding is shown in full at the top of the page: an error, or what has no line.
pub(crate) fn is_at_top(finding: &Finding) -> bool {
    finding.is_error() || finding.position.is_none()
}

/// Adds the finding with this number: its level, place, message and code, its steps, its hint and its page.
pub(crate) fn push_box(
    out: &mut Written,
    shown: &Shown,
    finding: &Finding,
    number: usize,
) -> Result<(), AllocError> {
    push_level(out, shown, finding, number);
    push_message(out, finding);
    push_excerpt(out, shown, finding)?;
    if !finding.steps.is_empty() {
        push_steps(out, shown, &finding.steps)?;
    }
    if let Some(hint) = finding.hint {
        out.text("<p><strong>hint</strong>: ");
        push_prose(out, hint);
        out.text("</p>");
    }
    let page = page_words(out.alloc(), page_of(finding));
    out.text("<p><strong>see</strong>: <code>docs/")
        .html_words(page)
        .text("</code></p></div>\n");
    Ok(())
}

/// Adds the line of a finding at the top, with a mark on what is meant.
fn push_excerpt(out: &mut Written, shown: &Shown, finding: &Finding) -> Result<(), AllocError> {
    if let Some(position) = finding.position
        && is_at_top(finding)
    {
        let part = excerpt(out.alloc(), shown, position, length_of(finding), LINE_WIDTH)?;
        out.text("<p><code>").html(part.front.as_str());
        out.text("<mark>").html(part.meant.as_str());
        out.text("</mark>").html(part.back.as_str());
        out.text("</code></p>");
    }
    Ok(())
}

/// Adds what is beside the line of a finding that is shown at the top: its message, and a link to all of it.
pub(crate) fn push_mention(out: &mut Written, finding: &Finding, number: usize) {
    let level = level_word(finding.level);
    out.text("<p class=\"finding ").text(level);
    out.text("\"><a href=\"#F").number(number).text("\">");
    out.text(level).text("</a>");
    push_message(out, finding);
}

/// Begins the box, with the level, and the place where there is one.
fn push_level(out: &mut Written, shown: &Shown, finding: &Finding, number: usize) {
    let level = level_word(finding.level);
    out.text("<div class=\"finding ").text(level);
    out.text("\" id=\"F").number(number);
    out.text("\"><p><strong class=\"").text(level);
    out.text("\">").text(level).text("</strong>");
    if finding.position.is_some() {
        out.text(" at ");
        push_place(out, shown.names, finding.position);
    }
}

/// Adds the message and the code.
fn push_message(out: &mut Written, finding: &Finding) {
    out.text(": ");
    push_prose(out, finding.message.as_str());
    out.text(" <code class=\"soft\">[")
        .html(finding.code.name())
        .text("]</code></p>");
}

/// Adds the steps that are listed: the place of each, its command's line if it has one, and what it does. The numbers of a list go on
/// after what is left out.
fn push_steps(out: &mut Written, shown: &Shown, steps: &[Step]) -> Result<(), AllocError> {
    let stretches = listed_steps(out.alloc(), shown.script, steps)?;
    let mut number = 1usize;
    for stretch in &stretches {
        if stretch.left_out > 0 {
            out.text("<p class=\"soft\">... ");
            push_left_out(out, stretch.left_out);
            out.text("</p>");
        }
        number = number.saturating_add(stretch.left_out);
        out.text("<ol start=\"").number(number).text("\">");
        for step in stretch.steps {
            push_step(out, shown, step);
        }
        out.text("</ol>");
        number = number.saturating_add(stretch.steps.len());
    }
    Ok(())
}

/// Adds a step.
fn push_step(out: &mut Written, shown: &Shown, step: &Step) {
    out.text("<li>");
    push_place(out, shown.names, step.position);
    out.text(" ");
    if step.position.is_some() {
        let line = command_line(out.alloc(), shown, step.node.at, STEP_WIDTH);
        out.text("<code>").html_words(line).text("</code> ");
    }
    push_prose(out, step.message.as_str());
    out.text("</li>");
}
