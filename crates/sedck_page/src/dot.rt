//! The flow graph for Graphviz, with a box for each straight run of commands.

use crate::arrows::{Arrow, arrows_of};
use crate::flow::flow_of;
use crate::runs::{Runs, runs_of};
use sedck_answer::Explanation;
use sedck_flow::{Kind, Node};
use sedck_formats::{
    Letters, Names, Shown, Written, answer_word, command_line, commands_of, excerpt, length_of,
    place_words, shown_of,
};
use sedck_report::{Finding, Position};
use std::alloc::{AllocError, Global};

/// The most characters of a line that are shown in a box.
const BOX_WIDTH: usize = 40;

/// About how many characters a line of a refusal has.
const REFUSAL_WIDTH: usize = 60;

/// What precedes the boxes, after the graph's title.
const HEAD: &str = "\", labelloc=t, fontname=\"monospace\"];
  node [shape=box, fontname=\"monospace\"];
  edge [fontname=\"monospace\", fontsize=10];
";

/// What the words at arrows mean.
static KINDS: &'static [(Kind, &'static str)] = &[
    (Kind::Consume, "consume: a line is read\\l"),
    (Kind::Shorten, "shorten: the pattern space gets shorter\\l"),
    (Kind::Keep, "keep: the pattern space doesn't get longer\\l"),
    (Kind::Grow, "grow: the pattern space may get longer\\l"),
];

/// The commands that a run may reach, and the steps between them. A box has the places of commands and their lines: of those that follow
/// one another with no other step to them or from them, and keep the pattern space from getting longer. Kinds of steps differ in their
/// label and line; the label has `[t]` where the step is taken with the flag that `t` tests alone, and `[$]` where it is taken on the last
/// line alone. A loop is red and bold. Of a script that is refused or not judged the graph has one box, which says where and why.
pub fn dot_report(
    alloc: Global,
    names: Names,
    explanation: &Explanation,
) -> Result<Vec<u8>, AllocError> {
    let flow = flow_of(alloc, explanation)?;
    let arrows = arrows_of(alloc, &flow)?;
    let runs = runs_of(alloc, &arrows, explanation.positions.len())?;
    let commands = commands_of(alloc, explanation)?;
    let shown = shown_of(names, explanation, &commands, Letters::Ascii);
    let mut out = Written::new(alloc);
    push_head(&mut out, names, explanation);
    if explanation.script.is_some() {
        push_legend(&mut out, &arrows, &runs);
        out.text("  start [shape=point];\n  start -> n0;\n");
        push_boxes(&mut out, &shown, &flow.nodes, &runs);
    } else {
        push_refusal(&mut out, &shown, &explanation.findings);
    }
    for arrow in &arrows {
        if !runs.is_inside(*arrow) {
            push_arrow(&mut out, *arrow, &runs);
        }
    }
    out.text("}\n");
    out.finished()
}

/// Adds the boxes of the commands of the nodes, which are in order.
fn push_boxes(out: &mut Written, shown: &Shown, nodes: &[Node], runs: &Runs) {
    let mut before = None;
    let mut ending = "";
    for node in nodes {
        let at = usize::from(node.at);
        if before != Some(at) {
            if runs.head(at) == at {
                out.text(ending).text("  n").number(at).text(" [label=\"");
            }
            ending = push_command(out, shown, node.at, runs);
        }
        before = Some(at);
    }
    out.text(ending);
}

/// Adds what precedes the boxes, with the title.
fn push_head(out: &mut Written, names: Names, explanation: &Explanation) {
    out.text("digraph sedck {\n  graph [label=\"");
    push_escaped(out, names.whole());
    out.text(": ").text(answer_word(explanation)).text(HEAD);
}

/// Adds a box that says what the words at arrows and the colour of a loop mean, as far as they are there.
fn push_legend(out: &mut Written, arrows: &[Arrow], runs: &Runs) {
    out.text("  legend [shape=note, fontsize=10, label=\"");
    for (kind, words) in KINDS {
        let is_there = arrows
            .iter()
            .any(|arrow| arrow.kind == *kind && !runs.is_inside(*arrow));
        push_where(out, is_there, words);
    }
    let is_inside = arrows.iter().any(|arrow| runs.is_inside(*arrow));
    let with_flag = arrows.iter().any(|arrow| arrow.with_flag);
    let on_last = arrows.iter().any(|arrow| arrow.on_last);
    let is_bold = arrows.iter().any(|arrow| arrow.is_bold);
    push_where(out, is_inside, "in a box: keep from line to line\\l");
    push_where(out, with_flag, "[t]: where the flag of t is set\\l");
    push_where(out, on_last, "[$]: where the last line was read\\l");
    push_where(out, is_bold, "red: the loop\\l");
    out.text("\"];\n");
}

/// Adds the words where that is so.
fn push_where(out: &mut Written, is_so: bool, words: &str) {
    if is_so {
        out.text(words);
    }
}

/// Adds the place of the command with this number and its line to a box; what ends the box. Without such a command it is an oval for the
/// script's end.
fn push_command(out: &mut Written, shown: &Shown, command: u16, runs: &Runs) -> &'static str {
    let at = usize::from(command);
    let position = shown.positions.get(at).copied();
    push_escaped_words(out, place_words(out.alloc(), shown.names, position));
    if position.is_none() {
        out.text("\\nnext cycle, or the run ends");
        return "\", shape=oval];\n";
    }
    out.text("  ");
    let line = command_line(out.alloc(), shown, command, BOX_WIDTH);
    push_escaped_words(out, line);
    out.text("\\l");
    if runs.is_red(at) { LOOP_BOX } else { "\"];\n" }
}

/// What ends a box of which each step is part of the loop.
const LOOP_BOX: &str = "\", color=\"#c81e1e\", penwidth=3];\n";

/// Adds a box that says where and why the script is refused or not judged, and what to write instead.
fn push_refusal(out: &mut Written, shown: &Shown, findings: &[Finding]) {
    out.text("  refused [label=\"");
    if let Some(finding) = findings.first() {
        if let Some(position) = finding.position {
            push_escaped_words(out, place_words(out.alloc(), shown.names, Some(position)));
            out.text("\\l");
            push_excerpt(out, shown, position, length_of(finding));
        }
        push_wrapped(out, "", finding.message.as_str());
        out.text("[").text(finding.code.name()).text("]\\l");
        if let Some(hint) = finding.hint {
            push_wrapped(out, "hint: ", hint);
        }
    }
    out.text("\"];\n");
}

/// Adds a part of a line around what is meant.
fn push_excerpt(out: &mut Written, shown: &Shown, position: Position, length: usize) {
    match excerpt(out.alloc(), shown, position, length, BOX_WIDTH) {
        Ok(part) => {
            push_escaped(out, part.front.as_str());
            push_escaped(out, part.meant.as_str());
            push_escaped(out, part.back.as_str());
        }
        Err(error) => {
            out.words(Err(error));
        }
    }
    out.text("\\l");
}

/// Adds the words after these at the front, in lines that are at the left.
fn push_wrapped(out: &mut Written, front: &str, words: &str) {
    out.text(front);
    let mut width = front.len();
    let mut is_first = true;
    for word in words.split(' ') {
        if width >= REFUSAL_WIDTH {
            out.text("\\l");
            width = 0;
            is_first = true;
        }
        out.text(if is_first { "" } else { " " });
        push_escaped(out, word);
        width = width.saturating_add(word.len()).saturating_add(1);
        is_first = false;
    }
    out.text("\\l");
}

/// Adds the step: its ends, its label and its look. A loop alone is red, and bold.
fn push_arrow(out: &mut Written, arrow: Arrow, runs: &Runs) {
    let kind = arrow.kind;
    let flag = if arrow.with_flag { " [t]" } else { "" };
    let last = if arrow.on_last { " [$]" } else { "" };
    out.text("  n").number(runs.head(arrow.from));
    out.text(" -> n").number(runs.head(arrow.to));
    out.words(format!(in out.alloc(); " [label=\"{kind}{flag}{last}\", "));
    out.text(style(kind, arrow.is_bold));
    out.text(if arrow.is_bold { LOOP_LOOK } else { "" });
    out.text("];\n");
}

/// What is said of the arrows of a loop beside their style.
const LOOP_LOOK: &str = ", penwidth=3, fontcolor=\"#c81e1e\"";

/// The colour and the line of the kind; one that may get longer has two lines.
fn style(kind: Kind, is_bold: bool) -> &'static str {
    match (kind, is_bold) {
        (Kind::Consume, false) => "color=\"#374151\", style=solid",
        (Kind::Shorten, false) => "color=\"#374151\", style=dashed",
        (Kind::Keep, false) => "color=\"#374151\", style=dotted",
        (Kind::Grow, false) => "color=\"#374151:white:#374151\", style=solid",
        (Kind::Consume, true) => "color=\"#c81e1e\", style=solid",
        (Kind::Shorten, true) => "color=\"#c81e1e\", style=dashed",
        (Kind::Keep, true) => "color=\"#c81e1e\", style=dotted",
        (Kind::Grow, true) => "color=\"#c81e1e:white:#c81e1e\", style=solid",
    }
}

/// Adds words that were put together, as `push_escaped` does, unless memory was refused for them.
fn push_escaped_words(out: &mut Written, words: Result<String, AllocError>) {
    match words {
        Ok(words) => push_escaped(out, words.as_str()),
        Err(error) => {
            out.words(Err(error));
        }
    }
}

/// Adds the words as a quoted string of the language holds them: with escapes for what ends it, begins an escape, or begins an
/// entity.
fn push_escaped(out: &mut Written, words: &str) {
    for byte in words.as_bytes() {
        match *byte {
            b'"' => out.text("\\\""),
            b'\\' => out.text("\\\\"),
            b'&' => out.text("&amp;"),
            byte => out.byte(byte),
        };
    }
}
