//! A page for browsers.

use crate::arrows::jumps_of;
use crate::listing::push_listing;
use crate::page_style::STYLE;
use crate::tables::{push_files, push_jumps, push_ranks};
use crate::top::push_top;
use sedck_answer::Explanation;
use sedck_formats::{Letters, Names, VERSION, Written, answer_word, commands_of, shown_of};
use sedck_report::Level;
use std::alloc::{AllocError, Global};

/// What precedes the title: no script and nothing from elsewhere is loaded.
const HEAD: &str = "<!DOCTYPE html>
<html lang=\"en\">
<head>
<meta charset=\"utf-8\">
<meta name=\"viewport\" content=\"width=device-width, initial-scale=1\">
<meta http-equiv=\"Content-Security-Policy\" content=\"default-src 'none'; style-src 'unsafe-inline'\">
";

/// What precedes the version.
const FOOT: &str = "</main>\n<footer class=\"soft\">sedck-explain ";

/// A page that needs nothing else: the answer with the errors, the script's lines with the findings beside them and its jumps as arcs, its
/// files, and the ranks of an accepted certificate. It has the findings of at least this level. What is taken from the script is escaped;
/// of its lines the characters of UTF-8 that can be seen are shown as they are, and all else is in printable ASCII.
pub fn html_report(
    alloc: Global,
    names: Names,
    explanation: &Explanation,
    least: Level,
) -> Result<Vec<u8>, AllocError> {
    let commands = commands_of(alloc, explanation)?;
    let shown = shown_of(names, explanation, &commands, Letters::Unicode);
    let jumps = jumps_of(alloc, explanation)?;
    let mut out = Written::new(alloc);
    push_head(&mut out, names.whole(), answer_word(explanation));
    push_top(&mut out, &shown, explanation, least)?;
    out.text("</header>\n<main>\n");
    push_listing(&mut out, &shown, explanation, least, &jumps)?;
    push_files(&mut out, names, explanation);
    push_jumps(&mut out, &shown, &jumps);
    push_ranks(&mut out, &shown, &explanation.answer);
    out.text(FOOT).text(VERSION);
    out.text("</footer>\n</body>\n</html>\n");
    out.finished()
}

/// Adds what precedes the answer: the title, the style and the heading.
fn push_head(out: &mut Written, name: &str, answer: &str) {
    out.text(HEAD).text("<title>").html(name);
    out.text(": ").text(answer).text("</title>\n<style>");
    out.text(STYLE);
    out.text("</style>\n</head>\n<body>\n<header>\n<h1>")
        .html(name)
        .text("</h1>\n");
}
