//! The tables of a page: files, jumps and ranks.

use crate::arrows::Arrow;
use crate::markup::push_place;
use sedck_answer::{Answer, Explanation};
use sedck_formats::{Names, Shown, Written};
use sedck_report::{NamedFile, shown_name};

/// What precedes the rows of files.
const FILES_HEAD: &str = "<div class=\"wide\"><table>
<thead><tr>
<th scope=\"col\">File</th>
<th scope=\"col\">Use</th>
<th scope=\"col\">Commands</th>
</tr></thead><tbody>
";

/// What precedes the rows of jumps.
const JUMPS_HEAD: &str = "<h2 id=\"jumps\">Jumps</h2>
<details><summary>All jumps as a list</summary>
<div class=\"wide\"><table>
<thead><tr>
<th scope=\"col\">From</th>
<th scope=\"col\">To</th>
<th scope=\"col\">Kind</th>
</tr></thead><tbody>
";

/// What precedes the rows of ranks.
const RANKS_HEAD: &str = "<h2 id=\"ranks\">Ranks</h2>
<details><summary>The ranks of the certificate</summary>
<p>Until a line is read, no step increases the first number.
A step of the kind grow lowers it; one of the kind keep lowers it, or leaves it and lowers the second.
A dash: no run gets there.</p>
<div class=\"wide\"><table>
<thead><tr>
<th scope=\"col\">Command</th>
<th scope=\"col\">flag reset, lines left</th>
<th scope=\"col\">flag reset, last line</th>
<th scope=\"col\">flag set, lines left</th>
<th scope=\"col\">flag set, last line</th>
</tr></thead><tbody>
";

/// What follows the rows of jumps, and those of ranks.
const DETAILS_END: &str = "</tbody></table></div>
</details>
";

/// Adds the files that the script names, or that there are none.
pub(crate) fn push_files(out: &mut Written, names: Names, explanation: &Explanation) {
    if explanation.script.is_none() {
        return;
    }
    out.text("<h2 id=\"files\">Files</h2>\n");
    if explanation.reads.is_empty() && explanation.writes.is_empty() {
        out.text("<p>No command reads or writes a file.</p>\n");
        return;
    }
    out.text(FILES_HEAD);
    push_rows(out, names, &explanation.reads, "read");
    push_rows(out, names, &explanation.writes, "written");
    out.text("</tbody></table></div>\n");
}

/// Adds a row for each file, with a link for each position.
fn push_rows(out: &mut Written, names: Names, files: &[NamedFile], what: &str) {
    for file in files {
        let name = shown_name(out.alloc(), file.name);
        out.text("<tr><td><code>&quot;").html_words(name);
        out.text("&quot;</code></td><td>").text(what);
        out.text("</td><td>");
        for position in &file.positions {
            push_place(out, names, Some(*position));
            out.text(" ");
        }
        out.text("</td></tr>\n");
    }
}

/// Adds the list of jumps, which the arcs show too.
pub(crate) fn push_jumps(out: &mut Written, shown: &Shown, jumps: &[Arrow]) {
    if jumps.is_empty() {
        return;
    }
    out.text(JUMPS_HEAD);
    for jump in jumps {
        push_jump(out, shown, *jump);
    }
    out.text(DETAILS_END);
}

/// Adds a row for a jump.
fn push_jump(out: &mut Written, shown: &Shown, jump: Arrow) {
    out.text("<tr><td>");
    push_command(out, shown, jump.from);
    out.text("</td><td>");
    push_command(out, shown, jump.to);
    let kind = jump.kind;
    let part = if jump.is_bold {
        ", part of the loop"
    } else {
        ""
    };
    out.words(format!(in out.alloc(); "</td><td>{kind}{part}</td></tr>\n"));
}

/// Adds a link to the command with this number, or to the script's end.
fn push_command(out: &mut Written, shown: &Shown, command: usize) {
    push_place(out, shown.names, shown.positions.get(command).copied());
}

/// Adds the ranks of an accepted certificate, a row for each command.
pub(crate) fn push_ranks(out: &mut Written, shown: &Shown, answer: &Answer) {
    let Answer::Accepted { cert, .. } = answer else {
        return;
    };
    out.text(RANKS_HEAD);
    for (index, row) in cert.ranks().chunks(4).enumerate() {
        out.text("<tr><th scope=\"row\">");
        push_command(out, shown, index);
        out.text("</th>");
        push_pairs(out, row);
        out.text("</tr>\n");
    }
    out.text(DETAILS_END);
}

/// Adds a cell with the ranks of each node.
fn push_pairs(out: &mut Written, pairs: &[Option<(u16, u16)>]) {
    for pair in pairs {
        match *pair {
            Some((first, second)) => out
                .text("<td>")
                .number(usize::from(first))
                .text(" ")
                .number(usize::from(second))
                .text("</td>"),
            None => out.text("<td>-</td>"),
        };
    }
}
