//! Elements of a page, and links to lines.

use sedck_formats::{Names, Written, place_words};
use sedck_report::Position;

/// Adds a sentence, in which what is between backticks is code.
pub(crate) fn push_prose(out: &mut Written, words: &str) {
    let mut is_code = false;
    for part in words.split('`') {
        if is_code {
            out.text("<code>").html(part).text("</code>");
        } else {
            out.html(part);
        }
        is_code = !is_code;
    }
}

/// Adds the position in words as a link to its line in the listing. Without a position it is a link to the script's end.
pub(crate) fn push_place(out: &mut Written, names: Names, position: Option<Position>) {
    let Some(Position { line, .. }) = position else {
        out.text("<a href=\"#end\">end</a>");
        return;
    };
    let place = place_words(out.alloc(), names, position);
    out.text("<a href=\"#L").number(line).text("\">");
    out.html_words(place).text("</a>");
}
