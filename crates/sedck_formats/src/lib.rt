//! What is reported of a script or of a call, as bytes: for people at a terminal, for editors, for programs and for hosts of code.
//!
//! `text_report` and `gcc_report` take names as they are printed, without control characters; the others take the names themselves, and
//! escape them. What is taken from the script is shown in printable ASCII; `Letters` adds the characters of UTF-8, for pages. Of the names
//! of positions a contract says which they are, and of a line of JSON that it is printable; the words themselves are tested. Pages for
//! browsers, and graphs, are in `sedck_page`.
#![tactic(auto)]

mod answers;
mod call_words;
mod columns;
mod conditions;
mod counts;
mod gcc;
mod json_findings;
mod json_line;
mod json_text;
mod letters;
mod lines;
mod listed;
mod names;
mod pages;
mod plain;
mod sarif;
mod summary;
mod text;
mod words;
mod written;

pub use answers::{CallAnswer, answer_word};
pub use call_words::{CallAt, text_answer};
pub use conditions::{ConditionKind, KindCount};
pub use counts::{Counts, ScriptCounts, assumed_line};
pub use gcc::gcc_report;
pub use json_line::{json_call, json_counts, json_place, json_report, json_unreadable};
pub use letters::{Letters, line_in, mark_len};
pub use lines::{LinePart, Shown, command_line, commands_of, excerpt, length_of, shown_of};
pub use listed::{Stretch, is_listed, listed_steps};
pub use names::{Names, PartName, Place};
pub use pages::{page_of, page_words};
pub use plain::plain_report;
pub use sarif::{sarif_report, sarif_unreadable};
pub use summary::{push_memory, push_steps};
pub use text::{text_findings, text_report};
pub use words::{VERSION, level_word, place_words, push_left_out, shown_letter, shown_path};
pub use written::Written;
