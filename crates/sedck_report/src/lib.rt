//! What a report is made of: findings with their codes and levels, positions in a text, and bytes as they can be shown in a terminal,
//! in HTML and in ASCII.
//!
//! What is found is not decided here, but in `sedck_advice` and `sedck_errors`; which formats there are is the matter of
//! `sedck_formats`.
#![tactic(auto)]

mod ascii;
mod code;
mod finding;
mod html;
mod places;
mod shown;

pub use ascii::{ascii_line, push_ascii};
pub use code::{Code, Page};
pub use finding::{Finding, Fix, Level, NamedFile, NewText, Step};
pub use html::{push_html, push_text};
pub use places::{Position, end_behind, line_len, position_at, position_from, positions, skipped};
pub use shown::{is_printable, shown_line, shown_name};
