//! What is reported of a script to be looked at: a page for browsers, and a graph for Graphviz.
//!
//! Each function takes the script's path as it is printed, and what is reported. The path has no control characters. What is taken from
//! the script is shown in printable ASCII, but for the characters of UTF-8 in the lines of a page.
#![tactic(auto)]

mod arrows;
mod boxes;
mod dot;
mod flow;
mod lanes;
mod listing;
mod margin;
mod markup;
mod page;
mod page_style;
mod runs;
mod strokes;
mod tables;
mod top;

pub use dot::dot_report;
pub use page::html_report;
