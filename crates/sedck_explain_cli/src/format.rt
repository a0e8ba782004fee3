//! The formats, by name.

ghost use Rattle.std.specs.Prelude.{None};

use sedck_calls_in_files::{Look, Reporter};
use sedck_explanation::{Explanation, Level};
use sedck_formats::{
    Names, PartName, gcc_report, json_report, sarif_report, shown_path, text_report,
};
use sedck_page::{dot_report, html_report};
use sedck_plain::Comments;
use std::alloc::{AllocError, Global};

/// How a report is printed.
#[derive(Clone, Copy, PartialEq, Eq)]
pub enum Format {
    /// For people: lines with carets, hints and a summary.
    Text,
    /// A line for each finding, as compilers write them, for editors.
    Gcc,
    /// A JSON object on a line, for programs.
    Json,
    /// A log in SARIF, for hosts of code.
    Sarif,
    /// A page for browsers.
    Html,
    /// A graph for Graphviz, with a box for each command.
    Dot,
    /// An accepted script in its plain spelling; of any other a report for people, on standard error.
    Sed,
}

/// The names of the formats, as they are given on the command line.
pub const NAMES: &[&str] = &["text", "gcc", "json", "sarif", "html", "dot", "sed"];

impl Format {
    ghost use Rattle.std.specs.Prelude.{◌≡◌, is_some, codes};
    ghost use Rattle.std.specs.Str.{bytes_eq};
    ghost use Rattle.sedck_explain_cli.specs.Requests.{is_plain, is_some_plain};

    /// The format with this name.
    pub fn named(name: &str) -> Option<Format>
        ensures { is_some_plain result ≡ bytes_eq name.now (codes "sed") }
    {
        match name {
            "text" => Some(Format::Text),
            "gcc" => Some(Format::Gcc),
            "json" => Some(Format::Json),
            "sarif" => Some(Format::Sarif),
            "html" => Some(Format::Html),
            "dot" => Some(Format::Dot),
            "sed" => Some(Format::Sed),
            _ => None,
        }
    }

    /// Whether an accepted script is written in its plain spelling.
    pub(crate) fn is_plain(self) -> bool
        ensures { result ≡ is_plain self }
    {
        matches!(self, Format::Sed)
    }

    /// Whether it is written so, and with these comments.
    pub(crate) fn plain(self, comments: Comments) -> Option<Comments>
        ensures { is_some result ≡ is_plain self }
    {
        if self.is_plain() {
            Some(comments)
        } else {
            None
        }
    }

    /// Whether the report of several scripts is the reports of each, one after another.
    pub fn takes_several(self) -> bool {
        self.look(false).is_some()
    }

    /// How the reports on calls in files look in it, where it takes several scripts.
    pub(crate) fn look(self, colour: bool) -> Option<Look> {
        match self {
            Format::Text => Some(Look::Text { colour }),
            Format::Gcc => Some(Look::Gcc),
            Format::Json => Some(Look::Json),
            Format::Sarif | Format::Html | Format::Dot | Format::Sed => None,
        }
    }

    /// The least level of findings where none is asked for: a script in which all is well has none for people and for editors. Of calls in
    /// files people see each answer, which notes belong to.
    pub fn least(self, is_of_calls: bool) -> Level {
        match self {
            Format::Gcc | Format::Sed => Level::Warning,
            Format::Text if !is_of_calls => Level::Warning,
            _ => Level::Note,
        }
    }
}

/// How reports look.
#[derive(Clone, Copy)]
pub struct Style {
    pub format: Format,
    /// Colours of ANSI terminals, in the format for people.
    pub colour: bool,
    /// The least level of findings that are reported.
    pub least: Level,
}

impl Reporter for Style {
    // What the formats make of an explanation isn't said.
    ghost reported = { λ _ _ _. None };

    fn report(
        &self,
        alloc: Global,
        name: &str,
        parts: &[PartName],
        explanation: &Explanation,
    ) -> Result<Vec<u8>, AllocError> {
        let path = shown_path(alloc, name)?;
        let exact = Names::of_call(name, parts);
        let shown = Names::of_call(path.as_str(), parts);
        match self.format {
            Format::Text => text_report(alloc, shown, explanation, self.least, self.colour),
            Format::Sed => text_report(alloc, shown, explanation, self.least, false),
            Format::Gcc => gcc_report(alloc, shown, explanation, self.least),
            Format::Json => json_report(alloc, exact, explanation, self.least),
            Format::Sarif => sarif_report(alloc, exact, explanation, self.least),
            Format::Html => html_report(alloc, shown, explanation, self.least),
            Format::Dot => dot_report(alloc, shown, explanation),
        }
    }
}

impl Style {
    /// The path as this format has it: JSON and SARIF have the exact one.
    pub(crate) fn shown(&self, alloc: Global, path: &str) -> Result<String, AllocError> {
        match self.format {
            Format::Json | Format::Sarif => String::from_str(alloc, path),
            _ => shown_path(alloc, path),
        }
    }
}
