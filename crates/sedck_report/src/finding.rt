//! Findings.

ghost use Rattle.std.specs.Prelude.{◌≡◌, [], None};
ghost use Rattle.sedck_report.specs.Levels.{is_warning, is_error};

use crate::code::Code;
use crate::places::Position;
use sedck_flow::{Kind, Node};
use std::alloc::Global;

/// How much a finding weighs.
#[derive(Clone, Copy, PartialEq, Eq)]
pub enum Level {
    /// The script or the certificate is refused or rejected, or the script has a loop.
    Error,
    /// Look at this twice; it changes no answer.
    Warning,
    /// Something to know.
    Note,
}

/// A finding, at a place of the script, or of the certificate or the script as a whole.
#[derive(Drop)]
pub struct Finding {
    pub level: Level,
    pub code: Code,
    /// Where in the script it is.
    pub position: Option<Position>,
    /// The end of what is meant, which is no part of it, where it is known.
    pub end: Option<Position>,
    /// A sentence without its full stop. Only printable ASCII.
    pub message: String,
    /// What to write instead, or how to go on.
    pub hint: Option<&'static str>,
    /// A change of the script's text that mends it, where there is one.
    pub fix: Option<Fix>,
    /// What belongs to it, in order: the steps of a loop, the two ends of an edge.
    pub steps: Vec<Step>,
}

impl Finding {
    /// A finding with its words alone: without a place, a hint, a fix and steps.
    pub fn new(alloc: Global, level: Level, code: Code, message: String) -> Finding
        ensures level { result.level ≡ level }
        ensures code { result.code ≡ code }
        ensures position { result.position ≡ None }
        ensures end { result.end ≡ None }
        ensures steps { result.steps.items ≡ [] }
    {
        Finding {
            level,
            code,
            position: None,
            end: None,
            message,
            hint: None,
            fix: None,
            steps: Vec::new(alloc),
        }
    }

    /// Whether it is an error.
    pub fn is_error(&self) -> bool
        ensures { result ≡ is_error self.now.level }
    {
        matches!(self.level, Level::Error)
    }

    /// Whether it is a warning.
    pub fn is_warning(&self) -> bool
        ensures { result ≡ is_warning self.now.level }
    {
        matches!(self.level, Level::Warning)
    }
}

/// The text to write in place of a part of the script.
#[derive(Clone, Copy)]
pub struct Fix {
    pub start: Position,
    /// The first byte after the part.
    pub end: Position,
    pub text: NewText,
}

/// A text that is to be written.
#[derive(Clone, Copy)]
pub enum NewText {
    /// These characters, all of ASCII.
    Plain(&'static str),
    /// A group of an expression with this character in it.
    Group(char),
    /// The part, with this delimiter in place of the one that begins it, but for that in bracket lists; perhaps after a backslash.
    Delimited { other: u8, is_bare: bool },
}

/// A step of a loop or along an edge that is rejected.
#[derive(Drop)]
pub struct Step {
    /// The node that is left.
    pub node: Node,
    /// Where the command is, or none for the script's end.
    pub position: Option<Position>,
    /// What the step does. None: the node is only reached.
    pub kind: Option<Kind>,
    /// The same in words. Only printable ASCII.
    pub message: String,
}

/// A file that the script names.
#[derive(Drop)]
pub struct NamedFile<'a> {
    pub name: &'a [u8],
    /// The commands that name it, in order.
    pub positions: Vec<Position>,
}
