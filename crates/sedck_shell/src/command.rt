//! What shell text has: commands, and their words.

use sedck_origin::{Hole, Unit, is_text};
use std::alloc::Global;

/// A word of a command, without its quoting.
#[derive(Drop)]
pub struct ShellWord {
    pub units: Vec<Unit>,
    /// The offset in the file of the word's first byte, which may be a quote.
    pub start: usize,
    /// Whether a part of it is quoted.
    pub is_quoted: bool,
    pub pattern: Pattern,
}

/// Whether a word is a pattern, in whose place the names of files come that match it (XCU 2.6.6).
#[derive(Clone, Copy, PartialEq, Eq)]
pub enum Pattern {
    /// It isn't.
    None,
    /// It begins with other bytes, which the names have too.
    Inside,
    /// It begins with `*`, `?` or `[`.
    First,
}

/// A simple command (XCU 2.9.1): assignments, if there are any, the name, and the other words. Redirections aren't words.
#[derive(Drop)]
pub struct ShellCommand {
    pub words: Vec<ShellWord>,
    /// The here-document that is its standard input, if there is one.
    pub here: Option<Vec<Unit>>,
    /// The file that is its standard input, if that is redirected.
    pub source: Option<ShellWord>,
    /// The here-string that is its standard input, in the shells that have such, if there is one.
    pub here_string: Option<ShellWord>,
    /// Whether a here-document is for another of its descriptors.
    pub has_other_here: bool,
    /// The files that it opens for writing.
    pub targets: Vec<Target>,
    /// What is put into its redirections before a shell reads them, where there may be other words then.
    pub made: Vec<Hole>,
}

/// A file that is opened for writing.
#[derive(Drop)]
pub struct Target {
    pub word: ShellWord,
    /// Whether the shell empties the file before the command runs, as it does for `>`, and not for `>>`.
    pub is_emptied: bool,
    /// Whether the standard output goes there.
    pub is_output: bool,
}

/// What was read of a text.
#[derive(Drop)]
pub struct ShellText {
    /// The commands, in no order.
    pub commands: Vec<ShellCommand>,
    /// The offsets in the file of what wasn't understood, in no order. Reading goes on at a next line.
    pub unread: Vec<usize>,
}

impl ShellCommand {
    /// A command of nothing.
    pub(crate) fn new(alloc: Global) -> ShellCommand {
        ShellCommand {
            words: Vec::new(alloc),
            here: None,
            source: None,
            here_string: None,
            has_other_here: false,
            targets: Vec::new(alloc),
            made: Vec::new(alloc),
        }
    }
}

impl ShellWord {
    /// A word of nothing.
    pub(crate) fn new(alloc: Global) -> ShellWord {
        ShellWord {
            units: Vec::new(alloc),
            start: 0,
            is_quoted: false,
            pattern: Pattern::None,
        }
    }

    /// Whether it has these bytes.
    pub fn is(&self, text: &str) -> bool {
        is_text(&self.units, text)
    }
}
