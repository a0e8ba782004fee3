//! States of a run, and what its steps do to files.

/// A run between its first line and its end.
#[derive(Clone, Copy)]
pub struct Machine<'a> {
    /// The place of the next command, or the number of commands.
    pub at: usize,
    /// Whether a substitution was made that no `t` has taken up yet.
    pub flag: bool,
    /// The lines that are left to read.
    pub unread: &'a [&'a [u8]],
    /// The pattern space.
    pub pattern: &'a [u8],
    /// The hold space.
    pub hold: &'a [u8],
}

/// A state of a run.
#[derive(Clone, Copy)]
pub enum State<'a> {
    /// Before the first line is read; all lines.
    Start(&'a [&'a [u8]]),
    /// Before a command, or after the last one.
    At(Machine<'a>),
    /// The run has ended.
    Done,
}

/// The file that a step reads or writes, if any.
#[derive(Clone, Copy)]
pub enum Event<'a> {
    Silent,
    /// The file with this name is read.
    Reads(&'a [u8]),
    /// The file with this name is written.
    Writes(&'a [u8]),
}

/// A step: its event, and the state that it leads to.
#[derive(Clone, Copy)]
pub struct Move<'a> {
    pub event: Event<'a>,
    pub after: State<'a>,
}
