//! What encloses a byte of shell text.

use crate::command::{ShellCommand, ShellWord};
use sedck_origin::Way;
use std::alloc::Global;

/// The quoting of a byte (XCU 2.2).
#[derive(Clone, Copy, PartialEq, Eq)]
pub(crate) enum Quote {
    None,
    Single,
    Double,
    /// Between `$'` and `'`.
    Dollar,
    /// It is in a comment.
    Comment,
    /// It is in a here-document whose delimiter isn't quoted.
    Body,
    /// It is in a here-document whose delimiter is quoted.
    Verbatim,
}

/// What encloses a byte.
#[derive(Clone, Copy, PartialEq, Eq)]
pub(crate) enum Enclosure {
    /// The text itself.
    Text,
    /// `$( )`, and `<( )` and `>( )`.
    Substitution,
    /// `( )`.
    Group,
    /// `name=( )`, and `@( )` of a pattern.
    Array,
    /// `${ }`.
    Parameter,
    /// `$(( ))`, and `(( ))`.
    Arithmetic,
}

/// What the next word is.
#[derive(Clone, Copy)]
pub(crate) enum Awaited {
    /// A word of the command.
    Word,
    /// A file that is read.
    Source,
    HereString,
    /// A file that is opened for writing, which is emptied before or not.
    Target { is_emptied: bool },
    /// Another word of a redirection.
    Skipped,
    /// The delimiter of a here-document, of which leading tabs are taken off or not.
    Delimiter { is_stripped: bool },
}

/// What is being read within what encloses it.
#[derive(Drop)]
pub(crate) struct Frame {
    pub enclosure: Enclosure,
    /// How it becomes a hole of the word around it, if it does.
    pub hole: Option<Way>,
    /// Whether it is in nothing but groups, so that its commands stand if it isn't closed.
    pub is_plain: bool,
    /// The offset in the file where it begins.
    pub opened: usize,
    /// Whether a single quote in it is itself, since double quotes or an arithmetic expression are around it.
    pub is_in_double: bool,
    /// The offset in the file of such a quote whose partner hasn't come yet.
    pub odd_quote: Option<usize>,
    pub quote: Quote,
    /// The offset in the file of a quote whose text is unknown, and how many units the word had before it.
    pub unknown: Option<(usize, usize)>,
    pub command: ShellCommand,
    /// The number of the here-document that is the command's input.
    pub here: Option<usize>,
    /// Whether a plain shell ends the command before the words that follow, at `&>`.
    pub is_parted: bool,
    pub word: ShellWord,
    pub has_word: bool,
    /// The number of the unit of the word with a brace, and whether a comma or two dots stand after it.
    pub brace: Option<(usize, bool)>,
    pub awaited: Awaited,
    /// The descriptor of its redirection, if it is 0 or 1.
    pub descriptor: u8,
    /// How many commands `case` aren't ended.
    pub cases: usize,
    /// Whether a pattern of the last one is read.
    pub is_pattern: bool,
    /// Whether the command is `[[`, and not ended by `]]`.
    pub is_test: bool,
    /// How many parentheses of an arithmetic expression or of a pattern are open.
    pub parentheses: usize,
}

impl Frame {
    /// The frame around a text.
    pub fn new(alloc: Global, quote: Quote) -> Frame {
        Frame {
            enclosure: Enclosure::Text,
            hole: None,
            is_plain: true,
            opened: 0,
            is_in_double: false,
            odd_quote: None,
            quote,
            unknown: None,
            command: ShellCommand::new(alloc),
            here: None,
            is_parted: false,
            word: ShellWord::new(alloc),
            has_word: false,
            brace: None,
            awaited: Awaited::Word,
            descriptor: 0,
            cases: 0,
            is_pattern: false,
            is_test: false,
            parentheses: 0,
        }
    }

    /// Whether an expansion or an expression is in it, and neither commands nor words.
    pub fn is_bracketed(&self) -> bool {
        matches!(self.enclosure, Enclosure::Parameter | Enclosure::Arithmetic)
    }
}
