//! What is found in a file.

use sedck_call::{Call, CallFault};
use sedck_origin::{Hole, Traced};

/// A variable with a value that was given with the call of this program, or with none where it isn't set.
#[derive(Clone, Copy)]
pub struct Assumed<'a> {
    pub name: &'a [u8],
    pub value: Option<&'a [u8]>,
}

/// What is assumed, as was given with the call of this program.
#[derive(Clone, Copy)]
pub struct Assumptions<'a> {
    /// Variables; of several with one name the first one counts.
    pub variables: &'a [Assumed<'a>],
    /// Whether a script is read with other delimiters where a list has the delimiter, under the condition that a sed takes it for a part of
    /// the list.
    pub mends: bool,
}

impl Assumptions<'_> {
    /// Whether it is assumed that POSIXLY_CORRECT isn't set.
    pub fn has_order(&self) -> bool {
        let mut variables = self.variables.iter();
        variables.any(|one| one.name == b"POSIXLY_CORRECT".as_slice() && one.value.is_none())
    }
}

/// A call of sed.
#[derive(Drop)]
pub struct FoundCall {
    /// The file has the command's name from this offset on ..
    pub start: usize,
    /// .. to before this one.
    pub end: usize,
    /// The words after the name.
    pub words: Vec<Traced>,
    pub script: FoundScript,
    /// The variables that are replaced by their values.
    pub followed: Vec<Followed>,
    /// The file to which its output goes, where it reads that file.
    pub overwritten: Option<Overwritten>,
    /// Whether the words before the name make it run in the locale C or POSIX.
    pub c_locale: bool,
}

/// A file to which the output of a call goes, and which the call reads.
#[derive(Clone, Copy)]
pub struct Overwritten {
    /// Its name is in the file of the call from this offset on ..
    pub start: usize,
    /// .. to before this one.
    pub end: usize,
    /// Whether the shell empties it before the call runs.
    pub is_emptied: bool,
    /// Whether the output goes there.
    pub is_output: bool,
}

/// A variable that is replaced by its value.
#[derive(Clone, Copy)]
pub struct Followed {
    /// The file has what is replaced from this offset on ..
    pub start: usize,
    /// .. to before this one.
    pub end: usize,
    pub value: KnownValue,
    /// The file has the value from this offset on ..
    pub from: usize,
    /// .. to before this one.
    pub to: usize,
}

/// Where a value comes from.
#[derive(Clone, Copy)]
pub enum KnownValue {
    /// The file sets it to what begins on the line of this number, from 1.
    Line(usize),
    /// The file sets it to nothing.
    Empty,
    /// It was given with the call of this program.
    Given,
    /// It is that POSIXLY_CORRECT isn't set, which was given with the call of this program.
    Unset,
}

/// The script of a call.
#[derive(Drop)]
pub enum FoundScript {
    /// Its text, where each hole has letters in its place that fit its role, with all on which the words depend.
    Text {
        call: Call,
        text: Traced,
        holes: Vec<OpenHole>,
    },
    /// An option changes the language.
    Foreign(Call),
    /// No sed takes the words.
    Refused(CallFault),
    /// It is unknown before a run.
    Unknown(Unknown),
}

/// Why a script is unknown before a run.
#[derive(Clone, Copy)]
pub enum Unknown {
    /// A variable or a command gives the script as a whole, or options.
    Words,
    /// A variable or a command gives a command, a flag, a label or a name of the script.
    Part,
    /// The script is in a file, or is read from standard input.
    File,
    /// Macros of M4 change the script.
    Macro,
    /// The script is empty after `-i`, which some seds read as the suffix of that option.
    Suffix,
}

/// What is unknown of a call, on which its words depend.
#[derive(Clone, Copy)]
pub struct OpenHole {
    /// Where the file has it, and how it becomes a part of a word.
    pub hole: Hole,
    pub role: Role,
    /// The delimiter of the expression or the replacement.
    pub delimiter: u8,
    /// Whether it is a variable whose value may be given with the call of this program.
    pub is_variable: bool,
}

impl OpenHole {
    /// One with this delimiter, which is 0 outside of expressions and replacements.
    pub fn new(hole: Hole, role: Role, delimiter: u8) -> OpenHole {
        OpenHole {
            hole,
            role,
            delimiter,
            is_variable: false,
        }
    }

    /// Whether it is on options after an operand.
    pub fn is_of_order(&self) -> bool {
        matches!(self.role, Role::Options)
    }
}

/// What a hole may change.
#[derive(Clone, Copy)]
pub enum Role {
    /// An expression, outside of its lists.
    Expression,
    /// A bracket list.
    List,
    Replacement,
    /// The text of `a`, `i` or `c`.
    Text,
    /// The beginning of such a text.
    TextBegin,
    /// A comment, which a carriage return ends for BusyBox.
    Comment,
    /// A word of the call that isn't the script: there must be just one.
    Word,
    /// A word that must be an operand, and no option.
    Operand,
    /// A pattern, which no file's name may match.
    Pattern,
    /// A pattern in place of an operand.
    Names,
    /// The name of the sed, after which options may be.
    Sed,
    /// What runs the sed, or nothing.
    Runner,
    /// The operands that `xargs` adds.
    Added,
    /// The options after an operand, which are none where POSIXLY_CORRECT is set.
    Options,
    /// A command that has its delimiter in a list: it is read with the delimiter of the hole. The file may have the whole command as it is,
    /// without quoting; and the command may be an address between slashes.
    Delimiter { is_whole: bool, is_bare: bool },
}

/// What is found in a file.
#[derive(Drop)]
pub struct Found {
    /// In the file's order.
    pub calls: Vec<FoundCall>,
    /// The offsets of what wasn't understood, in the file's order. Reading went on at a next line.
    pub unread: Vec<usize>,
    /// Those of them at which the file has a word for a sed, and of which the reader of shell text says nothing.
    pub words: Vec<usize>,
}
