//! Why a text is no script.

ghost use Rattle.std.specs.Prelude.{◌≡◌, Some};
ghost use Rattle.sedck_commands.specs.declared.fault.ScriptFault.TheVariants.{OutOfMemory};

use sedck_bre::ReFault;
use std::alloc::{AllocError, AllocFailed};
use std::fmt;

/// What is wrong with a script's text. A place is a byte offset from 0 to the text's length.
#[derive(Clone, Copy)]
pub enum ScriptFault {
    /// More than 1,048,576 bytes. Place: 1,048,576.
    TooLong { place: usize },
    /// A byte 0. Place: the first one.
    NulByte { place: usize },
    /// No verb where one is due, or none after an address or `!`, as in `1~2p`. Place: the byte there, or the end.
    UnknownCommand { place: usize },
    /// A line number 0 or above 4,294,967,295, or no address after a comma, as in `1,+2p`. Place: where the address is due.
    BadAddress { place: usize },
    /// More addresses than the verb takes, or `!` before `:`, `}` or `#`, as in `1,2q`. Place: the verb.
    TooManyAddresses { place: usize },
    /// The expression is refused, as in `s/a\{2/x/`. Place: its first byte; `fault` has its own place in the expression.
    BadExpression { place: usize, fault: ReFault },
    /// A delimiter is missing, or is a newline or a backslash, as in `s/a/b`. Place: the verb, or the address.
    Unterminated { place: usize },
    /// An escape that no replacement has, or a group that the expression lacks, as in `s/a/\1/`. Place: the backslash.
    BadReplacement { place: usize },
    /// A flag that is unknown or repeated, or a number 0 or above 4,294,967,295, as in `s/a/b/I`. Place: the flag.
    BadFlag { place: usize },
    /// Another escape in a list of `y`, lists of different lengths, as in `y/a/bc/`, or a bracket list that is open at the end of
    /// the first one, as in `y/[/a/`. Place: the backslash, the verb, or the `[`.
    BadTransliteration { place: usize },
    /// No text for `a`, `c` or `i`. Place: the verb.
    MissingText { place: usize },
    /// No file name, as in `s/a/b/w`. Place: the verb, or the flag `w`.
    MissingName { place: usize },
    /// No label after `:`, a byte that no label may hold, or a comment that some seds take for a label or for a part of one. Place:
    /// where the label is due, that byte, or right after the label.
    BadLabel { place: usize },
    /// A label is defined again, as in `:a;:a`. Place: the second one.
    DuplicateLabel { place: usize },
    /// A branch or a test to a label that isn't defined, as in `b z`. Place: the label, in the first of them.
    UnknownLabel { place: usize },
    /// A `}` without `{`. Place: the `}`.
    UnopenedBlock { place: usize },
    /// The script ends inside a block. Place: the innermost open `{`.
    UnclosedBlock { place: usize },
    /// A `{` inside 64 others. Place: that `{`.
    TooDeep { place: usize },
    /// The 4,096th command. Place: its verb.
    TooManyCommands { place: usize },
    /// A byte that may not follow a command, as in `p p`, a carriage return inside a comment, or a control character in a name. Place: that byte.
    ExtraText { place: usize },
    /// An empty expression in a script where every one is empty, as in `s//x/`. Place: after its opening delimiter.
    NoPreviousExpression { place: usize },
    /// A backslash before a delimiter that can't be escaped, or before the delimiter `x` in an expression that has a `[`, as in
    /// `sx[\xa]xyx`. Place: the backslash, of several the first.
    EscapedDelimiter { place: usize },
    /// A growth was refused.
    OutOfMemory,
}

impl ScriptFault {
    ghost use Rattle.sedck_commands.specs.FaultWords.{fault_number, fault_name, fault_place, fault_row};

    /// The number that is printed. It stays the same for ever: scripts compare it.
    pub fn number(self) -> u8
        ensures { result ≡ fault_number self }
    {
        self.row().0
    }

    /// The name that is printed: in lower case, with hyphens between its words.
    pub fn name(self) -> &'static str
        ensures { result.now ≡ fault_name self }
    {
        self.row().1
    }

    /// The place, which every fault but `OutOfMemory` has.
    pub fn place(self) -> Option<usize>
        ensures { result ≡ fault_place self }
    {
        self.row().2
    }

    /// The number, the name and the place.
    fn row(self) -> (u8, &'static str, Option<usize>)
        ensures { (result.0, result.1.now, result.2) ≡ fault_row self }
    {
        match self {
            ScriptFault::TooLong { place } => (1, "too-long", Some(place)),
            ScriptFault::NulByte { place } => (2, "nul-byte", Some(place)),
            ScriptFault::UnknownCommand { place } => (3, "unknown-command", Some(place)),
            ScriptFault::BadAddress { place } => (4, "bad-address", Some(place)),
            ScriptFault::TooManyAddresses { place } => (5, "too-many-addresses", Some(place)),
            ScriptFault::BadExpression { place, .. } => (6, "bad-expression", Some(place)),
            ScriptFault::Unterminated { place } => (7, "unterminated", Some(place)),
            ScriptFault::BadReplacement { place } => (8, "bad-replacement", Some(place)),
            ScriptFault::BadFlag { place } => (9, "bad-flag", Some(place)),
            ScriptFault::BadTransliteration { place } => (10, "bad-transliteration", Some(place)),
            ScriptFault::MissingText { place } => (11, "missing-text", Some(place)),
            ScriptFault::MissingName { place } => (12, "missing-name", Some(place)),
            ScriptFault::BadLabel { place } => (13, "bad-label", Some(place)),
            ScriptFault::DuplicateLabel { place } => (14, "duplicate-label", Some(place)),
            ScriptFault::UnknownLabel { place } => (15, "unknown-label", Some(place)),
            ScriptFault::UnopenedBlock { place } => (16, "unopened-block", Some(place)),
            ScriptFault::UnclosedBlock { place } => (17, "unclosed-block", Some(place)),
            ScriptFault::TooDeep { place } => (18, "too-deep", Some(place)),
            ScriptFault::TooManyCommands { place } => (19, "too-many-commands", Some(place)),
            ScriptFault::ExtraText { place } => (20, "extra-text", Some(place)),
            ScriptFault::NoPreviousExpression { place } => (
                21,
                "no-previous-expression",
                Some(place),
            ),
            ScriptFault::EscapedDelimiter { place } => (22, "escaped-delimiter", Some(place)),
            ScriptFault::OutOfMemory => (23, "out-of-memory", None),
        }
    }
}

impl fmt::Display for ScriptFault {
    ghost use Rattle.sedck_commands.specs.FaultWords.{fault_words};

    ghost output = { λ fault. Some (fault_words fault) };

    fn fmt<W: fmt::Write>(&self, f: &mut fmt::Formatter<W>) -> fmt::Result {
        let number = self.number();
        let name = self.name();
        if let ScriptFault::BadExpression { place, fault } = self {
            return write!(f, "fault {number} {name} at {place}: expression {fault}");
        }
        match self.place() {
            Some(place) => write!(f, "fault {number} {name} at {place}"),
            None => write!(f, "fault {number} {name}"),
        }
    }
}

impl From<AllocError> for ScriptFault {
    ghost from_gives = { λ _ e. e ≡ OutOfMemory };

    fn from(_e: AllocError) -> ScriptFault {
        ScriptFault::OutOfMemory
    }
}

impl<T: Drop> From<AllocFailed<T>> for ScriptFault {
    ghost from_gives = { λ _ e. e ≡ OutOfMemory };

    fn from(_e: AllocFailed<T>) -> ScriptFault {
        ScriptFault::OutOfMemory
    }
}
