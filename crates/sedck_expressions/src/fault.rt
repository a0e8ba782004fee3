//! Why a text is no expression, and where.

ghost use Rattle.std.specs.Prelude.{◌≡◌, Some};
ghost use Rattle.sedck_expressions.specs.declared.fault.ReFault.TheVariants.{OutOfMemory};

use std::alloc::{AllocError, AllocFailed};
use std::fmt;

/// Why a text is no expression. The place is the offset of a byte of the text.
#[derive(Clone, Copy, Drop)]
pub enum ReFault {
    /// The text ends in a lone backslash outside a bracket list: the backslash.
    TrailingBackslash { place: usize },
    /// A backslash before a byte that has no meaning there: the backslash.
    BadEscape { place: usize },
    /// A bracket list, class or symbol that is not closed: the outer bracket.
    UnclosedBracket { place: usize },
    /// An invalid element: its first byte.
    BadBracket { place: usize },
    /// A complement without members: the bracket.
    EmptySet { place: usize },
    /// The text ends inside a group: the backslash of the innermost open one.
    UnclosedGroup { place: usize },
    /// A `\)` without a group: its backslash.
    UnopenedGroup { place: usize },
    /// An interval of no known form: its backslash.
    BadInterval { place: usize },
    /// An interval with nothing before it: its backslash.
    NothingToRepeat { place: usize },
    /// A second sign of repetition: its first byte.
    DoubleRepeat { place: usize },
    /// A reference to a group that is not closed before it: its backslash.
    BadReference { place: usize },
    /// A group inside 32 others: its backslash.
    TooDeep { place: usize },
    /// The hundredth group: its backslash.
    TooManyGroups { place: usize },
    /// A growth was refused.
    OutOfMemory,
}

impl ReFault {
    ghost use Rattle.sedck_expressions.specs.FaultWords.{fault_number, fault_name, fault_place, fault_row};

    /// The number that is printed. It stays the same for ever: scripts compare it.
    pub fn number(self) -> u8
        ensures { result ≡ fault_number self }
    {
        self.row().0
    }

    /// The name that is printed: in lower case, with hyphens between its words.
    pub fn name(self) -> &'static str
        ensures { result.now ≡ fault_name self }
    {
        self.row().1
    }

    /// The place, which every fault but `OutOfMemory` has.
    pub fn place(self) -> Option<usize>
        ensures { result ≡ fault_place self }
    {
        self.row().2
    }

    /// The number, the name and the place.
    fn row(self) -> (u8, &'static str, Option<usize>)
        ensures { (result.0, result.1.now, result.2) ≡ fault_row self }
    {
        match self {
            ReFault::TrailingBackslash { place } => (1, "trailing-backslash", Some(place)),
            ReFault::BadEscape { place } => (2, "bad-escape", Some(place)),
            ReFault::UnclosedBracket { place } => (3, "unclosed-bracket", Some(place)),
            ReFault::BadBracket { place } => (4, "bad-bracket", Some(place)),
            ReFault::EmptySet { place } => (5, "empty-set", Some(place)),
            ReFault::UnclosedGroup { place } => (6, "unclosed-group", Some(place)),
            ReFault::UnopenedGroup { place } => (7, "unopened-group", Some(place)),
            ReFault::BadInterval { place } => (8, "bad-interval", Some(place)),
            ReFault::NothingToRepeat { place } => (9, "nothing-to-repeat", Some(place)),
            ReFault::DoubleRepeat { place } => (10, "double-repeat", Some(place)),
            ReFault::BadReference { place } => (11, "bad-reference", Some(place)),
            ReFault::TooDeep { place } => (12, "too-deep", Some(place)),
            ReFault::TooManyGroups { place } => (13, "too-many-groups", Some(place)),
            ReFault::OutOfMemory => (14, "out-of-memory", None),
        }
    }
}

impl fmt::Display for ReFault {
    ghost use Rattle.sedck_expressions.specs.FaultWords.{fault_words};

    ghost output = { λ fault. Some (fault_words fault) };

    fn fmt<W: fmt::Write>(&self, f: &mut fmt::Formatter<W>) -> fmt::Result {
        let number = self.number();
        let name = self.name();
        match self.place() {
            Some(place) => write!(f, "fault {number} {name} at {place}"),
            None => write!(f, "fault {number} {name}"),
        }
    }
}

impl From<AllocError> for ReFault {
    ghost from_gives = { λ _ e. e ≡ OutOfMemory };

    fn from(_e: AllocError) -> ReFault {
        ReFault::OutOfMemory
    }
}

impl<T: Drop> From<AllocFailed<T>> for ReFault {
    ghost from_gives = { λ _ e. e ≡ OutOfMemory };

    fn from(_e: AllocFailed<T>) -> ReFault {
        ReFault::OutOfMemory
    }
}
