//! Exit statuses.

ghost use Rattle.std.specs.Prelude.{◌≡◌};
ghost use Rattle.sedck_answer.specs.Status.{code_of, is_accepted, worse, severity};

/// How the program ends.
#[derive(Clone, Copy)]
pub enum Status {
    Accepted,
    /// A certificate is rejected, a loop rules all out, or something is denied.
    Rejected,
    /// A text is refused, or isn't judged.
    Refused,
    /// The words of the command line are refused.
    Misused,
    /// A file can't be read, a write fails, or memory runs out.
    Failed,
    /// Something is unknown before a run.
    Unknown,
}

impl Status {
    /// The number that the program ends with.
    pub fn code(self) -> u8
        ensures { result ≡ code_of self }
    {
        self as u8
    }

    /// Whether it is a yes.
    pub fn is_accepted(self) -> bool
        ensures { result ≡ is_accepted self }
    {
        matches!(self, Status::Accepted)
    }

    /// The worse one, of this and the other one.
    pub fn worse(self, other: Status) -> Status
        ensures { result ≡ worse self other }
    {
        if self.severity() >= other.severity() {
            self
        } else {
            other
        }
    }

    /// How bad it is.
    fn severity(self) -> u8
        ensures { result ≡ severity self }
    {
        match self {
            Status::Accepted => 0,
            Status::Unknown => 1,
            Status::Rejected => 2,
            Status::Refused => 3,
            Status::Misused | Status::Failed => 4,
        }
    }
}
