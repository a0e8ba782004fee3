//! The limit on the names of a certificate, and those on the steps of a run and on its spaces. The functions that answer them are in other files: a
//! type and a function whose names differ only in case can't be in one file.

ghost use Rattle.std.specs.Prelude.{◌≡◌};
ghost use Rattle.sedck_cert.specs.Limits.{is_unbounded as unbounded, is_growing as growing};

/// A limit on the steps of any run, or on the bytes of a space in it: `per_byte` for each byte of the input's lines, newlines not counted,
/// `per_line` for each line, plus `fixed`.
#[derive(Clone, Copy, PartialEq, Eq)]
pub struct Bound {
    pub per_byte: u64,
    pub per_line: u64,
    pub fixed: u64,
}

/// The limits that are known of a script's runs.
#[derive(Clone, Copy, PartialEq, Eq)]
pub struct Limits {
    /// On the steps, by the bytes and the lines of the input.
    pub steps: Option<Bound>,
    /// On the steps, by the lines alone.
    pub by_lines: Option<Bound>,
    /// On the bytes of each space.
    pub spaces: Option<Bound>,
}

impl Limits {
    /// Whether no limit on the steps is known.
    pub fn is_unbounded(self) -> bool
        ensures { result ≡ unbounded self }
    {
        self.steps.is_none() && self.by_lines.is_none()
    }

    /// Whether no limit on the lengths of the spaces is known.
    pub fn is_growing(self) -> bool
        ensures { result ≡ growing self }
    {
        self.spaces.is_none()
    }
}

/// The most bytes that the names of both lists take, with a newline each.
pub const NAMES_LIMIT: usize = 1_048_576;
