//! What the program works with, and what is asked of it.

use crate::format::Style;
use crate::request::Request;
use std::alloc::{AllocGlobal, Global};

/// What the program works with, and what is asked of it.
#[derive(Drop)]
pub struct Session<'a, 'b, 'c, R, O, F> {
    /// Memory, standard input and the folders of the system.
    pub rt: &'a R,
    /// What opens files.
    pub files: &'a O,
    /// What finds calls of sed in a file.
    pub finder: &'a F,
    pub request: &'b Request<'c>,
    /// Whether the output is shown in colours of ANSI terminals.
    pub colour: bool,
}

impl<R: AllocGlobal, O, F> Session<'_, '_, '_, R, O, F> {
    ghost use Rattle.std.specs.Prelude.{◌≡◌};

    pub(crate) fn alloc(&self) -> Global {
        self.rt.alloc()
    }

    /// How reports look.
    pub(crate) fn style(&self) -> Style
        ensures { result.format ≡ self.now.request.now.format }
    {
        Style {
            format: self.request.format,
            colour: self.colour,
            least: self.request.least,
        }
    }
}
