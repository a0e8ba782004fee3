//! What finds the calls in a file.

ghost use Rattle.std.specs.Prelude.{None};

use sedck_calls_in_files::{File, Finder};
use sedck_find::calls_in;
use sedck_found::{Assumptions, Found};
use std::alloc::{AllocError, Global};

/// Finds what the shell would run. That these are all of the calls is tested only.
#[derive(Clone, Copy)]
pub struct AsTheShell;

impl Finder for AsTheShell {
    ghost found = { λ _ _ _. None };

    fn find(&self, alloc: Global, file: &File, assumed: Assumptions) -> Result<Found, AllocError> {
        calls_in(alloc, file.kind, file.path, file.text, assumed)
    }
}
