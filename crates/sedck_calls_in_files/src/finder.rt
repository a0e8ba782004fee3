//! What finds the calls in a file.

ghost use Rattle.std.specs.Prelude.{◌≡◌, List, ℕ, Option, None, IfOk, IfSome};
ghost use Rattle.sedck_calls_in_files.specs.Scanned.{Holds, IsFound};

use crate::request::File;
use sedck_found::{Assumptions, Found};
use std::alloc::{AllocError, Global};

/// What finds the calls of sed in a file.
pub trait Finder {
    /// What it finds in the file at this path with these bytes, where that is known.
    ghost found: { Self → List ℕ → List ℕ → Option Holds };

    /// The calls in the file, of which this is assumed.
    fn find(&self, alloc: Global, file: &File, assumed: Assumptions) -> Result<Found, AllocError>
        ensures { IfOk result (λ all. IfSome (found self.now file.now.path.now file.now.text.now) (IsFound all)) };
}
