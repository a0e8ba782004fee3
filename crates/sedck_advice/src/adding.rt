//! All warnings of a script.

ghost use Rattle.std.specs.Prelude.{OnOk};
ghost use Rattle.sedck_advice.specs.Added.{AddsOthers};

use crate::ignored::{Word, unknown_warnings};
use crate::labels::label_looks;
use crate::lists::list_looks;
use crate::looks::{looks_of, push_looks};
use crate::names::{NamedFiles, name_warnings};
use sedck_report::Finding;
use sedck_script::Location;
use std::alloc::{AllocError, Global};

/// A script that was read.
#[derive(Clone, Copy)]
pub struct ReadScript<'a> {
    pub text: &'a [u8],
    pub locations: &'a [Location],
    pub files: NamedFiles<'a>,
    /// The words of comments that ignore warnings.
    pub words: &'a [Word<'a>],
}

/// Adds the warnings of the script's looks, of its lists, of the names of its files, and of words in its comments that ignore nothing; and
/// the notes of its labels.
pub fn add_warnings(
    alloc: Global,
    findings: &mut Vec<Finding>,
    script: ReadScript,
) -> Result<(), AllocError>
    ensures { OnOk result (AddsOthers findings.old.items findings.new.items) }
{
    let ReadScript {
        text,
        locations,
        ..
    } = script;
    push_looks(alloc, findings, &looks_of(alloc, text, locations)?)?;
    push_looks(alloc, findings, &list_looks(alloc, text, locations)?)?;
    name_warnings(alloc, findings, script.files)?;
    unknown_warnings(alloc, findings, text, script.words)?;
    push_looks(alloc, findings, &label_looks(alloc, text, locations)?)
}
