//! Scripts whose commands have their own delimiters in lists, with other delimiters: as GNU sed, BusyBox and toybox read them.

ghost use Rattle.std.specs.Prelude.{◌≡◌, true, IfOk, IfSome};
ghost use Rattle.sedck_plain.specs.Mended.{IsMended};

use crate::conditions::{placed, warnings_of};
use sedck_explanation::{Explanation, Finding, Status};
use sedck_parts::{Mend, Reading, escapes_delimiter, mends_in};
use sedck_plain::is_mended;
use sedck_report::positions;
use std::alloc::{AllocError, Global};

/// A script with other delimiters.
#[derive(Drop)]
pub(crate) struct Mended {
    pub(crate) text: Vec<u8>,
    /// Where each of its bytes is in the text that was given, and where that ends.
    offsets: Vec<usize>,
    mends: Vec<Mend>,
}

/// The text of a script of this status with another delimiter for each command that has its own in a list, where that is asked for, the
/// script is refused and there is such a command. Which text that is isn't trusted: `is_mended` compares it with the given one.
pub(crate) fn mend_of(
    alloc: Global,
    mends: bool,
    text: &[u8],
    status: Status,
) -> Result<Option<Mended>, AllocError>
    ensures { IfOk result (λ found. IfSome found (λ mended. (mends ≡ true) × (status ≡ Status.Refused) × IsMended text.now mended.text.items)) }
{
    if !mends {
        return Ok(None);
    }
    let Status::Refused = status else {
        return Ok(None);
    };
    let found = mends_in(alloc, text)?;
    if found.is_empty() {
        return Ok(None);
    }
    let mended = mended_by(alloc, text, found)?;
    if !is_mended(alloc, text, &mended.text)? {
        return Ok(None);
    }
    Ok(Some(mended))
}

/// The text with another delimiter for each of these commands. Escaped delimiters of such a command lose their backslashes.
fn mended_by(alloc: Global, text: &[u8], mends: Vec<Mend>) -> Result<Mended, AllocError> {
    let mut mended = Mended {
        text: Vec::new(alloc),
        offsets: Vec::new(alloc),
        mends,
    };
    let mut reading = Reading::SCRIPT;
    for (offset, byte) in text.iter().enumerate() {
        reading = reading.after(*byte);
        let next = text.get(offset.saturating_add(1));
        match mended.mend_by(offset) {
            Some(mend) if mend.has(offset) => mended.add_delimiter(mend, offset)?,
            Some(mend) if mend.is_around(offset) && escapes_delimiter(reading, next) => {}
            _ => mended.add(*byte, offset)?,
        }
    }
    mended.offsets.push(text.len())?;
    Ok(mended)
}

impl Mended {
    /// The first command that doesn't end before this offset of the text that was given.
    fn mend_by(&self, offset: usize) -> Option<Mend> {
        let place = self.mends.partition_point(|mend| mend.last < offset);
        self.mends.get(place).copied()
    }

    /// Adds the other delimiter in place of the one at this offset. An address between slashes gets a backslash before it.
    fn add_delimiter(&mut self, mend: Mend, offset: usize) -> Result<(), AllocError> {
        if mend.is_bare && offset == mend.first {
            self.add(b'\\', offset)?;
        }
        self.add(mend.other, offset)
    }

    /// Adds a byte that is at this offset of the text that was given.
    fn add(&mut self, byte: u8, offset: usize) -> Result<(), AllocError> {
        self.text.push(byte)?;
        self.offsets.push(offset)?;
        Ok(())
    }

    /// What is said of this script as it is reported of the text that was given: with the positions there, and with a warning for each command
    /// that has another delimiter.
    pub(crate) fn reported<'a>(
        &self,
        alloc: Global,
        text: &'a [u8],
        explanation: Explanation<'a>,
    ) -> Result<Explanation<'a>, AllocError>
        ensures status { IfOk result (λ e. e.status ≡ explanation.entry.status) }
        ensures script { IfOk result (λ e. e.script ≡ explanation.entry.script) }
        ensures source { IfOk result (λ e. e.source.now ≡ explanation.entry.source.now) }
    {
        let places = positions(alloc, text, &self.offsets)?;
        let warnings = warnings_of(alloc, text, &self.mends)?;
        let mut explanation = placed(text, &places, explanation);
        let found = std::mem::replace(&mut explanation.findings, Vec::new(alloc));
        explanation.findings = with_warnings(alloc, found, warnings)?;
        Ok(explanation)
    }
}

/// The findings with these warnings after the errors.
fn with_warnings(
    alloc: Global,
    findings: Vec<Finding>,
    warnings: Vec<Finding>,
) -> Result<Vec<Finding>, AllocError> {
    let mut all = Vec::new(alloc);
    let mut warnings = warnings;
    for finding in findings {
        if !finding.is_error() {
            all.append(&mut warnings)?;
        }
        all.push(finding)?;
    }
    all.append(&mut warnings)?;
    Ok(all)
}
