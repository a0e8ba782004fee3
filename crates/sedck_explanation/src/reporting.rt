//! From the findings to the order in which they are reported: without those that the script ignores, and each with its end.

ghost use Rattle.std.specs.Prelude.{◌≡◌, false, true, IfOk};
ghost use Rattle.sedck_report.specs.Levels.{is_error, is_locale};
ghost use Rattle.sedck_errors.specs.Denials.{denies};
ghost use Rattle.sedck_explanation.specs.Private.Reporting.{AreReported};

use sedck_advice::{Word, is_kept};
use sedck_errors::{DeniedWarnings, with_end};
use sedck_report::{Code, Finding, Level};
use sedck_script::Location;
use std::alloc::{AllocError, Global};

/// The codes that a script ignores, and what the caller denies, which no script silences.
#[derive(Clone, Copy)]
pub(crate) struct Silence<'a> {
    pub ignored: &'a [Code],
    pub denied: DeniedWarnings,
}

/// The errors, then the warnings, then the notes, in the order in which they were found, without the warnings and notes that are
/// silenced.
pub(crate) fn reported(
    alloc: Global,
    text: &[u8],
    locations: &[Location],
    findings: Vec<Finding>,
    silence: Silence,
) -> Result<Vec<Finding>, AllocError>
    ensures { IfOk result (λ all. AreReported text.now silence.entry.denied findings.items all.items) }
{
    let mut errors = Vec::new(alloc);
    let mut warnings = Vec::new(alloc);
    let mut notes = Vec::new(alloc);
    for finding in findings {
        if is_ignored(&finding, silence) {
            continue;
        }
        let finding = with_end(text, locations, finding);
        match finding.level {
            Level::Error => errors.push(finding)?,
            Level::Warning => warnings.push(finding)?,
            Level::Note => notes.push(finding)?,
        }
    }
    warnings.append(&mut notes)?;
    errors.append(&mut warnings)?;
    Ok(errors)
}

/// Whether the finding is left out: no error ever is, nothing on which a yes rests, and nothing that is denied.
fn is_ignored(finding: &Finding, silence: Silence) -> bool
    ensures error { is_error finding.now.level ≡ true → result ≡ false }
    ensures locale { is_locale finding.now.code ≡ true → result ≡ false }
    ensures denied { denies silence.entry.denied finding.now.code ≡ true → result ≡ false }
{
    !finding.is_error()
        && !is_kept(finding.code)
        && !silence.denied.denies(finding.code)
        && silence
            .ignored
            .iter()
            .any(|code| code.is_named_as(finding.code))
}

/// The codes to be ignored, each once.
pub(crate) fn ignored_codes(alloc: Global, words: &[Word]) -> Result<Vec<Code>, AllocError> {
    let mut codes: Vec<Code> = Vec::new(alloc);
    for word in words {
        if let Some(code) = word.code()
            && !codes.iter().any(|known| known.is_named_as(code))
        {
            codes.push(code)?;
        }
    }
    Ok(codes)
}
