//! What a caller denies of an accepted script, and what is reported of it.

ghost use Rattle.std.specs.Prelude.{◌≡◌, ◌&&◌, ◌||◌, true, false, IfOk, OnOk};
ghost use Rattle.std.specs.Option.{is_some};
ghost use Rattle.sedck_cert.specs.Limits.{is_unbounded, is_growing};
ghost use Rattle.sedck_report.specs.Levels.{has_warning, is_warning, has_locale, has_error, is_error, warns_of};
ghost use Rattle.sedck_report.specs.Files.{is_there};
ghost use Rattle.sedck_errors.specs.Denials.{denies};

use crate::warnings::{DeniedWarnings, is_denied};
use sedck_advice::Slow;
use sedck_cert::{Cert, Limits};
use sedck_report::{Code, Finding, Level, NamedFile, Position, shown_name};
use std::alloc::{AllocError, Global};

/// What an accepted script may not have, and what the caller knows of the locale in which it runs.
#[derive(Clone, Copy, PartialEq, Eq)]
pub struct Denied {
    /// A file that it reads.
    pub reads: bool,
    /// A file that it writes.
    pub writes: bool,
    /// Findings of the level of warnings, by their codes.
    pub warnings: DeniedWarnings,
    /// Steps without a known limit.
    pub unbounded: bool,
    /// Spaces without a known limit on their lengths.
    pub growing: bool,
    /// Expressions with which matching may take very long.
    pub slow: bool,
    /// References to groups in expressions.
    pub references: bool,
    /// The locale is C or POSIX, where a character is a byte: so nothing is warned of what is read otherwise in UTF-8.
    pub c_locale: bool,
}

impl Denied {
    /// All is allowed, in any locale.
    pub const NOTHING: Denied = Denied {
        reads: false,
        writes: false,
        warnings: DeniedWarnings::NONE,
        unbounded: false,
        growing: false,
        slow: false,
        references: false,
        c_locale: false,
    };
}

/// Whether a file is read.
pub fn has_reads(cert: &Cert) -> bool
    ensures { result ≡ is_there cert.now.reads }
{
    !cert.reads().is_empty()
}

/// Whether a file is written.
pub fn has_writes(cert: &Cert) -> bool
    ensures { result ≡ is_there cert.now.writes }
{
    !cert.writes().is_empty()
}

/// What an accepted script has that may be denied, beside its findings.
#[derive(Clone, Copy)]
pub struct Deniable<'a> {
    pub reads: &'a [NamedFile<'a>],
    pub writes: &'a [NamedFile<'a>],
    pub limits: Limits,
    pub slow: Option<Slow>,
    /// Where the expressions with a reference are.
    pub references: &'a [Position],
}

/// The findings on an accepted script after an error for each thing that is denied and there.
pub fn with_denials(
    alloc: Global,
    mut findings: Vec<Finding>,
    denied: Denied,
    has: Deniable,
) -> Result<Vec<Finding>, AllocError>
    // There is an error where something is denied and there, or was one before; all warnings are kept.
    ensures errors { IfOk result (λ all. has_error all.items ≡ ((denied.reads && is_there has.entry.reads.now)
        || (denied.writes && is_there has.entry.writes.now) || (denied.unbounded && is_unbounded has.entry.limits)
        || (denied.growing && is_growing has.entry.limits) || warns_of (denies denied.warnings) findings.items
        || (denied.slow && is_some has.entry.slow) || (denied.references && is_there has.entry.references.now) || has_error findings.items)) }
    ensures warnings { IfOk result (λ all. has_warning all.items ≡ has_warning findings.items) }
    ensures denied { IfOk result (λ all. warns_of (denies denied.warnings) all.items ≡ warns_of (denies denied.warnings) findings.items) }
    ensures locale { IfOk result (λ all. has_locale all.items ≡ has_locale findings.items) }
{
    let mut all = Vec::new(alloc);
    push_files(alloc, &mut all, denied.reads, has.reads, Code::DeniedReads)?;
    push_files(
        alloc,
        &mut all,
        denied.writes,
        has.writes,
        Code::DeniedWrites,
    )?;
    let is_unbounded = denied.unbounded && has.limits.is_unbounded();
    push_missing_limit(
        alloc,
        &mut all,
        is_unbounded,
        Code::DeniedUnbounded,
        &findings,
    )?;
    let is_growing = denied.growing && has.limits.is_growing();
    push_missing_limit(alloc, &mut all, is_growing, Code::DeniedGrowing, &findings)?;
    push_warnings(alloc, &mut all, denied.warnings, &findings)?;
    push_slow(alloc, &mut all, denied.slow, has.slow)?;
    push_references(alloc, &mut all, denied.references, has.references)?;
    all.append(&mut findings)?;
    Ok(all)
}

/// Adds an error for each of the files, at the first command that names it, where they are denied.
fn push_files(
    alloc: Global,
    findings: &mut Vec<Finding>,
    is_denied: bool,
    files: &[NamedFile],
    code: Code,
) -> Result<(), AllocError>
    ensures errors { OnOk result (has_error findings.new.items ≡ (has_error findings.old.items || (is_denied && is_there files.now))) }
    ensures warnings { OnOk result (has_warning findings.new.items ≡ has_warning findings.old.items) }
    ensures locale { OnOk result (has_locale findings.new.items ≡ has_locale findings.old.items) }
{
    if is_denied {
        let does = match code {
            Code::DeniedReads => "reads",
            _ => "writes",
        };
        return push_each_file(alloc, findings, files, code, does);
    }
    Ok(())
}

/// Adds an error for each of the files, at the first command that names it.
fn push_each_file(
    alloc: Global,
    findings: &mut Vec<Finding>,
    files: &[NamedFile],
    code: Code,
    does: &'static str,
) -> Result<(), AllocError>
    ensures errors { OnOk result (has_error findings.new.items ≡ (has_error findings.old.items || is_there files.now)) }
    ensures warnings { OnOk result (has_warning findings.new.items ≡ has_warning findings.old.items) }
    ensures locale { OnOk result (has_locale findings.new.items ≡ has_locale findings.old.items) }
{
    for file in files {
        let name = shown_name(alloc, file.name)?;
        let message = format!(in alloc; "this {does} \"{name}\", which `--deny {does}` forbids")?;
        findings.push(denial(alloc, code, file.positions.first().copied(), message))?;
    }
    Ok(())
}

/// Adds an error for each warning that is denied, at its place.
fn push_warnings(
    alloc: Global,
    findings: &mut Vec<Finding>,
    denied: DeniedWarnings,
    given: &[Finding],
) -> Result<(), AllocError>
    ensures errors { OnOk result (has_error findings.new.items ≡ (has_error findings.old.items || warns_of (denies denied) given.now)) }
    ensures warnings { OnOk result (has_warning findings.new.items ≡ has_warning findings.old.items) }
    ensures locale { OnOk result (has_locale findings.new.items ≡ has_locale findings.old.items) }
{
    for finding in given {
        if is_denied(finding, denied) {
            let code = finding.code.name();
            let word = if denied.others { "warnings" } else { code };
            let message = format!(in alloc;
                "this has the warning `{code}`, which `--deny {word}` forbids"
            )?;
            let mut error = denial(alloc, Code::DeniedWarnings, finding.position, message);
            error.end = finding.end;
            findings.push(error)?;
        }
    }
    Ok(())
}

/// Adds an error for a script that is slow, where it is, and where that is denied.
fn push_slow(
    alloc: Global,
    findings: &mut Vec<Finding>,
    is_denied: bool,
    slow: Option<Slow>,
) -> Result<(), AllocError>
    ensures errors { OnOk result (has_error findings.new.items ≡ (has_error findings.old.items || (is_denied && is_some slow))) }
    ensures warnings { OnOk result (has_warning findings.new.items ≡ has_warning findings.old.items) }
    ensures locale { OnOk result (has_locale findings.new.items ≡ has_locale findings.old.items) }
{
    match slow {
        Some(slow) if is_denied => {
            let reason = slow.reason;
            let message = format!(in alloc; "{reason}, which `--deny slow` forbids")?;
            findings.push(denial(alloc, Code::DeniedSlow, slow.position, message))?;
            Ok(())
        }
        _ => Ok(()),
    }
}

/// Adds an error for each of these places of expressions with a reference, where they are denied.
fn push_references(
    alloc: Global,
    findings: &mut Vec<Finding>,
    is_denied: bool,
    places: &[Position],
) -> Result<(), AllocError>
    ensures errors { OnOk result (has_error findings.new.items ≡ (has_error findings.old.items || (is_denied && is_there places.now))) }
    ensures warnings { OnOk result (has_warning findings.new.items ≡ has_warning findings.old.items) }
    ensures locale { OnOk result (has_locale findings.new.items ≡ has_locale findings.old.items) }
{
    if is_denied {
        return push_each_reference(alloc, findings, places);
    }
    Ok(())
}

/// Adds an error for each of these places of expressions with a reference.
fn push_each_reference(
    alloc: Global,
    findings: &mut Vec<Finding>,
    places: &[Position],
) -> Result<(), AllocError>
    ensures errors { OnOk result (has_error findings.new.items ≡ (has_error findings.old.items || is_there places.now)) }
    ensures warnings { OnOk result (has_warning findings.new.items ≡ has_warning findings.old.items) }
    ensures locale { OnOk result (has_locale findings.new.items ≡ has_locale findings.old.items) }
{
    for place in places {
        let message = String::from_str(
            alloc,
            "this expression has a reference to a group, which `--deny references` forbids",
        )?;
        findings.push(denial(alloc, Code::DeniedReferences, Some(*place), message))?;
    }
    Ok(())
}

/// Adds an error where a limit is missing and that is denied.
fn push_missing_limit(
    alloc: Global,
    findings: &mut Vec<Finding>,
    is_denied: bool,
    code: Code,
    given: &[Finding],
) -> Result<(), AllocError>
    ensures errors { OnOk result (has_error findings.new.items ≡ (has_error findings.old.items || is_denied)) }
    ensures warnings { OnOk result (has_warning findings.new.items ≡ has_warning findings.old.items) }
    ensures locale { OnOk result (has_locale findings.new.items ≡ has_locale findings.old.items) }
{
    if is_denied {
        findings.push(missing_limit(alloc, code, given)?)?;
    }
    Ok(())
}

/// The error where a limit is missing, at the place of the note that says so.
fn missing_limit(alloc: Global, code: Code, findings: &[Finding]) -> Result<Finding, AllocError>
    ensures error { IfOk result (λ finding. is_error finding.level ≡ true) }
    ensures warning { IfOk result (λ finding. is_warning finding.level ≡ false) }
{
    let position = findings
        .iter()
        .find(|finding| matches!(finding.code, Code::NoBound | Code::NoSpaceBound))
        .and_then(|finding| finding.position);
    let words = match code {
        Code::DeniedUnbounded => "no limit on the steps is known, which `--deny unbounded` forbids",
        _ => "no limit on the memory is known, which `--deny growing` forbids",
    };
    Ok(denial(alloc, code, position, String::from_str(alloc, words)?))
}

/// An error on something that is denied.
fn denial(alloc: Global, code: Code, position: Option<Position>, message: String) -> Finding
    ensures error { is_error result.level ≡ true }
    ensures warning { is_warning result.level ≡ false }
{
    let mut finding = Finding::new(alloc, Level::Error, code, message);
    finding.position = position;
    finding
}
