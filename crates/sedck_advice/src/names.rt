//! The files that a script names, and the names at which a reader should look twice.

ghost use Rattle.std.specs.Prelude.{◌≡◌, true, false, IfOk, OnOk, map};
ghost use Rattle.sedck_report.specs.Levels.{is_locale};
ghost use Rattle.sedck_report.specs.Files.{names_of};
ghost use Rattle.sedck_advice.specs.Added.{AddsOthers};

use crate::doubts::{DOUBTS, is_doubtful, reason_of};
use crate::paths::{Paths, has_name};
use sedck_report::{Code, Finding, Level, NamedFile, Position, shown_name};
use sedck_script::{Access, Script, name_of};
use std::alloc::{AllocError, Global};

/// The names in this order, each with the positions of the commands that name it. The names are sorted.
pub fn named_files<'a>(
    alloc: Global,
    names: &[&'a [u8]],
    script: &Script<'a>,
    positions: &[Position],
    access: Access,
) -> Result<Vec<NamedFile<'a>>, AllocError>
    ensures { IfOk result (λ files. names_of files.items ≡ map (λ name. name.now) names.now) }
{
    let mut files = unplaced_files(alloc, names)?;
    for (command, position) in script.commands().iter().zip(positions) {
        let Some(name) = name_of(command, access) else {
            continue;
        };
        let Ok(index) = names.binary_search(&name) else {
            continue;
        };
        if index < files.len() {
            files[index].positions.push(*position)?;
        }
    }
    Ok(files)
}

/// The names in this order, without positions yet.
fn unplaced_files<'a>(alloc: Global, names: &[&'a [u8]]) -> Result<Vec<NamedFile<'a>>, AllocError>
    ensures { IfOk result (λ files. names_of files.items ≡ map (λ name. name.now) names.now) }
{
    let mut files = Vec::new(alloc);
    for name in names {
        files.push(NamedFile {
            name,
            positions: Vec::new(alloc),
        })?;
    }
    Ok(files)
}

/// The files of a script: the paths of its own ones, the operands of its call, and those that it names.
#[derive(Clone, Copy)]
pub struct NamedFiles<'a> {
    pub own: &'a [&'a [u8]],
    pub inputs: &'a [&'a [u8]],
    pub reads: &'a [NamedFile<'a>],
    pub writes: &'a [NamedFile<'a>],
}

/// A name at which a reader should look twice.
#[derive(Clone, Copy)]
struct Doubt<'a> {
    file: &'a NamedFile<'a>,
    access: Access,
    code: Code,
    ghost other: { is_locale code ≡ false },
}

/// A warning for each name at which a reader should look twice, and each reason for it.
pub(crate) fn name_warnings(
    alloc: Global,
    findings: &mut Vec<Finding>,
    files: NamedFiles,
) -> Result<(), AllocError>
    ensures { OnOk result (AddsOthers findings.old.items findings.new.items) }
{
    let doubts = doubts_of(alloc, files)?;
    for doubt in &doubts {
        push_warning(alloc, findings, *doubt)?;
    }
    Ok(())
}

/// The reasons to look twice at names: first at those that are read.
fn doubts_of<'a>(alloc: Global, files: NamedFiles<'a>) -> Result<Vec<Doubt<'a>>, AllocError> {
    let paths = Paths::of(alloc, files)?;
    let mut doubts = Vec::new(alloc);
    for file in files.reads {
        push_doubts(alloc, &mut doubts, &paths, file, Access::Read)?;
    }
    for file in files.writes {
        push_doubts(alloc, &mut doubts, &paths, file, Access::Write)?;
    }
    Ok(doubts)
}

/// Adds the reasons to look twice at this name.
fn push_doubts<'a>(
    alloc: Global,
    doubts: &mut Vec<Doubt<'a>>,
    paths: &Paths<'a>,
    file: &'a NamedFile<'a>,
    access: Access,
) -> Result<(), AllocError> {
    let name = file.name;
    let is_written = matches!(access, Access::Write);
    for code in DOUBTS {
        let is_meant = match *code {
            // What is read of both is no matter.
            Code::ReadAndWritten => is_written && has_name(paths.files.reads, name),
            Code::NamesItself => is_written && paths.is_own(name),
            Code::WritesItsInput => is_written && paths.is_input(alloc, name)?,
            Code::SameFile => paths.is_shared(alloc, name)?,
            // What is read is a file to each sed.
            Code::StreamName => is_written && is_doubtful(Code::StreamName, name),
            Code::DeviceName => is_device(name, is_written),
            code => is_doubtful(code, name),
        };
        if is_meant {
            doubts.push(Doubt {
                file,
                access,
                code: *code,
            })?;
        }
    }
    Ok(())
}

/// Whether the name is one of a device, unless it is written and some seds take it for a stream.
fn is_device(name: &[u8], is_written: bool) -> bool {
    is_doubtful(Code::DeviceName, name) && !(is_written && is_doubtful(Code::StreamName, name))
}

/// Adds the warning on the name for this reason, at the first command that names it.
fn push_warning(alloc: Global, findings: &mut Vec<Finding>, doubt: Doubt) -> Result<(), AllocError>
    ensures { OnOk result (AddsOthers findings.old.items findings.new.items) }
{
    let does = match doubt.access {
        Access::Read => "reads",
        Access::Write => "writes",
    };
    let name = shown_name(alloc, doubt.file.name)?;
    let reason = reason_of(doubt.code);
    let message = format!(in alloc; "this {does} \"{name}\": {reason}")?;
    let mut finding = Finding::new(alloc, Level::Warning, doubt.code, message);
    finding.position = doubt.file.positions.first().copied();
    findings.push(finding)?;
    Ok(())
}
