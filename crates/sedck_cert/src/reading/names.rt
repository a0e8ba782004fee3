//! The lists of names.

ghost use Rattle.std.specs.Prelude.{◌≡◌, ◌⊎◌, ◌+◌, ◌≤◌, ◌++◌, decimal, ℕ, List, [], ◌∷◌, length, Option, IfOk, IfErr};
ghost use Rattle.sedck_cert.specs.View.{names_of};
ghost use Rattle.sedck_cert.specs.declared.versions.Version.{Version};
ghost use Rattle.sedck_cert.specs.Faults.{Names, Name, list_word, after_list, names_due};
ghost use Rattle.sedck_cert.specs.Private.Reading.{Leads, Stops, list_texts, one_before};

use super::CertFault;
use super::frame::next_count;
use super::lines::Lines;
use crate::certificate::is_next_name;
use crate::limits::NAMES_LIMIT;
use std::alloc::Global;

/// Which of the two lists of files.
#[derive(Clone, Copy)]
pub enum Files {
    Reads,
    Writes,
}

impl Files {
    /// What is before the count of the list.
    fn word(self) -> &'static [u8]
        ensures { result.now ≡ list_word self }
    {
        match self {
            Files::Reads => b"read ",
            Files::Writes => b"write ",
        }
    }
}

/// The names of the list, and the bytes of all names so far.
pub fn names(
    alloc: Global,
    lines: &mut Lines,
    files: Files,
    mut size: usize,
) -> Result<(Vec<Vec<u8>>, usize), CertFault>
    requires { size ≤ NAMES_LIMIT }
    ensures read { IfOk result (λ r. (v : Version) → Leads v (Names files size) lines.old (list_texts files (names_of r.0.items)) lines.new
        (after_list files r.1)) }
    ensures within { IfOk result (λ r. r.1 ≤ NAMES_LIMIT) }
    ensures count { IfOk result (λ r. length r.0.items ≤ 4095) }
    ensures refused { IfErr result (λ fault. (v : Version) → (fault ≡ CertFault.OutOfMemory) ⊎ Stops v (Names files size) lines.old fault) }
{
    let count = usize::from(list_count(lines, files)?);
    let mut names = Vec::with_capacity(alloc, count)?;
    let mut before = None;
    while names.len() < count {
        let name = name_line(lines, before, size)?;
        size += name.len() + 1;
        names.push(Vec::from_slice(alloc, name)?)?;
        before = Some(name);
    }
    Ok((names, size))
}

/// How many names the list has.
fn list_count(lines: &mut Lines, files: Files) -> Result<u16, CertFault>
    ensures limit { IfOk result (λ n. n ≤ 4095) }
    ensures read { IfOk result (λ n. (v : Version) (size : ℕ)
        → Leads v (Names files size) lines.old ((list_word files ++ decimal n) ∷ []) lines.new (names_due files n [] size)) }
    ensures refused { IfErr result (λ fault. (v : Version) (size : ℕ) → Stops v (Names files size) lines.old fault) }
{
    let line = lines.number;
    next_count(lines, files.word()).ok_or(CertFault::BadNames { line })
}

/// The name in the next line, where names of this many bytes came before it.
fn name_line<'a>(
    lines: &mut Lines<'a>,
    before: Option<&[u8]>,
    size: usize,
) -> Result<&'a [u8], CertFault>
    requires { size ≤ NAMES_LIMIT }
    ensures within { IfOk result (λ name. size + length name.now + 1 ≤ NAMES_LIMIT) }
    ensures read { IfOk result (λ name. (v : Version) (files : Files) (left : ℕ)
        → Leads v (Name files left (one_before before.entry) size) lines.old (name.now ∷ []) lines.new
        (names_due files left (name.now ∷ []) (size + length name.now + 1))) }
    ensures refused { IfErr result (λ fault. (v : Version) (files : Files) (left : ℕ)
        → Stops v (Name files left (one_before before.entry) size) lines.old fault) }
{
    let fault = CertFault::BadNames { line: lines.number };
    let Some(name) = lines.next() else {
        return Err(fault);
    };
    if is_next_name(before, name, size) {
        Ok(name)
    } else {
        Err(fault)
    }
}
