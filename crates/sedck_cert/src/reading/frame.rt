//! The lines in front of the nodes, and the last one.

ghost use Rattle.std.specs.Prelude.{◌≡◌, ◌++◌, ◌≤◌, ◌+◌, ◌*◌, ℕ, List, [], ◌∷◌, MatchOption, IfOk, IfErr, OnOk, decimal, codes};
ghost use Rattle.std.specs.Bool.{OnTrue, OnFalse};
ghost use Rattle.sedck_text.specs.Bytes.{newline};
ghost use Rattle.sedck_cert.specs.Certificate.{nodes_in};
ghost use Rattle.sedck_cert.specs.Text.{header as header_of};
ghost use Rattle.sedck_cert.specs.declared.versions.Version.{Version};
ghost use Rattle.sedck_cert.specs.Private.Cuts.{IsCut};
ghost use Rattle.sedck_cert.specs.Faults.{Header, Count, Last, Nothing, nodes_due};
ghost use Rattle.sedck_cert.specs.Private.Reading.{IsNext, Leads, Stops};

use super::CertFault;
use super::lines::Lines;
use super::numbers::count;
use crate::versions::Version;

/// The line that says the version.
pub fn header(lines: &mut Lines, version: Version) -> Result<(), CertFault>
    ensures read { OnOk result (Leads version Header lines.old (header_of version ∷ []) lines.new Count) }
    ensures refused { IfErr result (Stops version Header lines.old) }
{
    let line = lines.number;
    if next_is(lines, version.header()) {
        Ok(())
    } else {
        Err(CertFault::BadHeader { line })
    }
}

/// The number of commands.
pub fn command_count(lines: &mut Lines, version: Version) -> Result<u16, CertFault>
    ensures read { IfOk result (λ n. (n ≤ 4095) × Leads version Count lines.old ((codes "commands " ++ decimal n) ∷ []) lines.new
        (nodes_due 0 (nodes_in version n))) }
    ensures refused { IfErr result (Stops version Count lines.old) }
{
    let line = lines.number;
    next_count(lines, b"commands ").ok_or(CertFault::BadCount { line })
}

/// The line `end`, with nothing after it.
pub fn ending(lines: &mut Lines) -> Result<(), CertFault>
    ensures read { OnOk result ((v : Version) → Leads v Last lines.old (codes "end" ∷ []) lines.new Nothing) }
    ensures last { OnOk result (lines.new.rest.now ≡ []) }
    ensures refused { IfErr result (λ fault. (v : Version) → Stops v Last lines.old fault) }
{
    let line = lines.number;
    if !next_is(lines, b"end") {
        return Err(CertFault::BadEnd { line });
    }
    if !lines.rest.is_empty() {
        return Err(CertFault::BadEnd { line: lines.number });
    }
    Ok(())
}

/// Whether the next line is this text.
pub fn next_is(lines: &mut Lines, text: &[u8]) -> bool
    ensures same { OnTrue result (IsNext lines.old text.now lines.new) }
    ensures other { OnFalse result ((more : List ℕ) → IsCut newline lines.old.rest.now text.now more → ⊥) }
{
    match lines.next() {
        Some(line) => line == text,
        None => false,
    }
}

/// The number after the word in the next line.
pub fn next_count(lines: &mut Lines, word: &[u8]) -> Option<u16>
    ensures { MatchOption result ((n : ℕ) → n ≤ 4095 → (more : List ℕ) → IsCut newline lines.old.rest.now (word.now ++ decimal n) more → ⊥)
        (λ n. (n ≤ 4095) × IsNext lines.old (word.now ++ decimal n) lines.new) }
{
    count(lines.next()?, word)
}
