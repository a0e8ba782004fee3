//! The lines of the nodes.

ghost use Rattle.std.specs.Prelude.{◌≡◌, ◌⊎◌, ◌+◌, ◌≤◌, ◌++◌, ℕ, suc, List, [], ◌∷◌, length, All, MatchOption, IfOk, IfErr, Option, decimal, codes};
ghost use Rattle.sedck_text.specs.Bytes.{newline};
ghost use Rattle.sedck_cert.specs.Certificate.{AreWithin, nodes_in};
ghost use Rattle.sedck_cert.specs.Text.{ranks_text, words_in, node_text, node_texts};
ghost use Rattle.sedck_cert.specs.Private.Cuts.{IsCut, IsBehind};
ghost use Rattle.sedck_cert.specs.Faults.{Node, Names, nodes_due};
ghost use Rattle.sedck_cert.specs.Private.Reading.{IsNext, Leads, Stops};
ghost use Rattle.sedck_cert.specs.declared.reading.names.Files.TheVariants.{Reads};

use super::CertFault;
use super::lines::{Lines, cut};
use super::numbers::number;
use crate::versions::Version;
use std::alloc::Global;

/// The ranks of all nodes of a script with this many commands.
pub fn nodes(
    alloc: Global,
    lines: &mut Lines,
    version: Version,
    commands: u16,
) -> Result<Vec<Option<(u16, u16)>>, CertFault>
    requires { commands ≤ 4095 }
    ensures read { IfOk result (λ ranks. Leads version (nodes_due 0 (nodes_in version commands)) lines.old
        (node_texts version 0 ranks.items) lines.new (Names Reads 0)) }
    ensures within { IfOk result (λ ranks. All AreWithin ranks.items) }
    ensures count { IfOk result (λ ranks. length ranks.items ≡ nodes_in version commands) }
    ensures refused { IfErr result (λ fault. (fault ≡ CertFault.OutOfMemory) ⊎ Stops version (nodes_due 0 (nodes_in version commands)) lines.old fault) }
{
    let count = version.node_count(commands);
    let mut ranks = Vec::with_capacity(alloc, count as usize)?;
    for node in 0..count {
        ranks.push(node_line(lines, version, node)?)?;
    }
    Ok(ranks)
}

/// The ranks that the next line gives this node.
fn node_line(
    lines: &mut Lines,
    version: Version,
    node: u16,
) -> Result<Option<(u16, u16)>, CertFault>
    ensures within { IfOk result AreWithin }
    ensures read { IfOk result (λ ranks. (left : ℕ)
        → Leads version (Node node left) lines.old (node_text version node ranks ∷ []) lines.new (nodes_due (suc node) left)) }
    ensures refused { IfErr result (λ fault. (left : ℕ) → Stops version (Node node left) lines.old fault) }
{
    let line = lines.number;
    next_ranks(lines, version, node).ok_or(CertFault::BadNode { line })
}

fn next_ranks(lines: &mut Lines, version: Version, node: u16) -> Option<Option<(u16, u16)>>
    ensures { MatchOption result ((ranks : Option (ℕ × ℕ)) → AreWithin ranks → (more : List ℕ)
        → IsCut newline lines.old.rest.now (node_text version node ranks) more → ⊥)
        (λ ranks. AreWithin ranks × IsNext lines.old (node_text version node ranks) lines.new) }
{
    node_ranks(lines.next()?, version, node)
}

/// The ranks that the line gives the node with this index.
fn node_ranks(text: &[u8], version: Version, index: u16) -> Option<Option<(u16, u16)>>
    ensures { MatchOption result ((ranks : Option (ℕ × ℕ)) → AreWithin ranks → text.now ≡ node_text version index ranks → ⊥)
        (λ ranks. AreWithin ranks × (text.now ≡ node_text version index ranks)) }
{
    ranks(behind_words(text, version, index)?)
}

/// What follows the words of the node with this index, a space between them.
fn behind_words(text: &[u8], version: Version, index: u16) -> Option<&[u8]>
    ensures { IsBehind text.now (words_in version index) result }
{
    match version {
        Version::One => behind_two(text, index / 2, index % 2),
        Version::Two => behind_number(behind_two(text, index / 4, index / 2 % 2)?, index % 2),
    }
}

/// What follows both numbers, a space after each.
fn behind_two(text: &[u8], first: u16, second: u16) -> Option<&[u8]>
    ensures { IsBehind text.now (decimal first ++ codes " " ++ decimal second) result }
{
    behind_number(behind_number(text, first)?, second)
}

/// What follows the number, a space between them.
fn behind_number(text: &[u8], wanted: u16) -> Option<&[u8]>
    ensures { IsBehind text.now (decimal wanted) result }
{
    let (front, rest) = cut(text, b' ')?;
    if number(front, wanted)? == wanted {
        Some(rest)
    } else {
        None
    }
}

/// The ranks of a node, or that it has none.
fn ranks(text: &[u8]) -> Option<Option<(u16, u16)>>
    ensures { MatchOption result ((ranks : Option (ℕ × ℕ)) → AreWithin ranks → text.now ≡ ranks_text ranks → ⊥)
        (λ ranks. AreWithin ranks × (text.now ≡ ranks_text ranks)) }
{
    if text == b"-".as_slice() {
        return Some(None);
    }
    let (first, second) = cut(text, b' ')?;
    Some(Some((number(first, u16::MAX)?, number(second, u16::MAX)?)))
}
