//! Whether a certificate is accepted for a script, and the first reason why it isn't.

ghost use Rattle.std.specs.Prelude.{◌≡◌, ◌≢◌, ◌↔◌, Bool, None, ◌+◌, ◌*◌, ◌≤◌, ◌<◌, length, map, IsTrue, Option, MatchOption};
ghost use Rattle.std.specs.Bool.{MatchBool};
ghost use Rattle.sedck_flow.specs.Nodes.{start};
ghost use Rattle.sedck_flow.specs.Flow.{Flow, FlowFrom};
ghost use Rattle.sedck_flow.specs.Run.{NamesForReading, NamesForWriting};
ghost use Rattle.sedck_cert.specs.Certificate.{IsCertificate};
ghost use Rattle.sedck_cert.specs.Ranked.{Accepts, ListsNames, Lowers, MeetsEdge, ranks_at};
ghost use Rattle.sedck_cert.specs.Rejections.{IsRejection};
ghost use Rattle.sedck_cert.specs.Private.Checking.{IsUnmetBy, JudgesEdges};
ghost use Rattle.sedck_cert.specs.View.{names_of};
ghost use Rattle.sedck_cert.specs.declared.checking.Rejection.{Rejection};

use crate::certificate::Cert;
use sedck_flow::{Edge, Kind, Node, edges_of};
use sedck_script::Script;

/// Why a certificate is rejected.
#[derive(Clone, Copy)]
pub enum Rejection {
    /// The number of commands is other than the script's.
    WrongCount,
    /// One of the two starts has no ranks.
    StartUnranked,
    /// The edge leads from a node with ranks to one without.
    LeavesRanked(Edge),
    /// The edge doesn't lower the ranks as its kind asks.
    NotLowered(Edge),
    /// The files read aren't the script's.
    ReadsDiffer,
    /// The files written aren't the script's.
    WritesDiffer,
}

/// Whether a certificate is accepted.
#[derive(Clone, Copy)]
pub enum Verdict {
    Accepted,
    Rejected(Rejection),
}

/// Judges a certificate for a script. It takes no memory, and looks at each node with ranks once.
pub fn check(script: &Script, cert: &Cert) -> Verdict
    ensures accepted { (result ≡ Verdict.Accepted) ↔ Accepts script.now cert.now }
    ensures rejected { (why : Rejection) → result ≡ Verdict.Rejected why → IsRejection script.now cert.now why }
{
    match first_rejection(script, cert) {
        None => Verdict::Accepted,
        Some(why) => Verdict::Rejected(why),
    }
}

/// The first reason to reject the certificate: counts and starts, then the edges in order, then the names.
fn first_rejection(script: &Script, cert: &Cert) -> Option<Rejection>
    ensures { MatchOption result (Accepts script.now cert.now) (IsRejection script.now cert.now) }
{
    if usize::from(cert.commands()) != script.commands().len() {
        return Some(Rejection::WrongCount);
    }
    if !are_starts_ranked(cert) {
        return Some(Rejection::StartUnranked);
    }
    if let Some(why) = first_unmet(script, cert) {
        return Some(why);
    }
    if !lists_reads(script, cert) {
        return Some(Rejection::ReadsDiffer);
    }
    if !lists_writes(script, cert) {
        return Some(Rejection::WritesDiffer);
    }
    None
}

/// Whether both starts have ranks: the first line may be the last one.
fn are_starts_ranked(cert: &Cert) -> bool
    ensures { MatchBool result ((last : Bool) → ranks_at cert.now (start last) ≢ None) ((last : Bool) × (ranks_at cert.now (start last) ≡ None)) }
{
    ranks_of(cert, Node::start(false)).is_some() && ranks_of(cert, Node::start(true)).is_some()
}

/// Whether the certificate lists the names that the script reads.
fn lists_reads(script: &Script, cert: &Cert) -> bool
    ensures { IsTrue result ↔ ListsNames cert.now.reads (NamesForReading script.now) }
{
    are_names(script.reads(), cert.reads())
}

/// Whether the certificate lists the names that the script writes.
fn lists_writes(script: &Script, cert: &Cert) -> bool
    ensures { IsTrue result ↔ ListsNames cert.now.writes (NamesForWriting script.now) }
{
    are_names(script.writes(), cert.writes())
}

/// The first edge of the script that the ranks don't meet, with the reason.
fn first_unmet(script: &Script, cert: &Cert) -> Option<Rejection>
    requires { cert.now.commands ≡ length script.now.commands }
    ensures { JudgesEdges cert.now (Flow script.now) result }
{
    for index in 0..cert.ranks().len() {
        let unmet = first_unmet_from(script, cert, Node::nth(index));
        if unmet.is_some() {
            return unmet;
        }
    }
    None
}

/// The first edge from the node that the ranks don't meet, with the reason.
fn first_unmet_from(script: &Script, cert: &Cert, node: Node) -> Option<Rejection>
    requires { node.at ≤ length script.now.commands }
    ensures { JudgesEdges cert.now (FlowFrom script.now node) result }
{
    if ranks_of(cert, node).is_none() {
        return None;
    }
    for edge in edges_of(script, node) {
        let unmet = reason_unmet(cert, edge);
        if unmet.is_some() {
            return unmet;
        }
    }
    None
}

/// Why the ranks don't meet the edge, if they don't.
fn reason_unmet(cert: &Cert, edge: Edge) -> Option<Rejection>
    ensures { MatchOption result (MeetsEdge cert.now edge) (IsUnmetBy cert.now edge) }
{
    let before = ranks_of(cert, edge.from)?;
    match ranks_of(cert, edge.to) {
        None => Some(Rejection::LeavesRanked(edge)),
        Some(after) if lowers(edge.kind, before, after) => None,
        Some(_) => Some(Rejection::NotLowered(edge)),
    }
}

/// The ranks of a node, if it has ranks.
pub(crate) fn ranks_of(cert: &Cert, node: Node) -> Option<(u16, u16)>
    ensures { result ≡ ranks_at cert.now node }
{
    cert.ranks().get(node.index()).copied().flatten()
}

/// Whether the ranks after an edge are to those before it as its kind asks.
fn lowers(kind: Kind, before: (u16, u16), after: (u16, u16)) -> bool
    ensures { IsTrue result ↔ Lowers kind before after }
{
    match kind {
        Kind::Consume => true,
        Kind::Shorten => after.0 <= before.0,
        Kind::Keep => after.0 < before.0 || (after.0 == before.0 && after.1 < before.1),
        Kind::Grow => after.0 < before.0,
    }
}

/// Whether the names listed are the script's names.
fn are_names(names: &[&[u8]], listed: &[Vec<u8>]) -> bool
    ensures { IsTrue result ↔ (names_of listed.now ≡ map (λ name. name.now) names.now) }
{
    if names.len() != listed.len() {
        return false;
    }
    for (index, name) in names.iter().enumerate() {
        if !is_name(name, listed[index].as_slice()) {
            return false;
        }
    }
    true
}

/// Whether the bytes are the name. A function, so that the comparison is proved once to say it of both lists of bytes.
fn is_name(bytes: &[u8], name: &[u8]) -> bool
    ensures { IsTrue result ↔ (name.now ≡ bytes.now) }
{
    bytes == name
}
