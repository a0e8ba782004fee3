//! The limit on the steps of a falling script's runs, by the lines alone.

ghost use Rattle.std.specs.Prelude.{◌↔◌, ◌≤◌, length, IsTrue};
ghost use Rattle.sedck_script.specs.Invariant.{AreWellFormed};
ghost use Rattle.sedck_flow.specs.Flow.{Flow, FlowFrom};
ghost use Rattle.sedck_cert.specs.Ranked.{Accepts, LowersFirst, AllLowerFirst};
ghost use Rattle.sedck_cert.specs.Bounds.{IsBoundByLines, IsLimitByLines};
ghost use Rattle.sedck_cert.specs.Everywhere.{IsLimitEverywhere};

use crate::bounding::greatest;
use crate::certificate::Cert;
use crate::checking::ranks_of;
use crate::limits::Bound;
use sedck_flow::{Edge, Kind, Node, edges_of, node_count};
use sedck_script::Script;

/// The limit on the steps of any run by the lines alone, of a script for which the certificate is accepted: it is there where each edge
/// that reads no line lowers the first rank, also where the spaces grow. It takes no memory, and looks at each node once.
pub fn limit_by_lines(script: &Script, cert: &Cert) -> Option<Bound>
    requires { Accepts script.now cert.now }
    ensures limit { IsLimitByLines script.now cert.now result }
    ensures everywhere { IsLimitEverywhere script.now result }
{
    if !lowers_first_ranks(script, cert) {
        return None;
    }
    Some(bound_of(cert))
}

/// Whether each edge of the script that reads no line lowers the first rank.
fn lowers_first_ranks(script: &Script, cert: &Cert) -> bool
    ensures falls { IsTrue result ↔ AllLowerFirst cert.now (Flow script.now) }
    // What the law on falling runs asks of the script.
    ensures formed { AreWellFormed script.now }
{
    for index in 0..node_count(script.commands().len()) {
        if !lowers_first_from(script, cert, Node::nth(index)) {
            return false;
        }
    }
    true
}

/// Whether each of those edges that leaves the node does.
fn lowers_first_from(script: &Script, cert: &Cert, node: Node) -> bool
    requires { node.at ≤ length script.now.commands }
    ensures { IsTrue result ↔ AllLowerFirst cert.now (FlowFrom script.now node) }
{
    for edge in edges_of(script, node) {
        if !lowers_first(cert, edge) {
            return false;
        }
    }
    true
}

/// Whether the edge reads a line or lowers the first rank, where its nodes have ranks.
fn lowers_first(cert: &Cert, edge: Edge) -> bool
    ensures { IsTrue result ↔ LowersFirst cert.now edge }
{
    if edge.kind == Kind::Consume {
        return true;
    }
    match (ranks_of(cert, edge.from), ranks_of(cert, edge.to)) {
        (Some(before), Some(after)) => after.0 < before.0,
        _ => true,
    }
}

/// The numbers of the limit, by the greatest first rank.
fn bound_of(cert: &Cert) -> Bound
    ensures { IsBoundByLines cert.now result }
{
    let (first, _) = greatest(cert.ranks());
    Bound {
        per_byte: 0,
        per_line: u64::from(first) + 1,
        fixed: 1,
    }
}
