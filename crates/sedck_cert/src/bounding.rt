//! The limit on the steps of a steady script's runs.

ghost use Rattle.std.specs.Prelude.{◌≡◌, ◌↔◌, ◌≤◌, length, IsSome, IfSome, MatchOption};
ghost use Rattle.sedck_script.specs.Invariant.{AreWellFormed};
ghost use Rattle.sedck_flow.specs.Flow.{Flow, FlowFrom};
ghost use Rattle.sedck_cert.specs.Ranked.{Accepts, IsSteady, NeverGrows, IsGrowth, IsFirstGrowth};
ghost use Rattle.sedck_cert.specs.StepLimit.{greatest_first, greatest_second};
ghost use Rattle.sedck_cert.specs.Bounds.{IsBoundOf, BoundsRuns};
ghost use Rattle.sedck_cert.specs.Headline.{IsLimit};
ghost use Rattle.sedck_cert.specs.Everywhere.{BoundsEverywhere, IsLimitEverywhere};

use crate::certificate::Cert;
use crate::checking::{Verdict, check, ranks_of};
use crate::limits::Bound;
use sedck_flow::{Edge, Kind, Node, edges_of, node_count};
use sedck_script::Script;

/// The limit on the steps of any run of the script, where the certificate is accepted and the pattern
/// space never grows on an edge from a node with ranks. It takes no memory, and looks at each node
/// with ranks twice.
pub fn bound(script: &Script, cert: &Cert) -> Option<Bound>
    ensures steady { IsSome result ↔ IsSteady script.now cert.now }
    ensures numbers { IfSome result (IsBoundOf cert.now) }
    // No run has more steps.
    ensures counted { IfSome result (BoundsRuns script.now) }
    // Nor has one on several files, with other ends of lines, or in another locale.
    ensures everywhere { IfSome result (BoundsEverywhere script.now) }
{
    match check(script, cert) {
        Verdict::Accepted => limit(script, cert),
        Verdict::Rejected(_) => None,
    }
}

/// The limit on the steps of any run of a script for which the certificate is accepted.
pub fn limit(script: &Script, cert: &Cert) -> Option<Bound>
    requires { Accepts script.now cert.now }
    ensures limit { IsLimit script.now cert.now result }
    ensures everywhere { IsLimitEverywhere script.now result }
{
    if first_growth(script, cert).is_some() {
        return None;
    }
    Some(bound_of(cert))
}

/// The first edge from a node with ranks on which the pattern space may grow, by the order of the nodes: the reason why an
/// accepted certificate gives no limit.
pub fn first_growth(script: &Script, cert: &Cert) -> Option<Edge>
    ensures growth { MatchOption result (NeverGrows cert.now (Flow script.now)) (IsFirstGrowth script.now cert.now) }
    // What the law on steady runs asks of the script.
    ensures formed { AreWellFormed script.now }
{
    for index in 0..node_count(script.commands().len()) {
        let growth = growth_from(script, cert, Node::nth(index));
        if growth.is_some() {
            return growth;
        }
    }
    None
}

/// The first of those edges that leaves the node.
fn growth_from(script: &Script, cert: &Cert, node: Node) -> Option<Edge>
    requires { node.at ≤ length script.now.commands }
    ensures { MatchOption result (NeverGrows cert.now (FlowFrom script.now node)) (IsGrowth cert.now (FlowFrom script.now node)) }
{
    if ranks_of(cert, node).is_none() {
        return None;
    }
    for edge in edges_of(script, node) {
        if edge.kind == Kind::Grow {
            return Some(edge);
        }
    }
    None
}

/// The numbers of the limit, by the greatest ranks.
fn bound_of(cert: &Cert) -> Bound
    ensures { IsBoundOf cert.now result }
{
    let (first, second) = greatest(cert.ranks());
    let each = u64::from(second) + 1;
    Bound {
        per_byte: each,
        per_line: each * (u64::from(first) + 2),
        fixed: each,
    }
}

/// The greatest first rank and the greatest second rank.
pub(crate) fn greatest(ranks: &[Option<(u16, u16)>]) -> (u16, u16)
    ensures first { result.0 ≡ greatest_first ranks.now }
    ensures second { result.1 ≡ greatest_second ranks.now }
{
    let mut first = 0;
    let mut second = 0;
    for pair in ranks {
        if let Some((one, two)) = *pair {
            first = first.max(one);
            second = second.max(two);
        }
    }
    (first, second)
}
