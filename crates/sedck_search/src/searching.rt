//! The search.

ghost use Rattle.std.specs.Prelude.{◌≡◌, IfOk, length, map};
ghost use Rattle.sedck_cert.specs.Ranked.{Accepts};
ghost use Rattle.sedck_cert.specs.View.{names_of};
ghost use Rattle.sedck_search.specs.Found.{IsFound};
ghost use Rattle.sedck_search.specs.Private.Reaching.{AreCounted};
ghost use Rattle.sedck_search.specs.Private.Closing.{Closes};
ghost use Rattle.sedck_search.specs.Private.Ranking.{ranks_from};
ghost use Rattle.sedck_flow.specs.declared.graph.Edge.{Edge};
ghost use Rattle.sedck_flow.specs.declared.graph.Kind.TheVariants.{Keep, Grow};
ghost use Rattle.sedck_search.specs.declared.filter.EdgeFilter.TheVariants.{Kept, Unread};

use crate::answer::{Form, Found};
use crate::counting::counts_of;
use crate::edge_table::EdgeTable;
use crate::filter::{EdgeFilter, Graph};
use crate::loops::{first_closing, loop_from};
use crate::reachable::reachable_marks;
use crate::same_ranks::keeps_space;
use sedck_cert::Cert;
use sedck_flow::Kind;
use sedck_script::Script;
use std::alloc::{AllocError, Global};

/// Searches for ranks. Where a loop rules them out, it answers the loop: an idle one where there is one, and else a growing one.
///
/// Only nodes that one of the two starts reaches are visited. The first rank of a node is the number of nodes that it reaches
/// without reading a line, the second the number of those that it reaches while the pattern space is kept, itself among them each time.
/// Both are counted at once where the script never changes the pattern space without reading a line.
pub fn search(alloc: Global, script: &Script) -> Result<Found, AllocError>
    ensures { IfOk result (IsFound script.now) }
{
    let table = EdgeTable::of(alloc, script)?;
    let filter = EdgeFilter::Every;
    let graph = Graph {
        script,
        table: &table,
        filter,
    };
    let marks = reachable_marks(alloc, graph)?;
    let seconds = counts_of(alloc, graph, EdgeFilter::Kept, &marks)?;
    if let Some(edge) = first_closing(graph, Kind::Keep, &seconds) {
        return Ok(Found::Loop(loop_from(alloc, graph, Form::Idle, edge)?));
    }
    if keeps_space(graph) {
        return Ok(Found::Ranks(certificate(alloc, script, &seconds, &seconds)?));
    }
    let firsts = counts_of(alloc, graph, EdgeFilter::Unread, &marks)?;
    if let Some(edge) = first_closing(graph, Kind::Grow, &firsts) {
        return Ok(Found::Loop(loop_from(alloc, graph, Form::Growing, edge)?));
    }
    Ok(Found::Ranks(certificate(alloc, script, &firsts, &seconds)?))
}

/// The certificate with these counts as ranks.
fn certificate(
    alloc: Global,
    script: &Script,
    firsts: &[u16],
    seconds: &[u16],
) -> Result<Cert, AllocError>
    requires firsts { AreCounted script.now Unread firsts.now }
    requires seconds { AreCounted script.now Kept seconds.now }
    requires idle { (e : Edge) → ¬ Closes script.now Keep seconds.now e }
    requires growing { (e : Edge) → ¬ Closes script.now Grow firsts.now e }
    ensures { IfOk result (λ cert. Accepts script.now cert) }
{
    let commands = script.commands().len() as u16;
    let ranks = ranks_of(alloc, firsts, seconds)?;
    let reads = names(alloc, script.reads())?;
    let writes = names(alloc, script.writes())?;
    match Cert::new(commands, ranks, reads, writes) {
        Some(cert) => Ok(cert),
        None => unreachable!(),
    }
}

/// Two counts for each node that is counted.
fn ranks_of(
    alloc: Global,
    firsts: &[u16],
    seconds: &[u16],
) -> Result<Vec<Option<(u16, u16)>>, AllocError>
    requires { length firsts.now ≡ length seconds.now }
    ensures { IfOk result (λ ranks. ranks.items ≡ ranks_from firsts.now seconds.now) }
{
    let mut ranks = Vec::new(alloc);
    for index in 0..firsts.len() {
        let first = firsts[index];
        ranks.push(if first == 0 {
            None
        } else {
            Some((first, seconds[index]))
        })?;
    }
    Ok(ranks)
}

/// The names with memory of their own.
fn names(alloc: Global, names: &[&[u8]]) -> Result<Vec<Vec<u8>>, AllocError>
    ensures { IfOk result (λ copies. names_of copies.items ≡ map (λ name. name.now) names.now) }
{
    let mut copies = Vec::new(alloc);
    for name in names {
        let mut copy = Vec::new(alloc);
        copy.extend_from_slice(name)?;
        copies.push(copy)?;
    }
    Ok(copies)
}
