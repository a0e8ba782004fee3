//! What is reported of a certificate that is refused or rejected.

ghost use Rattle.std.specs.Prelude.{◌≡◌, None, IfOk};
ghost use Rattle.sedck_cert.specs.FaultText.{name_of as certificate_fault_name};
ghost use Rattle.sedck_report.specs.Codes.{name_of};
ghost use Rattle.sedck_report.specs.declared.finding.Level.TheVariants.{Error};
ghost use Rattle.sedck_errors.specs.Errors.{rejection_position as position_of_rejection};

use crate::steps::{position_of, step, target_step};
use sedck_cert::{Cert, CertFault, Rejection};
use sedck_flow::{Edge, Node};
use sedck_report::{Code, Finding, Level, Position, Step};
use sedck_script::Script;
use std::alloc::{AllocError, Global};

/// The finding for a certificate's text that is refused.
pub fn certificate_refusal(alloc: Global, fault: CertFault) -> Result<Finding, AllocError>
    ensures level { IfOk result (λ finding. finding.level ≡ Error) }
    ensures position { IfOk result (λ finding. finding.position ≡ None) }
    ensures code { IfOk result (λ finding. name_of finding.code ≡ certificate_fault_name fault) }
{
    let (code, wanted) = match fault {
        CertFault::BadHeader { .. } => (Code::BadHeader, "`sedck 2`, or `sedck 1` for version 1"),
        CertFault::BadCount { .. } => (Code::BadCount, "`commands` and the number of commands"),
        CertFault::BadNode { .. } => (Code::BadNode, "the next node and its two ranks"),
        CertFault::BadNames { .. } => (
            Code::BadNames,
            "the number of names in a list, or the next name in order",
        ),
        CertFault::BadEnd { .. } => (Code::BadEnd, "`end`, and nothing after it"),
        CertFault::OutOfMemory => return Err(AllocError),
    };
    let line = fault.line().unwrap_or(0);
    let message = format!(in alloc; "line {line} of the certificate: expected {wanted}")?;
    let mut finding = Finding::new(alloc, Level::Error, code, message);
    finding.hint = Some("make the certificate again, with `sedck rank` or `sedck upgrade`");
    Ok(finding)
}

/// The finding for a certificate that is rejected.
pub fn rejection(
    alloc: Global,
    script: &Script,
    positions: &[Position],
    cert: &Cert,
    why: Rejection,
) -> Result<Finding, AllocError>
    ensures level { IfOk result (λ finding. finding.level ≡ Error) }
    ensures position { IfOk result (λ finding. finding.position ≡ position_of_rejection positions.now why) }
{
    let (code, words, hint) = rejection_words(why);
    let steps = match why {
        Rejection::LeavesRanked(edge) | Rejection::NotLowered(edge) => {
            edge_steps(alloc, script, positions, cert, edge)?
        }
        _ => Vec::new(alloc),
    };
    let message = match why {
        Rejection::WrongCount => {
            let has = script.commands().len();
            let wanted = cert.commands();
            format!(in alloc; "{words}: {wanted}, and not {has}")?
        }
        _ => String::from_str(alloc, words)?,
    };
    let mut finding = Finding::new(alloc, Level::Error, code, message);
    finding.position = rejection_position(positions, why);
    finding.hint = Some(hint);
    finding.steps = steps;
    Ok(finding)
}

/// Where the edge begins that fails; none for any other rejection.
fn rejection_position(positions: &[Position], why: Rejection) -> Option<Position>
    ensures { result ≡ position_of_rejection positions.now why }
{
    match why {
        Rejection::LeavesRanked(edge) | Rejection::NotLowered(edge) => {
            position_of(positions, edge.from)
        }
        _ => None,
    }
}

/// The code of a rejection, its message and its hint.
fn rejection_words(why: Rejection) -> (Code, &'static str, &'static str) {
    let changed = "if the script was changed, run `sedck rank` again and read what it prints";
    match why {
        Rejection::WrongCount => (
            Code::WrongCount,
            "the certificate was made for another number of commands",
            changed,
        ),
        Rejection::StartUnranked => (
            Code::StartUnranked,
            "the certificate has no ranks for one of the two nodes where a run may begin",
            "give ranks to the nodes `0 0 0` and `0 0 1`",
        ),
        Rejection::LeavesRanked(_) => (
            Code::LeavesRanked,
            "a step leads from a node with ranks to one without",
            changed,
        ),
        Rejection::NotLowered(_) => (
            Code::NotLowered,
            "a step that reads no line must lower the first rank (if it may lengthen the pattern space) or either rank (if not), and doesn't",
            "if the script was changed, run `sedck rank` again; if that finds a loop, no ranks will do",
        ),
        Rejection::ReadsDiffer => (
            Code::ReadsDiffer,
            "the files that the script reads aren't those that the certificate lists",
            "look at what `sedck files` lists before you make the certificate again",
        ),
        Rejection::WritesDiffer => (
            Code::WritesDiffer,
            "the files that the script writes aren't those that the certificate lists",
            "look at what `sedck files` lists before you make the certificate again",
        ),
    }
}

/// The two ends of an edge, with their ranks.
fn edge_steps(
    alloc: Global,
    script: &Script,
    positions: &[Position],
    cert: &Cert,
    edge: Edge,
) -> Result<Vec<Step>, AllocError> {
    let mut first = step(alloc, script, positions, edge)?;
    push_ranks(alloc, &mut first.message, cert, edge.from)?;
    let mut second = target_step(alloc, positions, edge.to, "is reached")?;
    push_ranks(alloc, &mut second.message, cert, edge.to)?;
    let mut steps = Vec::new(alloc);
    steps.push(first)?;
    steps.push(second)?;
    Ok(steps)
}

/// Adds the ranks of the node.
fn push_ranks(
    alloc: Global,
    message: &mut String,
    cert: &Cert,
    node: Node,
) -> Result<(), AllocError> {
    let words = match cert.ranks().get(node.index()) {
        Some(Some((first, second))) => format!(in alloc; "; its ranks are {first} and {second}")?,
        _ => String::from_str(alloc, "; it has no ranks")?,
    };
    message.push_str(&words)
}
