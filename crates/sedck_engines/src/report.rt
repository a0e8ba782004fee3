//! The reports, as bytes.

ghost use Rattle.std.specs.Prelude.{◌≡◌, ◌++◌, IfOk, OnOk, ◌≤◌, length, map, codes, string_bytes};
ghost use Rattle.sedck_cert.specs.Headline.{IsLimit};
ghost use Rattle.sedck_cert.specs.Text.{line, files_text};
ghost use Rattle.sedck_engines.specs.Private.Reports.{AddsEdgesFrom, bound_line};
ghost use Rattle.sedck_engines.specs.Reports.{IsCheckReport, IsFilesReport, IsGraphReport, rejection_words};

use sedck_cert::streams::FromWrite;
use sedck_cert::{Bound, Cert, Judged, Rejection, Verdict, write_files};
use sedck_flow::{Node, edges_of, node_count};
use sedck_script::Script;
use std::alloc::{AllocError, Global};
use std::convert::AsSlice;

/// The report on a certificate that was judged.
pub(crate) fn check_report(alloc: Global, judged: &Judged) -> Result<Vec<u8>, AllocError>
    requires { IsLimit judged.now.script judged.now.cert judged.now.bound }
    ensures { IfOk result (λ report. IsCheckReport judged.now.script judged.now.cert judged.now.verdict report.items) }
{
    match judged.verdict {
        Verdict::Accepted => accepted_report(alloc, judged.bound, &judged.cert),
        Verdict::Rejected(why) => rejected_report(alloc, why),
    }
}

/// The report on an accepted certificate: its bound, if there is one, and its names.
fn accepted_report(alloc: Global, bound: Option<Bound>, cert: &Cert) -> Result<Vec<u8>, AllocError>
    ensures { IfOk result (λ report. report.items ≡ line (codes "accepted") ++ bound_line bound ++ files_text cert.now.reads cert.now.writes) }
{
    let mut report = Vec::new(alloc);
    add_line(&mut report, b"accepted")?;
    add_bound(alloc, &mut report, bound)?;
    with_files(report, cert.reads(), cert.writes())
}

/// Adds the line of the bound, if there is one.
fn add_bound(alloc: Global, report: &mut Vec<u8>, bound: Option<Bound>) -> Result<(), AllocError>
    ensures { OnOk result (report.new.items ≡ report.old.items ++ bound_line bound) }
{
    if let Some(bound) = bound {
        let Bound {
            per_byte,
            per_line,
            fixed,
        } = bound;
        let words = format!(in alloc; "bound {per_byte} {per_line} {fixed}")?;
        add_line(report, words.as_bytes())?;
    }
    Ok(())
}

/// The report on a rejected certificate: the first reason why.
fn rejected_report(alloc: Global, why: Rejection) -> Result<Vec<u8>, AllocError>
    ensures { IfOk result (λ report. report.items ≡ line (rejection_words why)) }
{
    let words = rejection_text(alloc, why)?;
    let mut report = Vec::new(alloc);
    add_line(&mut report, words.as_bytes())?;
    Ok(report)
}

/// The names that the script reads and writes.
pub(crate) fn files_report(alloc: Global, script: &Script) -> Result<Vec<u8>, AllocError>
    ensures { IfOk result (λ report. IsFilesReport script.now report.items) }
{
    with_files(Vec::new(alloc), script.reads(), script.writes())
}

/// The number of the script's commands, and each edge of its flow graph on a line, in order.
pub(crate) fn graph_report(alloc: Global, script: &Script) -> Result<Vec<u8>, AllocError>
    ensures { IfOk result (λ report. IsGraphReport script.now report.items) }
{
    let count = script.commands().len();
    let head = format!(in alloc; "commands {count}")?;
    let mut report = Vec::new(alloc);
    add_line(&mut report, head.as_bytes())?;
    for index in 0..node_count(count) {
        add_edges(alloc, &mut report, script, Node::nth(index))?;
    }
    Ok(report)
}

/// Adds each edge that leaves the node on a line, in order.
fn add_edges(
    alloc: Global,
    report: &mut Vec<u8>,
    script: &Script,
    node: Node,
) -> Result<(), AllocError>
    requires { node.at ≤ length script.now.commands }
    ensures { OnOk result (AddsEdgesFrom script.now node report.old.items report.new.items) }
{
    for edge in edges_of(script, node) {
        let words = format!(in alloc; "{edge}")?;
        add_line(report, words.as_bytes())?;
    }
    Ok(())
}

/// What a rejection says, without its newline.
fn rejection_text(alloc: Global, why: Rejection) -> Result<String, AllocError>
    ensures { IfOk result (λ text. string_bytes text ≡ rejection_words why) }
{
    match why {
        Rejection::WrongCount => format!(in alloc; "rejected 1 wrong-count"),
        Rejection::StartUnranked => format!(in alloc; "rejected 2 start-unranked"),
        Rejection::LeavesRanked(edge) => format!(in alloc; "rejected 3 leaves-ranked {edge}"),
        Rejection::NotLowered(edge) => format!(in alloc; "rejected 4 not-lowered {edge}"),
        Rejection::ReadsDiffer => format!(in alloc; "rejected 5 reads-differ"),
        Rejection::WritesDiffer => format!(in alloc; "rejected 6 writes-differ"),
    }
}

/// The report with the lists of the names that are read and written.
fn with_files<N: AsSlice<u8>>(
    report: Vec<u8>,
    reads: &[N],
    writes: &[N],
) -> Result<Vec<u8>, AllocError>
    ensures { IfOk result (λ whole. whole.items ≡ report.items ++ files_text (map N.items reads.now) (map N.items writes.now)) }
{
    let mut out = FromWrite::new(report);
    match write_files(&mut out, reads, writes) {
        Ok(()) => Ok(out.into_inner()),
        Err(_) => Err(AllocError),
    }
}

/// Adds the text as a line.
pub(crate) fn add_line(report: &mut Vec<u8>, text: &[u8]) -> Result<(), AllocError>
    ensures { OnOk result (report.new.items ≡ report.old.items ++ line text.now) }
{
    report.extend_from_slice(text)?;
    report.push(b'\n')?;
    Ok(())
}
