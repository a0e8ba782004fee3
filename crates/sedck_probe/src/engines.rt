//! Verdicts, searches, and the reports of the engines.
use crate::readers::{show, tell, tell_certificate, tell_script};
use sedck_cert::streams::{FromRead, FromWrite};
use sedck_cert::{Bound, Fault, Judged, Rejection, Verdict, judge, verify};
use sedck_cli::{Outcome, RunFault, run_check, run_files, run_graph, run_rank, run_upgrade};
use sedck_search::{Form, Found, Walk, search};
use std::alloc::Global;
use std::io;

/// The verdict on the certificate.
pub fn verdict(
    rt: &(impl Print + AllocGlobal),
    script: &[u8],
    certificate: &[u8],
) -> io::Result<()> {
    match verify(rt.alloc(), script, certificate) {
        Ok(verdict) => tell_verdict(rt, verdict),
        Err(fault) => tell_fault(rt, fault),
    }
}

/// The verdict, its limit, and what it is about.
pub fn judgement(
    rt: &(impl Print + AllocGlobal),
    script: &[u8],
    certificate: &[u8],
) -> io::Result<()> {
    match judge(rt.alloc(), script, certificate) {
        Ok(judged) => tell_judgement(rt, &judged),
        Err(fault) => tell_fault(rt, fault),
    }
}

fn tell_judgement(rt: &impl Print, judged: &Judged) -> io::Result<()> {
    tell_verdict(rt, judged.verdict)?;
    if let Some(bound) = judged.bound {
        let Bound {
            per_byte,
            per_line,
            fixed,
        } = bound;
        println!(rt; "bound {per_byte} {per_line} {fixed}")?;
    }
    tell_script(rt, &judged.script)?;
    tell_certificate(rt, &judged.cert)
}

fn tell_fault(rt: &impl Print, fault: Fault) -> io::Result<()> {
    match fault {
        Fault::Script(fault) => println!(rt; "script {fault}"),
        Fault::Certificate(fault) => println!(rt; "certificate {fault}"),
    }
}

fn tell_verdict(rt: &impl Print, verdict: Verdict) -> io::Result<()> {
    match verdict {
        Verdict::Accepted => tell(rt, "accepted"),
        Verdict::Rejected(why) => tell_rejection(rt, why),
    }
}

fn tell_rejection(rt: &impl Print, why: Rejection) -> io::Result<()> {
    match why {
        Rejection::WrongCount => tell(rt, "wrong-count"),
        Rejection::StartUnranked => tell(rt, "start-unranked"),
        Rejection::LeavesRanked(edge) => println!(rt; "leaves-ranked {edge}"),
        Rejection::NotLowered(edge) => println!(rt; "not-lowered {edge}"),
        Rejection::ReadsDiffer => tell(rt, "reads-differ"),
        Rejection::WritesDiffer => tell(rt, "writes-differ"),
    }
}

/// The ranks or the loop that the search finds. It is not searched where the script can't be read.
pub fn found(rt: &(impl Print + AllocGlobal), text: &[u8]) -> io::Result<()> {
    let script = match sedck_script::parse(rt.alloc(), text) {
        Ok(script) => script,
        Err(fault) => return println!(rt; "script {fault}"),
    };
    match search(rt.alloc(), &script) {
        Ok(Found::Ranks(cert)) => tell_certificate(rt, &cert),
        Ok(Found::Loop(walk)) => tell_walk(rt, &walk),
        Err(_) => tell(rt, "out of memory"),
    }
}

fn tell_walk(rt: &impl Print, walk: &Walk) -> io::Result<()> {
    match walk.form {
        Form::Idle => tell(rt, "idle")?,
        Form::Growing => tell(rt, "growing")?,
    }
    for node in &walk.nodes {
        show(rt, node)?;
    }
    for kind in &walk.kinds {
        show(rt, kind)?;
    }
    Ok(())
}

/// The report of an engine, and its outcome. `upgrade` reads a certificate in place of the script.
pub fn report(
    rt: &(impl Print + AllocGlobal),
    engine: &str,
    text: &[u8],
    certificate: &[u8],
) -> io::Result<()> {
    match run(rt, rt.alloc(), engine, text, certificate) {
        Ok(Outcome::Yes) => tell(rt, "yes"),
        Ok(Outcome::No) => tell(rt, "no"),
        Err(fault) => show(rt, &fault),
    }
}

fn run(
    rt: &impl Print,
    alloc: Global,
    engine: &str,
    text: &[u8],
    certificate: &[u8],
) -> Result<Outcome, RunFault> {
    let mut text = FromRead::new(text);
    let mut certificate = FromRead::new(certificate);
    let mut out = FromWrite::new(io::writer(rt));
    match engine {
        "check" => run_check(alloc, &mut text, &mut certificate, &mut out),
        "files" => run_files(alloc, &mut text, &mut out),
        "graph" => run_graph(alloc, &mut text, &mut out),
        "upgrade" => run_upgrade(alloc, &mut text, &mut out),
        _ => run_rank(alloc, &mut text, &mut out),
    }
}
