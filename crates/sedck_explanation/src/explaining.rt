//! All that is reported of a script.

ghost use Rattle.std.specs.Prelude.{◌≡◌, ◌&&◌, ◌||◌, not, true, false, Some, None, [], IfOk, IfSome, OnOk, map};
ghost use Rattle.std.specs.Option.{option_map};
ghost use Rattle.sedck_script.specs.Names.{reads, writes};
ghost use Rattle.sedck_report.specs.Files.{names_of};
ghost use Rattle.sedck_report.specs.Levels.{has_warning, has_locale, has_error, is_warning};
ghost use Rattle.sedck_report.specs.Positions.{position_in};
ghost use Rattle.sedck_advice.specs.Added.{AddsNoError};
ghost use Rattle.sedck_advice.specs.Locale.{depends_on_locale};
ghost use Rattle.sedck_answer.specs.Answers.{KeepsNothing};
ghost use Rattle.sedck_explanation.specs.Explanations.{IsExplanation};
ghost use Rattle.sedck_explanation.specs.Denial.{expressions_of, warns_of_denied};
ghost use Rattle.sedck_answer.specs.Status.{IsOfAnswer};
ghost use Rattle.sedck_explanation.specs.Private.Errors.{IsOfScript, IsRefused, CanBeReported, AreFindingsOf, IsFindingOf};
ghost use Rattle.sedck_explanation.specs.Private.Explaining.{Explains, Reports, WarnedWith, KeepsLocated, HasLists, AreDeniedFindings, kinds_of};

use crate::answer::{Answered, Expressions, answer_of, status_under};
use crate::reporting::{Silence, ignored_codes, reported};
use sedck_advice::{
    NamedFiles, ReadScript, Slow, add_warnings, ignoring_words, locale_warnings, named_files,
    references_in, slow_of,
};
use sedck_answer::{Answer, Explanation, Status};
use sedck_errors::{
    Deniable, Denied, LineEnd, certificate_refusal, growth_note, loop_finding, rejection,
    script_refusal, with_denials,
};
use sedck_report::{Finding, NamedFile, Position, positions};
use sedck_script::{Access, Located, Location, Script};
use std::alloc::{AllocError, Global};

/// Explains what the engines answer of the script, alone or with a certificate: `judge`'s verdict, or what `search` finds. What is
/// denied changes the status of an accepted script that has it, and adds errors. `own` is the path of the script's file, if it has one.
pub fn explain<'a>(
    alloc: Global,
    own: Option<&'a [u8]>,
    text: &'a [u8],
    certificate: Option<&[u8]>,
    denied: Denied,
) -> Result<Explanation<'a>, AllocError>
    ensures explanation { IfOk result (IsExplanation text.now (option_map (λ bytes. bytes.now) certificate.entry) denied) }
    ensures few { IfOk result (λ e. IsOfAnswer e.status) }
{
    let mut paths = Vec::new(alloc);
    if let Some(path) = own {
        paths.push(path)?;
    }
    let beside = Beside {
        own: &paths,
        inputs: &[],
        line_end: LineEnd::Newline,
    };
    let asked = Asked {
        text,
        beside,
        warnings: Vec::new(alloc),
        denied,
    };
    explained_with(alloc, certificate, asked)
}

/// What is known beside a script's text: the paths of its files, the operands of its call, and with what lines end.
#[derive(Clone, Copy)]
pub(crate) struct Beside<'i> {
    pub own: &'i [&'i [u8]],
    pub inputs: &'i [&'i [u8]],
    pub line_end: LineEnd,
}

/// A script's text, what is known beside it, what is warned of its call, and what is denied.
#[derive(Drop)]
struct Asked<'i, 'a> {
    text: &'a [u8],
    beside: Beside<'i>,
    warnings: Vec<Finding>,
    denied: Denied,
}

/// Explains the script of a call of sed, as `explain` does without a certificate. What is warned of the call is reported with the script's
/// own warnings, and is denied with them.
pub(crate) fn explain_call<'a>(
    alloc: Global,
    text: &'a [u8],
    beside: Beside,
    warnings: Vec<Finding>,
    denied: Denied,
) -> Result<Explanation<'a>, AllocError>
    requires errors { has_error warnings.items ≡ false }
    requires locale { has_locale warnings.items ≡ false }
    ensures explanation { IfOk result (IsExplanation text.now None denied) }
    ensures few { IfOk result (λ e. IsOfAnswer e.status) }
    ensures warned { IfOk result (WarnedWith denied warnings.items) }
{
    let asked = Asked {
        text,
        beside,
        warnings,
        denied,
    };
    explained_with(alloc, None, asked)
}

/// Explains a script, alone or with a certificate.
fn explained_with<'a>(
    alloc: Global,
    certificate: Option<&[u8]>,
    asked: Asked<'_, 'a>,
) -> Result<Explanation<'a>, AllocError>
    requires errors { has_error asked.warnings.items ≡ false }
    requires locale { has_locale asked.warnings.items ≡ false }
    ensures explanation { IfOk result (IsExplanation asked.entry.text.now (option_map (λ bytes. bytes.now) certificate.entry) asked.entry.denied) }
    ensures few { IfOk result (λ e. IsOfAnswer e.status) }
    ensures warned { IfOk result (WarnedWith asked.entry.denied asked.entry.warnings.items) }
{
    let Answered { answer, located } = answer_of(alloc, asked.text, certificate)?;
    match located {
        Some(located) => explained(alloc, answer, located, asked),
        None => refused(alloc, answer, asked),
    }
}

/// What is reported of a script that was read.
fn explained<'a>(
    alloc: Global,
    answer: Answer,
    located: Located<'a>,
    asked: Asked<'_, 'a>,
) -> Result<Explanation<'a>, AllocError>
    requires script { IsOfScript asked.text.now located.script answer }
    requires errors { has_error asked.warnings.items ≡ false }
    requires locale { has_locale asked.warnings.items ≡ false }
    ensures explains { IfOk result (Explains asked.entry.text.now asked.entry.denied answer) }
    ensures keeps { IfOk result (KeepsLocated asked.entry.text.now located.entry.script located.entry.locations.items) }
    ensures few { IfOk result (λ e. IsOfAnswer e.status) }
    ensures warned { IfOk result (WarnedWith asked.entry.denied asked.entry.warnings.items) }
{
    let text = asked.text;
    let lists = lists_of(alloc, text, &located)?;
    let (status, findings) = reports(alloc, &answer, &located, &lists, asked)?;
    let Lists {
        positions,
        reads,
        writes,
    } = lists;
    Ok(Explanation {
        text,
        source: text,
        answer,
        status,
        script: Some(located.script),
        positions,
        findings,
        reads,
        writes,
    })
}

/// Where the verbs of a script are, and the files that it names.
#[derive(Drop)]
struct Lists<'a> {
    positions: Vec<Position>,
    reads: Vec<NamedFile<'a>>,
    writes: Vec<NamedFile<'a>>,
}

fn lists_of<'a>(alloc: Global, text: &[u8], located: &Located<'a>) -> Result<Lists<'a>, AllocError>
    ensures reads { IfOk result (λ lists. names_of lists.reads.items ≡ reads located.entry.now.script) }
    ensures writes { IfOk result (λ lists. names_of lists.writes.items ≡ writes located.entry.now.script) }
    ensures positions { IfOk result (λ lists. lists.positions.items
        ≡ map (λ location. position_in text.now location.verb) located.entry.now.locations.items) }
{
    let script = &located.script;
    let positions = verb_positions(alloc, text, &located.locations)?;
    let reads = named_files(alloc, script.reads(), script, &positions, Access::Read)?;
    let writes = named_files(alloc, script.writes(), script, &positions, Access::Write)?;
    Ok(Lists {
        positions,
        reads,
        writes,
    })
}

/// The status, and the findings: those of the answer, the warnings of the call and the script's own, and what is denied, but for those that the
/// script ignores.
fn reports(
    alloc: Global,
    answer: &Answer,
    located: &Located,
    lists: &Lists,
    asked: Asked,
) -> Result<(Status, Vec<Finding>), AllocError>
    requires script { IsOfScript asked.text.now located.now.script answer.now }
    requires errors { has_error asked.warnings.items ≡ false }
    requires locale { has_locale asked.warnings.items ≡ false }
    requires reads { names_of lists.now.reads.items ≡ reads located.now.script }
    requires writes { names_of lists.now.writes.items ≡ writes located.now.script }
    ensures reports { IfOk result (λ r. Reports asked.entry.text.now asked.entry.denied answer.now located.now.script lists.now.positions.items
        r.0 r.1.items) }
    ensures few { IfOk result (λ r. IsOfAnswer r.0) }
    ensures warned { IfOk result (λ r. warns_of_denied asked.entry.denied asked.entry.warnings.items ≡ true
        → warns_of_denied asked.entry.denied r.1.items ≡ true) }
{
    let Asked {
        text,
        beside,
        mut warnings,
        denied,
    } = asked;
    let locations = &located.locations;
    let words = ignoring_words(alloc, text)?;
    let end = beside.line_end;
    let mut found = answer_findings(alloc, text, &located.script, &lists.positions, answer, end)?;
    found.append(&mut warnings)?;
    due_warnings(alloc, &mut found, text, located, denied)?;
    let script = ReadScript {
        text,
        locations,
        files: NamedFiles {
            own: beside.own,
            inputs: beside.inputs,
            reads: &lists.reads,
            writes: &lists.writes,
        },
        words: &words,
    };
    add_warnings(alloc, &mut found, script)?;
    let expressions = expressions_in_script(alloc, text, located, &lists.positions)?;
    let judged = Judged {
        answer,
        lists,
        expressions: &expressions,
    };
    let all = denied_findings(alloc, found, denied, judged)?;
    let status = status_under(answer, denied, &all, expressions.kinds());
    let ignored = ignored_codes(alloc, &words)?;
    let silence = Silence {
        ignored: &ignored,
        denied: denied.warnings,
    };
    let findings = reported(alloc, text, locations, all, silence)?;
    Ok((status, findings))
}

/// Where that is which may be denied of the script's expressions.
#[derive(Drop)]
struct FoundExpressions {
    slow: Option<Slow>,
    /// Where those with a reference are.
    references: Vec<Position>,
}

impl FoundExpressions {
    /// Which of it is there.
    fn kinds(&self) -> Expressions
        ensures { result ≡ kinds_of self.now }
    {
        Expressions {
            slow: self.slow.is_some(),
            references: !self.references.is_empty(),
        }
    }
}

fn expressions_in_script(
    alloc: Global,
    text: &[u8],
    located: &Located,
    positions: &[Position],
) -> Result<FoundExpressions, AllocError>
    ensures { IfOk result (λ found. kinds_of found ≡ expressions_of (Some located.now.script)) }
{
    Ok(FoundExpressions {
        slow: slow_of(&located.script, positions),
        references: references_in(alloc, text, located)?,
    })
}

/// The warning `locale` of each command that a sed reads otherwise in a locale of UTF-8, unless the locale is known to be C.
fn due_warnings(
    alloc: Global,
    findings: &mut Vec<Finding>,
    text: &[u8],
    located: &Located,
    denied: Denied,
) -> Result<(), AllocError>
    ensures added { OnOk result (AddsNoError findings.old.items findings.new.items) }
    ensures exactly { OnOk result (has_locale findings.new.items
        ≡ (has_locale findings.old.items || (not denied.c_locale && depends_on_locale located.now.script))) }
{
    if denied.c_locale {
        return Ok(());
    }
    locale_warnings(alloc, findings, text, located)
}

/// What is reported of a script that is refused.
fn refused<'a>(
    alloc: Global,
    answer: Answer,
    asked: Asked<'_, 'a>,
) -> Result<Explanation<'a>, AllocError>
    requires refusal { IsRefused asked.text.now answer }
    requires errors { has_error asked.warnings.items ≡ false }
    requires locale { has_locale asked.warnings.items ≡ false }
    ensures explains { IfOk result (Explains asked.entry.text.now asked.entry.denied answer) }
    ensures keeps { IfOk result KeepsNothing }
    ensures few { IfOk result (λ e. IsOfAnswer e.status) }
    ensures warned { IfOk result (WarnedWith asked.entry.denied asked.entry.warnings.items) }
{
    let Asked {
        text,
        mut warnings,
        denied,
        ..
    } = asked;
    let mut found = refusal_findings(alloc, text, &answer)?;
    found.append(&mut warnings)?;
    let status = status_under(&answer, denied, &found, Expressions::NONE);
    let silence = Silence {
        ignored: &[],
        denied: denied.warnings,
    };
    let findings = reported(alloc, text, &[], found, silence)?;
    Ok(Explanation {
        text,
        source: text,
        answer,
        status,
        script: None,
        positions: Vec::new(alloc),
        findings,
        reads: Vec::new(alloc),
        writes: Vec::new(alloc),
    })
}

/// What is reported of the answer that a script is refused.
fn refusal_findings(alloc: Global, text: &[u8], answer: &Answer) -> Result<Vec<Finding>, AllocError>
    requires { IsRefused text.now answer.now }
    ensures answer { IfOk result (λ findings. AreFindingsOf text.now [] answer.now findings.items) }
    ensures locale { IfOk result (λ findings. has_locale findings.items ≡ false) }
{
    let mut findings = Vec::new(alloc);
    let Answer::ScriptRefused(fault) = answer else {
        return Ok(findings);
    };
    findings.push(script_refusal(alloc, text, *fault)?)?;
    Ok(findings)
}

/// What is answered of a script that was read, the files that it names, and what may be denied of its expressions.
#[derive(Clone, Copy)]
struct Judged<'r, 'a> {
    answer: &'r Answer,
    lists: &'r Lists<'a>,
    expressions: &'r FoundExpressions,
}

/// The findings, after an error for each thing that is denied where the script is accepted.
fn denied_findings(
    alloc: Global,
    findings: Vec<Finding>,
    denied: Denied,
    judged: Judged,
) -> Result<Vec<Finding>, AllocError>
    requires { HasLists judged.lists.now.reads.items judged.lists.now.writes.items judged.answer.now }
    ensures errors { IfOk result (λ all. AreDeniedFindings denied (kinds_of judged.entry.expressions.now) findings.items all.items judged.entry.answer.now) }
    ensures warnings { IfOk result (λ all. has_warning all.items ≡ has_warning findings.items) }
    ensures denied { IfOk result (λ all. warns_of_denied denied all.items ≡ warns_of_denied denied findings.items) }
    ensures locale { IfOk result (λ all. has_locale all.items ≡ has_locale findings.items) }
{
    match judged.answer {
        Answer::Accepted { limits, .. } => {
            let has = Deniable {
                reads: &judged.lists.reads,
                writes: &judged.lists.writes,
                limits: *limits,
                slow: judged.expressions.slow,
                references: &judged.expressions.references,
            };
            with_denials(alloc, findings, denied, has)
        }
        _ => Ok(findings),
    }
}

/// The position of each command's verb.
fn verb_positions(
    alloc: Global,
    text: &[u8],
    locations: &[Location],
) -> Result<Vec<Position>, AllocError>
    ensures { IfOk result (λ positions. positions.items ≡ map (λ location. position_in text.now location.verb) locations.now) }
{
    let mut offsets = Vec::new(alloc);
    for location in locations {
        offsets.push(location.verb)?;
    }
    positions(alloc, text, &offsets)
}

/// What is reported of the answer, alone.
fn answer_findings(
    alloc: Global,
    text: &[u8],
    script: &Script,
    positions: &[Position],
    answer: &Answer,
    end: LineEnd,
) -> Result<Vec<Finding>, AllocError>
    requires { CanBeReported text.now answer.now }
    ensures answer { IfOk result (λ findings. AreFindingsOf text.now positions.now answer.now findings.items) }
    ensures locale { IfOk result (λ findings. has_locale findings.items ≡ false) }
{
    let mut findings = Vec::new(alloc);
    let Some(finding) = answer_finding(alloc, text, script, positions, answer, end)? else {
        return Ok(findings);
    };
    findings.push(finding)?;
    Ok(findings)
}

/// What is reported of the answer, where there is something to be said.
fn answer_finding(
    alloc: Global,
    text: &[u8],
    script: &Script,
    positions: &[Position],
    answer: &Answer,
    end: LineEnd,
) -> Result<Option<Finding>, AllocError>
    requires { CanBeReported text.now answer.now }
    ensures answer { IfOk result (IsFindingOf text.now positions.now answer.now) }
    ensures warning { IfOk result (λ found. IfSome found (λ finding. is_warning finding.level ≡ false)) }
{
    match answer {
        Answer::ScriptRefused(fault) => Ok(Some(script_refusal(alloc, text, *fault)?)),
        Answer::CertificateRefused(fault) => Ok(Some(certificate_refusal(alloc, *fault)?)),
        Answer::Rejected { cert, why } => {
            Ok(Some(rejection(alloc, script, positions, cert, *why)?))
        }
        Answer::Endless(walk) => Ok(Some(loop_finding(alloc, script, positions, walk, end)?)),
        Answer::Accepted { cert, limits } => growth_note(alloc, script, positions, cert, *limits),
        Answer::NotJudged => Ok(None),
    }
}
