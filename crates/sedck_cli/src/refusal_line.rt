//! The line that a refusal prints. It is written piece by piece, and takes no memory.

ghost use Rattle.std.specs.Prelude.{◌++◌, OnOk, decimal, codes};
ghost use Rattle.std.specs.Io.KnownBytes.{Appends};
ghost use Rattle.sedck_commands.specs.FaultWords.{fault_words, cause_words};
ghost use Rattle.sedck_cert.specs.FaultText.{fault_text};
ghost use Rattle.sedck_cert.specs.Streams.{ReportsFailure};
ghost use Rattle.sedck_cli.specs.Lines.{refusal_words, refusal_line};
ghost use Rattle.sedck_cli.specs.Private.Places.{place_behind};
ghost use Rattle.sedck_engines.specs.Reports.{input_text};

use crate::command_line::Refusal;
use sedck_cert::CertFault;
use sedck_cert::streams::{Failed, Sink, write_all, write_decimal};
use sedck_engines::{Input, RunFault};
use sedck_script::ScriptFault;

/// Writes the refusal's line.
pub(crate) fn write_refusal<E: Sink>(err: &mut E, refusal: Refusal) -> Result<(), Failed>
    ensures written { OnOk result (Appends (E.taken err.old) (E.taken err.new) (refusal_line refusal)) }
    ensures failure { ReportsFailure result (E.has_failed err.old) (E.has_failed err.new) }
{
    write_all(err, b"sedck: ")?;
    write_words(err, refusal)?;
    write_all(err, b"\n")
}

/// Writes what the refusal says.
fn write_words<E: Sink>(err: &mut E, refusal: Refusal) -> Result<(), Failed>
    ensures written { OnOk result (Appends (E.taken err.old) (E.taken err.new) (refusal_words refusal)) }
    ensures failure { ReportsFailure result (E.has_failed err.old) (E.has_failed err.new) }
{
    match refusal {
        Refusal::Usage => write_all(
            err,
            b"usage: sedck rank SCRIPT, check SCRIPT CERT, files SCRIPT, graph SCRIPT, upgrade CERT",
        ),
        Refusal::Run(RunFault::Script(fault)) => write_script_fault(err, fault),
        Refusal::Run(RunFault::Certificate(fault)) => write_certificate_fault(err, fault),
        Refusal::Run(RunFault::Read(input)) => write_unread(err, input),
        Refusal::Run(RunFault::Write) => write_all(err, b"cannot write"),
        Refusal::Run(RunFault::OutOfMemory) => write_all(err, b"out of memory"),
    }
}

/// Writes which input can't be read.
fn write_unread<E: Sink>(err: &mut E, input: Input) -> Result<(), Failed>
    ensures written { OnOk result (Appends (E.taken err.old) (E.taken err.new) (codes "cannot read " ++ input_text input)) }
    ensures failure { ReportsFailure result (E.has_failed err.old) (E.has_failed err.new) }
{
    match input {
        Input::Script => write_all(err, b"cannot read script"),
        Input::Certificate => write_all(err, b"cannot read certificate"),
    }
}

/// Writes the fault of a script, with what is wrong in its expression.
fn write_script_fault<E: Sink>(err: &mut E, fault: ScriptFault) -> Result<(), Failed>
    ensures written { OnOk result (Appends (E.taken err.old) (E.taken err.new) (codes "script " ++ fault_words fault)) }
    ensures failure { ReportsFailure result (E.has_failed err.old) (E.has_failed err.new) }
{
    write_all(err, b"script fault ")?;
    write_fault(err, fault.number(), fault.name())?;
    write_place(err, b" at ", fault.place())?;
    write_cause(err, fault)
}

/// Writes what is wrong in the expression, where the fault is an expression's.
fn write_cause<E: Sink>(err: &mut E, fault: ScriptFault) -> Result<(), Failed>
    ensures written { OnOk result (Appends (E.taken err.old) (E.taken err.new) (cause_words fault)) }
    ensures failure { ReportsFailure result (E.has_failed err.old) (E.has_failed err.new) }
{
    let ScriptFault::BadExpression { fault, .. } = fault else {
        return Ok(());
    };
    write_all(err, b": expression fault ")?;
    write_fault(err, fault.number(), fault.name())?;
    write_place(err, b" at ", fault.place())
}

/// Writes the fault of a certificate.
fn write_certificate_fault<E: Sink>(err: &mut E, fault: CertFault) -> Result<(), Failed>
    ensures written { OnOk result (Appends (E.taken err.old) (E.taken err.new) (codes "certificate " ++ fault_text fault)) }
    ensures failure { ReportsFailure result (E.has_failed err.old) (E.has_failed err.new) }
{
    write_all(err, b"certificate fault ")?;
    write_fault(err, fault.number(), fault.name())?;
    write_place(err, b" at line ", fault.line())
}

/// Writes the number and the name of a fault.
fn write_fault<E: Sink>(err: &mut E, number: u8, name: &str) -> Result<(), Failed>
    ensures written { OnOk result (Appends (E.taken err.old) (E.taken err.new) (decimal number ++ (codes " " ++ name.now))) }
    ensures failure { ReportsFailure result (E.has_failed err.old) (E.has_failed err.new) }
{
    write_decimal(err, usize::from(number))?;
    write_all(err, b" ")?;
    write_all(err, name.as_bytes())
}

/// Writes the place after the words that lead to it, where there is one.
fn write_place<E: Sink>(err: &mut E, words: &[u8], place: Option<usize>) -> Result<(), Failed>
    ensures written { OnOk result (Appends (E.taken err.old) (E.taken err.new) (place_behind words.now place)) }
    ensures failure { ReportsFailure result (E.has_failed err.old) (E.has_failed err.new) }
{
    let Some(place) = place else {
        return Ok(());
    };
    write_all(err, words)?;
    write_decimal(err, place)
}
