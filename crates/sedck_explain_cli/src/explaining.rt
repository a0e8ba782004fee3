//! A script, from the files of the request to what is written of it.

ghost use Rattle.std.specs.Prelude.{◌≡◌, ◌≢◌, ◌⊎◌, true, is_some, IsTrue, IfOk, IfErr};
ghost use Rattle.std.specs.Option.{option_map};
ghost use Rattle.std.specs.Io.KnownBytes.{Keeps};
ghost use Rattle.sedck_answer.specs.Status.{IsOfAnswer};
ghost use Rattle.sedck_engines.specs.Inputs.{IsRead};
ghost use Rattle.sedck_engines.specs.declared.answer.RunFault.TheVariants as fault;
ghost use Rattle.sedck_explanation.specs.Called.{known_bytes};
ghost use Rattle.sedck_explain_cli.specs.Explained.{IsExplained, IsReason, IsReasonOf};
ghost use Rattle.sedck_explain_cli.specs.Private.Said.{IsExplainedAt, IsExplainedUnder};
ghost use Rattle.sedck_explain_cli.specs.Requests.{certificate_of};
ghost use Rattle.sedck_explain_cli.specs.Statuses.{IsGiven};

use crate::delivering::deliver_under;
use crate::mending::mend_of;
use crate::session::Session;
use sedck_calls_in_files::{Named, Reporter, deliver};
use sedck_cert::streams::{FromRead, Sink, Source};
use sedck_engines::{Input as InputOf, Opener, RunFault, read_certificate, read_script};
use sedck_explanation::{Denied, Status, explain};
use sedck_plain::Comments;
use std::io::Input;

/// What is read of a script, and of its certificate, if one is given.
#[derive(Drop)]
pub struct Inputs {
    pub text: Vec<u8>,
    pub certificate: Option<Vec<u8>>,
}

/// Explains the script at the path, with the certificate where one is given, and writes what is said of it, or of another script where mends
/// are asked for.
pub(crate) fn explain_path<R: Input + AllocGlobal, O: Opener, F, W: Sink, E: Sink>(
    session: &Session<R, O, F>,
    path: &str,
    plain: Option<Comments>,
    out: &mut W,
    err: &mut E,
) -> Result<Status, RunFault>
    ensures { IfOk result (IsExplainedAt (O.known session.now.files.now) session.now.request.now path.now (is_some plain)
        (record { before = W.taken out.old; after = W.taken out.new })
        (record { before = E.taken err.old; after = E.taken err.new })) }
{
    let inputs = inputs_of(session, path)?;
    let style = session.style();
    let named = Named {
        alloc: session.alloc(),
        reporter: &style,
        name: session.request.name_of(path),
        parts: &[],
        plain,
    };
    if session.request.mends {
        return explain_under(&named, &inputs, session.request.denied, out, err);
    }
    explain_inputs(&named, &inputs, session.request.denied, out, err)
}

/// Reads the script at the path, and the certificate, if one is given. Both are open before one is read.
pub fn inputs_of<R: Input + AllocGlobal, O: Opener, F>(
    session: &Session<R, O, F>,
    path: &str,
) -> Result<Inputs, RunFault>
    ensures text { IfOk result (λ inputs. IsRead 1048577 (known_bytes (O.known session.now.files.now) path.now) inputs.text.items) }
    ensures given { IfOk result (λ inputs. IsGiven (O.known session.now.files.now) (certificate_of session.now.request.now)
        (option_map (λ bytes. bytes.items) inputs.certificate)) }
    ensures reason { IfErr result (IsReason (O.known session.now.files.now) (certificate_of session.now.request.now) path.now) }
{
    if path == "-" {
        return read_inputs(session, &mut FromRead::new(session.rt.reader()));
    }
    match session.files.open(path) {
        Ok(mut script) => read_inputs(session, &mut script),
        Err(_) => Err(RunFault::Read(InputOf::Script)),
    }
}

/// The same, where the script is open.
fn read_inputs<R: AllocGlobal, O: Opener, F, S: Source>(
    session: &Session<R, O, F>,
    script: &mut S,
) -> Result<Inputs, RunFault>
    ensures text { IfOk result (λ inputs. IsRead 1048577 (S.left script.old) inputs.text.items) }
    ensures given { IfOk result (λ inputs. IsGiven (O.known session.now.files.now) (certificate_of session.now.request.now)
        (option_map (λ bytes. bytes.items) inputs.certificate)) }
    ensures reason { IfErr result (IsReasonOf (O.known session.now.files.now) (certificate_of session.now.request.now) (IsTrue (S.has_failed script.new))) }
{
    let alloc = session.alloc();
    let Some(path) = session.request.certificate else {
        let text = read_script(alloc, script)?;
        return Ok(Inputs {
            text,
            certificate: None,
        });
    };
    let Ok(mut certificate) = session.files.open(path) else {
        return Err(RunFault::Read(InputOf::Certificate));
    };
    let text = read_script(alloc, script)?;
    let certificate = Some(read_certificate(alloc, &mut certificate)?);
    Ok(Inputs { text, certificate })
}

/// Explains what was read, writes what is said of it, and answers the exit status: that of the explanation, which is `Rejected` where
/// the script is accepted and has what is denied. Where a plain spelling is asked for, it is `Refused` for an accepted script without one.
pub fn explain_inputs<F: Reporter, W: Sink, E: Sink>(
    named: &Named<F>,
    inputs: &Inputs,
    denied: Denied,
    out: &mut W,
    err: &mut E,
) -> Result<Status, RunFault>
    ensures few { IfOk result IsOfAnswer }
    ensures explained { IfOk result (IsExplained (is_some named.now.plain) (F.reported named.now.reporter.now named.now.name.now)
        inputs.now.text.items (option_map (λ bytes. bytes.items) inputs.now.certificate) denied
        (record { before = W.taken out.old; after = W.taken out.new })
        (record { before = E.taken err.old; after = E.taken err.new })) }
    ensures reason { IfErr result (λ why. why ≡ fault.OutOfMemory
        ⊎ ((why ≡ fault.Write) × IsTrue (W.has_failed out.new))) }
    ensures kept { IfErr result (λ why. why ≢ fault.Write → Keeps (W.taken out.old) (W.taken out.new)) }
{
    let certificate = inputs.certificate.as_deref();
    let own = own_path(named.name);
    let explanation = explain(named.alloc, own, &inputs.text, certificate, denied)?;
    deliver(named, &explanation, out, err)
}

/// The same, but where the script is refused it is explained with another delimiter for each command that has its own in a list: what is said
/// then holds under a condition.
fn explain_under<F: Reporter, W: Sink, E: Sink>(
    named: &Named<F>,
    inputs: &Inputs,
    denied: Denied,
    out: &mut W,
    err: &mut E,
) -> Result<Status, RunFault>
    ensures { IfOk result (IsExplainedUnder true (is_some named.now.plain) inputs.now.text.items
        (option_map (λ bytes. bytes.items) inputs.now.certificate) denied
        (record { before = W.taken out.old; after = W.taken out.new })
        (record { before = E.taken err.old; after = E.taken err.new })) }
{
    let given = inputs.certificate.as_deref();
    let own = own_path(named.name);
    let explanation = explain(named.alloc, own, &inputs.text, given, denied)?;
    let Some(mended) = mend_of(named.alloc, true, &inputs.text, explanation.status)? else {
        return deliver(named, &explanation, out, err);
    };
    let other = explain(named.alloc, own, &mended.text, None, denied)?;
    if matches!(other.status, Status::Refused) {
        return deliver(named, &explanation, out, err);
    }
    let other = mended.reported(named.alloc, &inputs.text, other)?;
    deliver_under(named, other, out, err)
}

/// The path of the script's own file, unless the name is that of standard input.
fn own_path(name: &str) -> Option<&[u8]> {
    (name != "-").then_some(name.as_bytes())
}
