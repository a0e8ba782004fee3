//! What an engine answers.

ghost use Rattle.std.specs.Prelude.{◌≡◌, Some};
ghost use Rattle.sedck_engines.specs.declared.answer.RunFault.TheVariants.{OutOfMemory};
ghost use Rattle.sedck_engines.specs.Faults.{run_fault, script_fault, certificate_fault};

use sedck_cert::{CertFault, Fault};
use sedck_script::ScriptFault;
use std::alloc::AllocError;
use std::fmt;
use thiserror::Error;

/// What a report says in one word.
#[derive(Clone, Copy, PartialEq, Eq)]
pub enum Outcome {
    /// The certificate is accepted, or what was asked for is reported.
    Yes,
    /// The certificate is rejected, or a loop rules all certificates out.
    No,
}

/// What an engine reads.
#[derive(Clone, Copy)]
pub enum Input {
    /// The bytes of a script.
    Script,
    /// The bytes of a certificate.
    Certificate,
}

impl fmt::Display for Input {
    ghost use Rattle.sedck_engines.specs.Reports.{input_text};

    ghost output = { λ input. Some (input_text input) };

    fn fmt<W: fmt::Write>(&self, f: &mut fmt::Formatter<W>) -> fmt::Result {
        f.write_str(match self {
            Input::Script => "script",
            Input::Certificate => "certificate",
        })
    }
}

/// Why there is no whole report.
#[derive(Clone, Copy, Drop, Error)]
pub enum RunFault {
    /// The bytes that were read spell no script. This is never a script's `OutOfMemory`.
    #[error("script {0}")]
    Script(ScriptFault),
    /// The bytes that were read spell no certificate. This is never a certificate's `OutOfMemory`.
    #[error("certificate {0}")]
    Certificate(CertFault),
    /// A read of this input has failed.
    #[error("cannot read {0}")]
    Read(Input),
    /// A write of the report has failed.
    #[error("cannot write")]
    Write,
    /// Memory ran out, in this crate or below.
    #[error("out of memory")]
    OutOfMemory,
}

impl fmt::Debug for RunFault {
    fn fmt<W: fmt::Write>(&self, f: &mut fmt::Formatter<W>) -> fmt::Result {
        fmt::Display::fmt(self, f)
    }
}

impl From<AllocError> for RunFault {
    ghost from_gives = { λ _ e. e ≡ OutOfMemory };

    fn from(_error: AllocError) -> RunFault {
        RunFault::OutOfMemory
    }
}

impl From<ScriptFault> for RunFault {
    ghost from_gives = { λ fault e. e ≡ script_fault fault };

    fn from(fault: ScriptFault) -> RunFault {
        match fault {
            ScriptFault::OutOfMemory => RunFault::OutOfMemory,
            _ => RunFault::Script(fault),
        }
    }
}

impl From<CertFault> for RunFault {
    ghost from_gives = { λ fault e. e ≡ certificate_fault fault };

    fn from(fault: CertFault) -> RunFault {
        match fault {
            CertFault::OutOfMemory => RunFault::OutOfMemory,
            _ => RunFault::Certificate(fault),
        }
    }
}

impl From<Fault> for RunFault {
    ghost from_gives = { λ fault e. e ≡ run_fault fault };

    fn from(fault: Fault) -> RunFault {
        match fault {
            Fault::Script(ScriptFault::OutOfMemory) => RunFault::OutOfMemory,
            Fault::Certificate(CertFault::OutOfMemory) => RunFault::OutOfMemory,
            Fault::Script(fault) => RunFault::Script(fault),
            Fault::Certificate(fault) => RunFault::Certificate(fault),
        }
    }
}
