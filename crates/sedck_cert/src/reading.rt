//! From a text to its certificate.

ghost use Rattle.std.specs.Prelude.{◌≡◌, ◌⊎◌, ◌↔◌, IsTrue, IfOk, IfErr, IfSome, Some};
ghost use Rattle.sedck_cert.specs.Certificate.{Certificate};
ghost use Rattle.sedck_cert.specs.Text.{IsTextOf};
ghost use Rattle.sedck_cert.specs.Private.Fields.{with_parts};
ghost use Rattle.sedck_cert.specs.Versions.{SpellsCertificate, SaysVersionOne, IsFaultIn};
ghost use Rattle.sedck_cert.specs.declared.versions.Version.TheVariants.{One, Two};
ghost use Rattle.sedck_cert.specs.Faults.{IsFaultOf, IsLineOf, line_of};
ghost use Rattle.sedck_cert.specs.FaultText.{number_of, name_of, fault_text};
ghost use Rattle.sedck_cert.specs.declared.reading.CertFault.TheVariants.{OutOfMemory};

mod frame;
mod lines;
mod names;
mod nodes;
mod numbers;

use self::frame::{command_count, ending, header, next_is};
use self::lines::Lines;
use self::names::{Files, names};
use self::nodes::nodes;
use crate::certificate::{Cert, Parts};
use crate::version_one::{CertOne, upgrade};
use crate::versions::Version;
use std::alloc::{AllocError, AllocFailed, Global};
use std::fmt;

/// Why a text is no certificate's, and at which line, counted from 1.
#[derive(Clone, Copy, Drop)]
pub enum CertFault {
    /// The first line isn't `sedck 2`, or `sedck 1` for version 1.
    BadHeader { line: usize },
    /// The second line isn't the number of commands, at most 4095, in its one spelling.
    BadCount { line: usize },
    /// The line isn't the next node's in its one spelling, with ranks of at most 65535.
    BadNode { line: usize },
    /// The line isn't the count of a list, at most 4095, or the next name, after the one before and within the limit on bytes.
    BadNames { line: usize },
    /// The line isn't `end`, or something follows it: then the line is the one after.
    BadEnd { line: usize },
    /// A growth was refused.
    OutOfMemory,
}

impl CertFault {
    /// The number that is printed, and kept for ever: users and scripts compare it.
    pub fn number(self) -> u8
        ensures { result ≡ number_of self }
    {
        self.row().0
    }

    /// The name that is printed with the number.
    pub fn name(self) -> &'static str
        ensures { result.now ≡ name_of self }
    {
        self.row().1
    }

    /// The line, counted from 1. Running out of memory has none.
    pub fn line(self) -> Option<usize>
        ensures { result ≡ line_of self }
    {
        self.row().2
    }

    /// The number, the name and the line.
    fn row(self) -> (u8, &'static str, Option<usize>)
        ensures number { result.0 ≡ number_of self }
        ensures name { result.1.now ≡ name_of self }
        ensures line { result.2 ≡ line_of self }
    {
        match self {
            CertFault::BadHeader { line } => (1, "bad-header", Some(line)),
            CertFault::BadCount { line } => (2, "bad-count", Some(line)),
            CertFault::BadNode { line } => (3, "bad-node", Some(line)),
            CertFault::BadNames { line } => (4, "bad-names", Some(line)),
            CertFault::BadEnd { line } => (5, "bad-end", Some(line)),
            CertFault::OutOfMemory => (6, "out-of-memory", None),
        }
    }
}

impl fmt::Display for CertFault {
    ghost output = { λ fault. Some (fault_text fault) };

    fn fmt<W: fmt::Write>(&self, f: &mut fmt::Formatter<W>) -> fmt::Result {
        write!(f, "fault {} {}", self.number(), self.name())?;
        match self.line() {
            None => Ok(()),
            Some(line) => write!(f, " at line {line}"),
        }
    }
}

impl From<AllocError> for CertFault {
    ghost from_gives = { λ _ e. e ≡ OutOfMemory };

    fn from(_e: AllocError) -> CertFault {
        CertFault::OutOfMemory
    }
}

impl<T: Drop> From<AllocFailed<T>> for CertFault {
    ghost from_gives = { λ _ e. e ≡ OutOfMemory };

    fn from(_e: AllocFailed<T>) -> CertFault {
        CertFault::OutOfMemory
    }
}

/// Reads a certificate from a text of version 2.
pub fn read_cert(alloc: Global, text: &[u8]) -> Result<Cert, CertFault>
    // What is read is the certificate whose text this is, and no other has that text.
    ensures read { IfOk result (IsTextOf Two text.now) }
    ensures only { IfOk result (λ cert. (other : Certificate) → IsTextOf Two text.now other → other ≡ cert) }
    // Unless memory runs out, a text is refused only where it is no certificate's, by the fault of its first wrong line.
    ensures refused { IfErr result (λ fault. fault ≡ CertFault.OutOfMemory
        ⊎ (((other : Certificate) → ¬ IsTextOf Two text.now other) × IsFaultOf Two text.now fault)) }
    ensures placed { IfErr result (λ fault. IfSome (line_of fault) (IsLineOf text.now)) }
{
    Ok(Cert::of_parts(read_lines(alloc, Version::Two, text)?))
}

/// Reads a certificate from a text of version 1.
pub fn read_cert_one(alloc: Global, text: &[u8]) -> Result<CertOne, CertFault>
    // As for `read_cert`, by the rules of version 1.
    ensures read { IfOk result (IsTextOf One text.now) }
    ensures only { IfOk result (λ cert. (other : Certificate) → IsTextOf One text.now other → other ≡ cert) }
    ensures refused { IfErr result (λ fault. fault ≡ CertFault.OutOfMemory
        ⊎ (((other : Certificate) → ¬ IsTextOf One text.now other) × IsFaultOf One text.now fault)) }
    ensures placed { IfErr result (λ fault. IfSome (line_of fault) (IsLineOf text.now)) }
{
    Ok(CertOne::of_parts(read_lines(alloc, Version::One, text)?))
}

/// Reads a certificate from a text of either version. One of version 1 is upgraded.
pub fn read_any(alloc: Global, text: &[u8]) -> Result<Cert, CertFault>
    // What is read is the certificate that the text spells, and it spells no other.
    ensures read { IfOk result (SpellsCertificate text.now) }
    ensures only { IfOk result (λ cert. (other : Certificate) → SpellsCertificate text.now other → other ≡ cert) }
    // Unless memory runs out, a text is refused only where it spells no certificate, by the rules of the version that its first line says.
    ensures refused { IfErr result (λ fault. fault ≡ CertFault.OutOfMemory
        ⊎ (((other : Certificate) → ¬ SpellsCertificate text.now other) × IsFaultIn text.now fault)) }
    ensures placed { IfErr result (λ fault. IfSome (line_of fault) (IsLineOf text.now)) }
{
    if !says_version_one(text) {
        return read_cert(alloc, text);
    }
    let one = read_cert_one(alloc, text)?;
    Ok(upgrade(alloc, &one)?)
}

/// Whether the first line is that of version 1.
fn says_version_one(text: &[u8]) -> bool
    ensures { IsTrue result ↔ SaysVersionOne text.now }
{
    next_is(&mut Lines::new(text), Version::One.header())
}

/// Reads the lines in order. That no other certificate has the text is added by the callers.
fn read_lines(alloc: Global, version: Version, text: &[u8]) -> Result<Parts, CertFault>
    ensures read { IfOk result (λ parts. IsTextOf version text.now (with_parts parts)) }
    ensures refused { IfErr result (λ fault. (fault ≡ CertFault.OutOfMemory) ⊎ IsFaultOf version text.now fault) }
{
    let mut lines = Lines::new(text);
    header(&mut lines, version)?;
    let commands = command_count(&mut lines, version)?;
    let ranks = nodes(alloc, &mut lines, version, commands)?;
    let (reads, size) = names(alloc, &mut lines, Files::Reads, 0)?;
    let (writes, _) = names(alloc, &mut lines, Files::Writes, size)?;
    ending(&mut lines)?;
    Ok(Parts {
        commands,
        ranks,
        reads,
        writes,
    })
}
