//! A certificate, as the program holds it.

ghost use Rattle.std.specs.Prelude.{◌≡◌, ◌↔◌, ◌+◌, ◌≤◌, length, Contains, All, IsTrue, IsSome, IfSome, MatchOption};
ghost use Rattle.sedck_script.specs.Names.{AreNames, IsName, names_size};
ghost use Rattle.sedck_cert.specs.Certificate.{IsCertificate, AreWithin};
ghost use Rattle.sedck_cert.specs.View.{names_of, certificate_of};
ghost use Rattle.sedck_cert.specs.Faults.{ComesAfter};
ghost use Rattle.sedck_cert.specs.Private.Fields.{with_parts};
ghost use Rattle.sedck_cert.specs.Private.Reading.{one_before};
ghost use Rattle.sedck_cert.specs.declared.versions.Version.TheVariants.{Two};

use crate::limits::NAMES_LIMIT;
use crate::versions::Version;
use std::marker::Model;

/// What a certificate holds, in any version.
#[derive(Drop)]
pub struct Parts {
    pub commands: u16,
    pub ranks: Vec<Option<(u16, u16)>>,
    pub reads: Vec<Vec<u8>>,
    pub writes: Vec<Vec<u8>>,
}

/// A certificate for a script.
#[derive(Drop)]
pub struct Cert {
    parts: Parts,
}

impl Model for Cert {
    ghost use Rattle.sedck_cert.specs.Certificate.{Certificate};

    ghost Value = { Certificate };

    ghost use Rattle.sedck_cert.specs.Private.Fields.{shown, IsGood};

    ghost view = { shown };

    ghost invariant = { IsGood };
}

impl Cert {
    /// The certificate of these parts, where their counts and names are within the limits. It takes no memory.
    pub fn new(
        commands: u16,
        ranks: Vec<Option<(u16, u16)>>,
        reads: Vec<Vec<u8>>,
        writes: Vec<Vec<u8>>,
    ) -> Option<Cert>
        ensures within { IsSome result ↔ IsCertificate Two (certificate_of commands ranks reads writes) }
        ensures same { IfSome result (λ cert. cert ≡ certificate_of commands ranks reads writes) }
    {
        if commands > 4095 || ranks.len() != usize::from(Version::Two.node_count(commands)) {
            return None;
        }
        know_limits(&ranks);
        let size = size_with(&reads, 0)?;
        size_with(&writes, size)?;
        Some(Cert::of_parts(Parts {
            commands,
            ranks,
            reads,
            writes,
        }))
    }

    /// The certificate of these parts.
    pub(crate) fn of_parts(parts: Parts) -> Cert
        requires { IsCertificate Two (with_parts parts) }
        ensures { result ≡ with_parts parts }
    {
        Cert { parts }
    }

    /// The number of commands of the script.
    pub fn commands(&self) -> u16
        ensures { result ≡ self.now.commands }
    {
        self.parts.commands
    }

    /// The ranks of each node, in the order of nodes.
    pub fn ranks(&self) -> &[Option<(u16, u16)>]
        ensures ranks { result.now ≡ self.now.ranks }
        ensures certificate { IsCertificate Two self.now }
    {
        &self.parts.ranks
    }

    /// The names of the files that the script reads.
    pub fn reads(&self) -> &[Vec<u8>]
        ensures { names_of result.now ≡ self.now.reads }
    {
        &self.parts.reads
    }

    /// The names of the files that the script writes.
    pub fn writes(&self) -> &[Vec<u8>]
        ensures { names_of result.now ≡ self.now.writes }
    {
        &self.parts.writes
    }
}

/// The bytes with those of these names, where they are names and within the limits.
fn size_with(names: &[Vec<u8>], mut size: usize) -> Option<usize>
    requires { size ≤ NAMES_LIMIT }
    ensures { MatchOption result (AreNames (names_of names.now) → size + names_size (names_of names.now) ≤ NAMES_LIMIT → ⊥)
        (λ end. AreNames (names_of names.now) × (end ≡ size + names_size (names_of names.now)) × (end ≤ NAMES_LIMIT)) }
{
    if names.len() > 4095 {
        return None;
    }
    let mut before = None;
    for name in names {
        if !is_next_name(before, name, size) {
            return None;
        }
        size += name.len() + 1;
        before = Some(name.as_slice());
    }
    Some(size)
}

/// Whether the name may follow the one before, where all names before it have this many bytes with their newlines.
pub(crate) fn is_next_name(before: Option<&[u8]>, name: &[u8], size: usize) -> bool
    requires { size ≤ NAMES_LIMIT }
    ensures { IsTrue result ↔ (IsName name.now × ComesAfter (one_before before.entry) name.now × (size + length name.now + 1 ≤ NAMES_LIMIT)) }
{
    is_name(name) && comes_after(before, name) && name.len() < NAMES_LIMIT - size
}

fn is_name(name: &[u8]) -> bool
    ensures { IsTrue result ↔ IsName name.now }
{
    !name.is_empty() && !has(name, b'\n') && !has(name, 0)
}

fn has(text: &[u8], byte: u8) -> bool
    ensures { IsTrue result ↔ Contains text.now byte }
{
    text.contains(&byte)
}

fn comes_after(before: Option<&[u8]>, name: &[u8]) -> bool
    ensures { IsTrue result ↔ ComesAfter (one_before before.entry) name.now }
{
    match before {
        None => true,
        Some(before) => before.cmp(name).is_lt(),
    }
}

/// All ranks are within the limit: their type sees to that, but only reading each one shows it to the proof.
fn know_limits(ranks: &[Option<(u16, u16)>])
    ensures { All AreWithin ranks.now }
{
    for pair in ranks {
        if let Some((first, second)) = *pair {
            know_limit(first);
            know_limit(second);
        }
    }
}

fn know_limit(_rank: u16)
    ensures { _rank ≤ 65535 }
{}
