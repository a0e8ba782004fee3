//! Certificates whose text is of version 1, and what becomes of them.

ghost use Rattle.std.specs.Prelude.{◌≡◌, ◌≤◌, length, IfOk};
ghost use Rattle.sedck_cert.specs.Certificate.{IsCertificate};
ghost use Rattle.sedck_cert.specs.VersionOne.{doubled as each_twice, upgraded};
ghost use Rattle.sedck_cert.specs.View.{names_of};
ghost use Rattle.sedck_cert.specs.Private.Fields.{with_parts};
ghost use Rattle.sedck_cert.specs.declared.versions.Version.TheVariants.{One};

use crate::certificate::{Cert, Parts};
use std::alloc::{AllocError, Global};
use std::marker::Model;

/// A certificate of version 1, whose nodes don't know the last line.
#[derive(Drop)]
pub struct CertOne {
    parts: Parts,
}

impl Model for CertOne {
    ghost use Rattle.sedck_cert.specs.Certificate.{Certificate};

    ghost Value = { Certificate };

    ghost use Rattle.sedck_cert.specs.Private.Fields.{shown_one, IsGoodOne};

    ghost view = { shown_one };

    ghost invariant = { IsGoodOne };
}

impl CertOne {
    /// The certificate of these parts.
    pub(crate) fn of_parts(parts: Parts) -> CertOne
        requires { IsCertificate One (with_parts parts) }
        ensures { result ≡ with_parts parts }
    {
        CertOne { parts }
    }
}

/// The certificate over nodes that know the last line: each node has become two, and both get its ranks.
pub fn upgrade(alloc: Global, one: &CertOne) -> Result<Cert, AllocError>
    ensures { IfOk result (λ cert. cert ≡ upgraded one.now) }
{
    Ok(Cert::of_parts(Parts {
        commands: one.parts.commands,
        ranks: doubled(alloc, &one.parts.ranks)?,
        reads: copied(alloc, &one.parts.reads)?,
        writes: copied(alloc, &one.parts.writes)?,
    }))
}

/// Each entry twice.
fn doubled(
    alloc: Global,
    ranks: &[Option<(u16, u16)>],
) -> Result<Vec<Option<(u16, u16)>>, AllocError>
    ensures { IfOk result (λ both. both.items ≡ each_twice ranks.now) }
{
    let mut both = Vec::new(alloc);
    for pair in ranks {
        both.extend_from_slice(&[*pair, *pair])?;
    }
    Ok(both)
}

/// The names with memory of their own.
fn copied(alloc: Global, names: &[Vec<u8>]) -> Result<Vec<Vec<u8>>, AllocError>
    ensures { IfOk result (λ copies. names_of copies.items ≡ names_of names.now) }
{
    let mut copies = Vec::new(alloc);
    for name in names {
        copies.push(Vec::from_slice(alloc, name)?)?;
    }
    Ok(copies)
}
