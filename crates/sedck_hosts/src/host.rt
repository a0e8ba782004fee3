//! The shell text of a file.

use crate::autoconf::host_of_autoconf;
use crate::docker::host_of_docker;
use crate::make::host_of_make;
use crate::parts::is_in;
use crate::spec::host_of_spec;
use crate::systemd::host_of_systemd;
use crate::yaml::host_of_yaml;
use sedck_kinds::Kind;
use sedck_origin::{Result, Unit};
use std::alloc::Global;

/// An assignment of make's, as `NAME = value`; its value is a text of shell if the name is used in a recipe.
#[derive(Drop)]
pub struct Assignment {
    pub name: Vec<u8>,
    pub value: Vec<Unit>,
}

/// The shell text of a file.
#[derive(Drop)]
pub struct Host {
    /// Each is a text by itself.
    pub texts: Vec<Vec<Unit>>,
    /// Assignments outside of shell text.
    pub assignments: Vec<Assignment>,
}

impl Host {
    pub(crate) fn new(alloc: Global) -> Host {
        Host {
            texts: Vec::new(alloc),
            assignments: Vec::new(alloc),
        }
    }

    /// Adds a text, unless it has only blanks and newlines.
    pub(crate) fn add(&mut self, units: Vec<Unit>) -> Result<()> {
        for unit in &units {
            if !matches!(*unit, Unit::Byte(byte, _) if is_in(byte, " \t\n\r")) {
                return Ok(self.texts.push(units)?);
            }
        }
        Ok(())
    }
}

/// The shell text in a file of this kind; nothing of a shell script, which is one as a whole.
pub fn host_of(alloc: Global, kind: Kind, file: &[u8]) -> Result<Host> {
    match kind {
        Kind::Shell => Ok(Host::new(alloc)),
        Kind::Make => host_of_make(alloc, file),
        Kind::Docker => host_of_docker(alloc, file),
        Kind::Yaml => host_of_yaml(alloc, file),
        Kind::Spec => host_of_spec(alloc, file),
        Kind::Autoconf => host_of_autoconf(alloc, file),
        Kind::Systemd => host_of_systemd(alloc, file),
    }
}
