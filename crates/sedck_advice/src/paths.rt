//! Which names of a script lead to one file.

use crate::names::NamedFiles;
use sedck_call::{last_part, path_of};
use sedck_report::NamedFile;
use std::alloc::{AllocError, Global};

/// The paths of all names of a script, in order, each once for each name.
#[derive(Drop)]
pub(crate) struct Paths<'a> {
    pub files: NamedFiles<'a>,
    sorted: Vec<Vec<u8>>,
}

impl<'a> Paths<'a> {
    /// The paths of these names. A name that is on both sides counts once.
    pub(crate) fn of(alloc: Global, files: NamedFiles<'a>) -> Result<Paths<'a>, AllocError> {
        let mut sorted: Vec<Vec<u8>> = Vec::new(alloc);
        for file in files.reads {
            sorted.push(path_of(alloc, file.name)?)?;
        }
        for file in files.writes {
            if !has_name(files.reads, file.name) {
                sorted.push(path_of(alloc, file.name)?)?;
            }
        }
        sorted.sort()?;
        Ok(Paths { files, sorted })
    }

    /// Whether the last part of this name is that of a path of the script's own: from which folder sed will be called is unknown.
    pub(crate) fn is_own(&self, name: &[u8]) -> bool {
        for own in self.files.own {
            if last_part(own) == last_part(name) {
                return true;
            }
        }
        false
    }

    /// Whether the name leads to an operand of the call. The operand `-` is standard input.
    pub(crate) fn is_input(&self, alloc: Global, name: &[u8]) -> Result<bool, AllocError> {
        let path = path_of(alloc, name)?;
        for input in self.files.inputs {
            if *input != b"-".as_slice() && path_of(alloc, input)? == path {
                return Ok(true);
            }
        }
        Ok(false)
    }

    /// Whether another name has the path of this one.
    pub(crate) fn is_shared(&self, alloc: Global, name: &[u8]) -> Result<bool, AllocError> {
        let path = path_of(alloc, name)?;
        let Ok(index) = self.sorted.binary_search(&path) else {
            return Ok(false);
        };
        let before = match index.checked_sub(1) {
            Some(before) => self.sorted.get(before),
            None => None,
        };
        let behind = self.sorted.get(index.saturating_add(1));
        Ok(before == Some(&path) || behind == Some(&path))
    }
}

/// Whether the files, which are sorted by name, have this one.
pub(crate) fn has_name(files: &[NamedFile], name: &[u8]) -> bool {
    files.binary_search_by(|file| file.name.cmp(&name)).is_ok()
}
