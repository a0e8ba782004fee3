//! What is printed of a script so far.

use std::alloc::{AllocError, Global};

/// Bytes, in order. Where they don't fit into memory, nothing more is added, and there is no text at the end.
#[derive(Drop)]
pub(crate) struct Printed {
    pub(crate) alloc: Global,
    pub(crate) bytes: Vec<u8>,
    has_failed: bool,
}

impl Printed {
    pub(crate) fn new(alloc: Global) -> Printed {
        Printed {
            alloc,
            bytes: Vec::new(alloc),
            has_failed: false,
        }
    }

    pub(crate) fn push(&mut self, bytes: &[u8]) {
        self.has_failed = self.has_failed || self.bytes.extend_from_slice(bytes).is_err();
    }

    /// Adds the number in decimal.
    pub(crate) fn push_number(&mut self, n: u32) {
        match format!(in self.alloc; "{n}") {
            Ok(digits) => self.push(digits.as_bytes()),
            Err(_) => self.has_failed = true,
        }
    }

    /// Adds bytes that stand for themselves: with a backslash where they are of the special ones, and a newline as `\n`.
    pub(crate) fn push_escaped(&mut self, bytes: &[u8], special: &[u8]) {
        for byte in bytes {
            match *byte {
                b'\n' => self.push(b"\\n"),
                byte if special.contains(&byte) => self.push(&[b'\\', byte]),
                byte => self.push(&[byte]),
            }
        }
    }

    /// Adds the part, in which each delimiter is escaped, and the delimiter that ends it.
    pub(crate) fn push_part(&mut self, part: &Printed, delimiter: u8) {
        self.push_escaped(&part.bytes, &[delimiter]);
        self.push(&[delimiter]);
        self.has_failed = self.has_failed || part.has_failed;
    }

    /// All that was added.
    pub(crate) fn finish(self) -> Result<Vec<u8>, AllocError> {
        if self.has_failed {
            return Err(AllocError);
        }
        Ok(self.bytes)
    }
}
