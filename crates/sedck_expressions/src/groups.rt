//! The groups of an expression while it is read.

ghost use Rattle.std.specs.Prelude.{◌≡◌, length};

/// How many groups have been opened, and which are closed.
#[derive(Drop)]
pub(crate) struct Groups {
    pub(crate) opened: u8,
    pub(crate) closed: [bool; 256],
    ghost long: { length closed ≡ 256 },
}
