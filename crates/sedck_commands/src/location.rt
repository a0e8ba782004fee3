//! Where commands are in the text.

ghost use Rattle.std.specs.Prelude.{◌≡◌, IfOk, IfErr};
ghost use Rattle.sedck_commands.specs.ItemView.{locations_in};

use crate::fault::ScriptFault;
use crate::items::WrittenItem;
use std::alloc::Global;

/// Where a command is in its script's text, in bytes from 0.
#[derive(Clone, Copy, PartialEq, Eq)]
pub struct Location {
    /// Its first byte: that of its addresses, or else of a `!` or its verb.
    pub start: usize,
    /// The byte of its verb.
    pub verb: usize,
    /// Where it ends: after its blanks the newline, `;`, `}` or comment that ends it; for `{` the next byte;
    /// for a text or a file name the newline after it; and else the end of the script.
    pub end: usize,
}

/// The locations of the commands among the items, in order.
pub fn locations<'a>(alloc: Global, items: &[WrittenItem<'a>]) -> Result<Vec<Location>, ScriptFault>
    ensures all { IfOk result (λ locations. locations.items ≡ locations_in items.now) }
    ensures memory { IfErr result (λ fault. fault ≡ ScriptFault.OutOfMemory) }
{
    let mut locations = Vec::new(alloc);
    for item in items {
        if let WrittenItem::Command(command) = item {
            locations.push(command.location)?;
        }
    }
    Ok(locations)
}
