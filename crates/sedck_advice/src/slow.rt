//! Expressions with which the matchers of seds may take very long: those that repeat a reference or what may match nothing, and those that
//! intervals make very long.

ghost use Rattle.std.specs.Prelude.{◌≡◌};
ghost use Rattle.std.specs.Option.{is_some};
ghost use Rattle.sedck_advice.specs.Slow.{is_slow};

use crate::weights::{weight_of, weight_of_command};
use sedck_report::Position;
use sedck_script::Script;

/// The most items that the intervals of a script write out where it isn't slow.
pub const ITEM_LIMIT: u32 = 2_000;

/// Why a script is slow, and where.
#[derive(Clone, Copy)]
pub struct Slow {
    /// The verb of the first command that repeats a reference or what may match nothing, or else of the one whose intervals are the longest.
    pub position: Option<Position>,
    pub reason: &'static str,
}

/// Why the script is slow, where it is.
pub fn slow_of(script: &Script, positions: &[Position]) -> Option<Slow>
    ensures { is_some result ≡ is_slow script.now }
{
    let weight = weight_of(script.commands());
    if weight.repetition {
        return Some(Slow {
            position: first_repeating(script, positions),
            reason: "a reference, or what may match nothing, is repeated, and matching may take very long and much memory",
        });
    }
    if weight.items > ITEM_LIMIT {
        return Some(Slow {
            position: longest(script, positions),
            reason: "its intervals write out more than 2,000 items, for which matching may take very long and much memory",
        });
    }
    None
}

/// Where the first command is that repeats a reference, or what may match nothing.
fn first_repeating(script: &Script, positions: &[Position]) -> Option<Position> {
    for (command, position) in script.commands().iter().zip(positions) {
        if weight_of_command(command).repetition {
            return Some(*position);
        }
    }
    None
}

/// Where the command is whose intervals write out the most items.
fn longest(script: &Script, positions: &[Position]) -> Option<Position> {
    let mut most = 0;
    let mut place = None;
    for (command, position) in script.commands().iter().zip(positions) {
        let items = weight_of_command(command).items;
        if items > most {
            most = items;
            place = Some(*position);
        }
    }
    place
}
