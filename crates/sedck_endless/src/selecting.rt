//! Which commands sed applies.

use crate::held::Held;
use crate::matching::{anchors_of, first_match};
use sedck_model::{Budget, Undecided};
use sedck_script::{Address, Command, Pattern, Place};

/// Whether the address of the command selects the line, of so many; nothing where that isn't known here, as of ranges, which seds end
/// differently where a command is reached again in one cycle.
pub(crate) fn is_selected(
    command: &Command,
    held: &Held,
    count: usize,
    budget: &mut Budget,
) -> Result<Option<bool>, Undecided> {
    match &command.address {
        Address::None => Ok(Some(true)),
        Address::One(place) => is_there(place, held, count, budget),
        Address::Two(_, _) => Ok(None),
    }
}

/// Whether a single address selects the line.
fn is_there(
    place: &Place,
    held: &Held,
    count: usize,
    budget: &mut Budget,
) -> Result<Option<bool>, Undecided> {
    match place {
        Place::Line(number) => Ok(Some(held.read == *number as usize)),
        Place::Last => Ok(Some(held.read == count)),
        Place::Context(Pattern::Previous) => Ok(None),
        Place::Context(Pattern::Expr(expression)) => {
            let Some(anchors) = anchors_of(expression.body()) else {
                return Ok(None);
            };
            let found = first_match(expression.body(), anchors, &held.pattern, 0, budget)?;
            Ok(Some(found.is_some()))
        }
    }
}
