//! Scripts without a lone `$`: nodes on both sides of the last line reach equally many nodes.

ghost use Rattle.std.specs.Prelude.{◌≡◌, ◌≢◌, ◌↔◌, IsTrue, length};
ghost use Rattle.std.specs.Bool.{OnFalse};
ghost use Rattle.sedck_script.specs.Invariant.{IsScript};
ghost use Rattle.sedck_script.specs.View.{address_of};
ghost use Rattle.sedck_search.specs.Private.Reaching.{ArePartlyCounted};
ghost use Rattle.sedck_search.specs.Private.OtherSide.{IsLastAlone, AsksNotForLast};
ghost use Rattle.sedck_search.specs.declared.filter.EdgeFilter.TheVariants.{Every};

use crate::counting::{UNCOUNTED, UNREACHED};
use crate::filter::Graph;
use sedck_script::{Address, Place, Script};

/// Counts the marked nodes on the last line whose nodes before it are counted, in a script that doesn't ask for the last line:
/// both reach as many.
pub(crate) fn count_turned(graph: Graph, counts: &mut [u16])
    requires script { IsScript graph.script.now }
    requires filter { graph.filter ≢ Every }
    requires never { AsksNotForLast graph.script.now }
    requires counted { ArePartlyCounted graph.script.now graph.filter counts.old }
    ensures long { length counts.new ≡ length counts.old }
    ensures counted { ArePartlyCounted graph.entry.script.now graph.entry.filter counts.new }
{
    for step in 0..counts.len() / 2 {
        let count = counts[2 * step];
        if count != UNREACHED && count != UNCOUNTED && counts[2 * step + 1] == UNCOUNTED {
            counts[2 * step + 1] = count;
        }
    }
}

/// Whether some command is selected by a single `$`.
pub(crate) fn asks_for_last(script: &Script) -> bool
    ensures { OnFalse result (AsksNotForLast script.now) }
{
    for command in script.commands() {
        if is_last_alone(&command.address) {
            return true;
        }
    }
    false
}

/// Whether the address is a single `$`.
fn is_last_alone(address: &Address) -> bool
    ensures { IsTrue result ↔ IsLastAlone (address_of address.now) }
{
    matches!(address, Address::One(Place::Last))
}
