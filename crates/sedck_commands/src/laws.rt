//! What is proved of the definitions alone. The functions do nothing: their contracts are the laws.

ghost use Rattle.sedck_commands.specs.Laws.{PlacesAreWithin, ItemFaultsRefuse};

/// The place of a fault is one in the text, or its end.
#[tactic(auto, using(crate::proofs::PlacesWithin::placed_within))]
pub fn places_are_within()
    ensures { PlacesAreWithin }
{}

/// A text with a first fault is spelled by no items that are within the limits, define each label once and close each block.
pub fn item_faults_refuse()
    ensures { ItemFaultsRefuse }
{}
