//! What follows from the definitions.

ghost use Rattle.sedck_mentions.specs.Told.{EachIsTold};

/// Each word for a sed is told of: by names of calls, by places that aren't understood, or as a word of which nothing else is told.
#[tactic(auto, using(crate::proofs::Each::each_is_told))]
pub fn each_is_told()
    ensures { EachIsTold }
{}
