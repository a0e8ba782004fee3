//! What is proved of runs that come back to a state. The function does nothing: its contract is the law.

ghost use Rattle.sedck_endless.specs.Endless.{RoundsNeverEnd};

/// Where a run comes back to a state, there is a run of each length on the same lines: no certificate can be accepted.
#[tactic(auto, using(crate::proofs::Forever::never_ends))]
pub fn rounds_never_end()
    ensures { RoundsNeverEnd }
{}
