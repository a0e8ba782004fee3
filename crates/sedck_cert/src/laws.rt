//! What is proved of certificates and runs alone. The functions do nothing: their contracts are the laws.

ghost use Rattle.sedck_cert.specs.Laws.{NamesAreListed, RanksBoundRuns, SteadyRunsAreCounted, RanksBoundWideRuns, SteadyWideRunsAreCounted, FallingRunsAreCounted, FallingWideRunsAreCounted, TextsAreLimited, UpgradesAreAccepted, UpgradesKeepRanks};

/// The sorted names of a script are the one list of just the names that its commands name.
pub fn names_are_listed()
    ensures { NamesAreListed }
{}

/// No run of a ranked script has more steps than a number that the script, the ranks and the input give.
#[tactic(auto, using(crate::proofs::RanksBoundRuns::run_bounded))]
pub fn ranks_bound_runs()
    ensures { RanksBoundRuns }
{}

/// No run of a steady script has more steps than its limit, which grows with the input's bytes and lines alone.
#[tactic(auto, using(crate::proofs::SteadyRunsCounted::steady_counted))]
pub fn steady_runs_are_counted()
    ensures { SteadyRunsAreCounted }
{}

/// No wide run of a ranked script has more steps than a number that the script, the ranks and the lines of all files give.
#[tactic(auto, using(crate::proofs::RanksBoundRuns::wide_run_bounded))]
pub fn ranks_bound_wide_runs()
    ensures { RanksBoundWideRuns }
{}

/// No wide run of a steady script has more steps than its limit for the lines of all files.
#[tactic(auto, using(crate::proofs::SteadyRunsCounted::wide_steady_counted))]
pub fn steady_wide_runs_are_counted()
    ensures { SteadyWideRunsAreCounted }
{}

/// No run of a falling script has more steps than its limit, which grows with the number of the input's lines alone.
#[tactic(auto, using(crate::proofs::FallingRunsCounted::falling_counted))]
pub fn falling_runs_are_counted()
    ensures { FallingRunsAreCounted }
{}

/// No wide run of a falling script has more steps than its limit for the number of the lines of all files.
#[tactic(auto, using(crate::proofs::FallingRunsCounted::wide_falling_counted))]
pub fn falling_wide_runs_are_counted()
    ensures { FallingWideRunsAreCounted }
{}

/// No certificate's text has more than 1,388,247 bytes, and none of version 1 more than 1,202,051.
#[tactic(auto, using(crate::proofs::TextLength::text_length))]
pub fn texts_are_limited()
    ensures { TextsAreLimited }
{}

/// Upgrading a certificate gives both nodes of a place and flag the ranks of that place and flag.
#[tactic(auto, using(crate::proofs::UpgradeLaw::ranks_plain))]
pub fn upgrades_keep_ranks()
    ensures { UpgradesKeepRanks }
{}

/// A certificate of version 1 that was accepted for a script is accepted once it is upgraded.
#[tactic(auto, using(crate::proofs::UpgradeLaw::accepted, crate::proofs::UpgradeLaw::literal_accepted))]
pub fn upgrades_are_accepted()
    ensures { UpgradesAreAccepted }
{}
