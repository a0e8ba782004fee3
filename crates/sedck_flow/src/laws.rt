//! What is proved of runs and the flow graph alone. The functions do nothing: their contracts are the laws.

ghost use Rattle.sedck_flow.specs.Laws.{NodesAreNumbered, StepsFollowEdges, KindsAgree, LiteralKindsStay, EdgesWereThere, EdgesStayInside, RunsGoOn, FilesAreNamed, RunsAreWide, WideStepsFollowEdges, WideFilesAreNamed, WideRunsGoOn, CharacterMatchesAreWide, CharacterRunsAreWide, RunsAreByCharacters, CharacterRunsGoOn, AccentsAreSplit};
ghost use Rattle.sedck_flow.specs.Examples.{ExamplesHold};

/// The index of a node is its position in the order of nodes, and each number is the index of one node.
pub fn nodes_are_numbered()
    ensures { NodesAreNumbered }
{}

/// Each step from one command to another follows an edge of the flow graph, and the edge's kind is true of it.
#[tactic(auto, using(crate::proofs::StepsFollowEdges::follows))]
pub fn steps_follow_edges()
    ensures { StepsFollowEdges }
{}

/// The kind of a substitution is the kind that it has by its literal parts alone, or that one is Grow: references to groups
/// only make more edges shorten or keep.
#[tactic(auto, using(crate::proofs::KindsAgree::kinds_agree))]
pub fn kinds_agree()
    ensures { KindsAgree }
{}

/// A substitution whose replacement is literal has the kind that it has by its literal parts alone.
#[tactic(auto, using(crate::proofs::KindsAgree::literal_kinds_stay))]
pub fn literal_kinds_stay()
    ensures { LiteralKindsStay }
{}

/// Each edge is, without what its nodes say of the last line, one of the flow graph whose nodes don't know it.
#[tactic(auto, using(crate::proofs::PlainEdges::plain))]
pub fn edges_were_there()
    ensures { EdgesWereThere }
{}

/// An edge leads from a command, or from the script's end, to another.
#[tactic(auto, using(crate::proofs::EdgesInside::inside))]
pub fn edges_stay_inside()
    ensures { EdgesStayInside }
{}

/// A run that hasn't ended can take a further step: nothing is cut short by the definitions.
pub fn runs_go_on()
    ensures { RunsGoOn }
{}

/// A run reads and writes only files that the script names for it.
pub fn files_are_named()
    ensures { FilesAreNamed }
{}

/// A run is a wide run, on one file whose lines end with newlines: what holds of all wide runs holds of all runs.
#[tactic(auto, using(crate::proofs::Widening::run_is_wide))]
pub fn runs_are_wide()
    ensures { RunsAreWide }
{}

/// Each step of a wide run from one command to another follows an edge of the flow graph, whose kind is true of it, in the
/// current file; or no line is left there, and the next cycle begins with the first line of the next file.
#[tactic(auto, using(crate::proofs::StepsFollowEdges::wide_follows))]
pub fn wide_steps_follow_edges()
    ensures { WideStepsFollowEdges }
{}

/// A wide run reads and writes only files that the script names for it.
pub fn wide_files_are_named()
    ensures { WideFilesAreNamed }
{}

/// A wide run that hasn't ended can take a further step.
pub fn wide_runs_go_on()
    ensures { WideRunsGoOn }
{}

/// An expression that splits no character matches, by characters, only what it may match in a wide way.
#[tactic(auto, using(crate::proofs::CharacterMatches::widens))]
pub fn character_matches_are_wide()
    ensures { CharacterMatchesAreWide }
{}

/// Each run by characters of a script that is byte safe is a wide run: what holds of all wide runs holds of it.
#[tactic(auto, using(crate::proofs::CharacterRuns::character_run_wide))]
pub fn character_runs_are_wide()
    ensures { CharacterRunsAreWide }
{}

/// Each run of POSIX of a script that is byte safe is a run by characters: these leave none of them out.
#[tactic(auto, using(crate::proofs::ByteRuns::run_by_characters))]
pub fn runs_are_by_characters()
    ensures { RunsAreByCharacters }
{}

/// A run by characters, of a script that is byte safe, can take a further step where it hasn't ended.
#[tactic(auto, using(crate::proofs::ByteRuns::character_run_goes_on))]
pub fn character_runs_go_on()
    ensures { CharacterRunsGoOn }
{}

/// An expression that isn't byte safe may match, by characters, what it doesn't match in a wide way.
pub fn accents_are_split()
    ensures { AccentsAreSplit }
{}

/// The worked examples of edges, steps, runs and substitutions hold.
#[tactic(auto, using(crate::proofs::ExampleProofs::examples_hold))]
pub fn worked_examples()
    ensures { ExamplesHold }
{}
