//! All that is reported of a script, with the answer.

ghost use Rattle.std.specs.Prelude.{◌≡◌};
ghost use Rattle.sedck_answer.specs.Answers.{KeepsNothing};
ghost use Rattle.sedck_answer.specs.declared.answer.Answer.TheVariants.{NotJudged};

use crate::answer::Answer;
use crate::status::Status;
use sedck_report::{Finding, NamedFile, Position};
use sedck_script::Script;
use std::alloc::Global;

/// All that is reported of a script.
#[derive(Drop)]
pub struct Explanation<'a> {
    /// The text in which the positions are: the script's own, or that of a file with a call that has the script.
    pub text: &'a [u8],
    /// The script's own text; empty where there is none to judge.
    pub source: &'a [u8],
    pub answer: Answer,
    /// That of the answer, but `Rejected` where the script is accepted and has what is denied.
    pub status: Status,
    /// None where the script is refused.
    pub script: Option<Script<'a>>,
    /// Where the verb of each command is; empty where the script is refused.
    pub positions: Vec<Position>,
    /// In the order in which they are reported: errors, then warnings and notes.
    pub findings: Vec<Finding>,
    /// Sorted by name.
    pub reads: Vec<NamedFile<'a>>,
    /// Sorted by name.
    pub writes: Vec<NamedFile<'a>>,
}

impl Explanation<'_> {
    /// Whether the script is accepted, and has what is denied.
    pub fn is_denied(&self) -> bool {
        self.status != self.answer.status()
    }
}

/// The explanation of a call whose script isn't judged: these findings say why.
pub fn not_judged<'a>(alloc: Global, text: &'a [u8], findings: Vec<Finding>) -> Explanation<'a>
    ensures text { result.text.now ≡ text.now }
    ensures answer { result.answer ≡ NotJudged }
    ensures status { result.status ≡ Status.Refused }
    ensures keeps { KeepsNothing result }
    ensures findings { result.findings ≡ findings }
{
    Explanation {
        text,
        source: &[],
        answer: Answer::NotJudged,
        status: Status::Refused,
        script: None,
        positions: Vec::new(alloc),
        findings,
        reads: Vec::new(alloc),
        writes: Vec::new(alloc),
    }
}
