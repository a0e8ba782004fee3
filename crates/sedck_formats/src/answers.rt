//! Answers, and the words for them.

use sedck_answer::{Answer, Explanation, Status};

/// The answer on a script, or on a call in a file.
#[derive(Clone, Copy)]
pub enum CallAnswer {
    Accepted,
    /// Accepted for values that keep to what is said of them.
    AcceptedIf,
    Denied,
    Rejected,
    Loop,
    ScriptRefused,
    CertificateRefused,
    NotJudged,
    Unknown,
}

impl CallAnswer {
    /// The answer of the explanation, by its status.
    pub fn of(explanation: &Explanation) -> CallAnswer {
        match (&explanation.answer, explanation.status) {
            (Answer::Accepted { .. }, Status::Accepted) => CallAnswer::Accepted,
            (Answer::Accepted { .. }, Status::Unknown) => CallAnswer::AcceptedIf,
            (Answer::Accepted { .. }, _) => CallAnswer::Denied,
            (Answer::Rejected { .. }, _) => CallAnswer::Rejected,
            (Answer::Endless(_), _) => CallAnswer::Loop,
            (Answer::ScriptRefused(_), _) => CallAnswer::ScriptRefused,
            (Answer::CertificateRefused(_), _) => CallAnswer::CertificateRefused,
            (Answer::NotJudged, Status::Unknown) => CallAnswer::Unknown,
            (Answer::NotJudged, _) => CallAnswer::NotJudged,
        }
    }

    /// The word for it.
    pub fn word(self) -> &'static str {
        match self {
            CallAnswer::Accepted => "accepted",
            CallAnswer::AcceptedIf => "accepted-if",
            CallAnswer::Denied => "denied",
            CallAnswer::Rejected => "rejected",
            CallAnswer::Loop => "loop",
            CallAnswer::ScriptRefused => "script-refused",
            CallAnswer::CertificateRefused => "certificate-refused",
            CallAnswer::NotJudged => "not-judged",
            CallAnswer::Unknown => "unknown",
        }
    }
}

/// The word for the answer of the explanation.
pub fn answer_word(explanation: &Explanation) -> &'static str {
    CallAnswer::of(explanation).word()
}
