//! How many calls were found, and how many scripts were explained, by their answers.

use crate::answers::CallAnswer;
use crate::conditions::{ConditionKind, KIND_COUNT, KINDS, KindCount};
use crate::written::Written;
use sedck_answer::Status;
use std::alloc::{AllocError, Global};

/// How many calls were found, by their answers.
#[derive(Clone, Copy)]
pub struct Counts {
    pub calls: usize,
    /// Files in which calls were looked for.
    pub files: usize,
    pub accepted: usize,
    pub accepted_if: usize,
    pub denied: usize,
    pub loops: usize,
    pub refused: usize,
    pub not_judged: usize,
    pub unknown: usize,
    /// Places where a file wasn't understood, and reading went on at a next line.
    pub unread: usize,
    /// Scripts in files of their own.
    pub scripts: usize,
    /// Files and folders that can't be read.
    pub unreadable: usize,
    /// Files with calls, or with places that aren't understood, in which all calls are accepted ..
    pub all_accepted: usize,
    /// .. or are accepted under conditions ..
    pub all_accepted_if: usize,
    /// .. or neither.
    pub others: usize,
    /// By kinds, in their order.
    pub conditions: [KindCount; KIND_COUNT],
}

impl Counts {
    /// No calls in no files.
    pub const NONE: Counts = Counts {
        calls: 0,
        files: 0,
        accepted: 0,
        accepted_if: 0,
        denied: 0,
        loops: 0,
        refused: 0,
        not_judged: 0,
        unknown: 0,
        unread: 0,
        scripts: 0,
        unreadable: 0,
        all_accepted: 0,
        all_accepted_if: 0,
        others: 0,
        conditions: [KindCount {
            conditions: 0,
            calls: 0,
        }; KIND_COUNT],
    };

    /// Counts a call with this answer.
    pub fn add(&mut self, answer: CallAnswer) {
        self.calls = self.calls.saturating_add(1);
        match answer {
            CallAnswer::Accepted => self.accepted = self.accepted.saturating_add(1),
            CallAnswer::AcceptedIf => self.accepted_if = self.accepted_if.saturating_add(1),
            CallAnswer::Denied => self.denied = self.denied.saturating_add(1),
            CallAnswer::Rejected | CallAnswer::Loop => self.loops = self.loops.saturating_add(1),
            CallAnswer::ScriptRefused | CallAnswer::CertificateRefused => {
                self.refused = self.refused.saturating_add(1)
            }
            CallAnswer::NotJudged => self.not_judged = self.not_judged.saturating_add(1),
            CallAnswer::Unknown => self.unknown = self.unknown.saturating_add(1),
        }
    }

    /// Counts a file, before whose calls the counts were these; it has places that aren't understood, or none.
    pub fn end_file(&mut self, before: Counts, has_unread: bool) {
        let calls = self.calls.saturating_sub(before.calls);
        let accepted = self.accepted.saturating_sub(before.accepted);
        let accepted_if = self.accepted_if.saturating_sub(before.accepted_if);
        if has_unread || accepted.saturating_add(accepted_if) < calls {
            self.others = self.others.saturating_add(1);
        } else if accepted_if > 0 {
            self.all_accepted_if = self.all_accepted_if.saturating_add(1);
        } else if calls > 0 {
            self.all_accepted = self.all_accepted.saturating_add(1);
        }
    }

    /// Counts a condition of this kind, where it is new.
    pub fn add_condition(&mut self, kind: ConditionKind, is_new: bool) {
        for (count, (one, _)) in self.conditions.iter_mut().zip(KINDS.iter()) {
            if is_new && *one == kind {
                count.conditions = count.conditions.saturating_add(1);
            }
        }
    }

    /// Counts a call that depends on conditions of these kinds.
    pub fn add_depending(&mut self, kinds: &[ConditionKind]) {
        for (count, (one, _)) in self.conditions.iter_mut().zip(KINDS.iter()) {
            if kinds.contains(one) {
                count.calls = count.calls.saturating_add(1);
            }
        }
    }

    /// A line that says how many calls were found, and then how many there are of each answer that there is; and one on the files with
    /// calls, where there are some.
    pub fn text(self, alloc: Global) -> Result<Vec<u8>, AllocError> {
        let mut out = Written::new(alloc);
        out.counted(self.calls, " call of sed in ", " calls of sed in ")
            .counted(self.files, " file", " files");
        let places = if self.unread == 1 {
            " place not understood"
        } else {
            " places not understood"
        };
        let mut before = ": ";
        push_count(&mut out, &mut before, self.accepted, " accepted");
        push_count(&mut out, &mut before, self.accepted_if, ACCEPTED_IF);
        push_count(&mut out, &mut before, self.denied, " denied");
        push_count(&mut out, &mut before, self.loops, " with a loop");
        push_count(&mut out, &mut before, self.refused, " refused");
        push_count(&mut out, &mut before, self.not_judged, " not judged");
        push_count(&mut out, &mut before, self.unknown, " unknown");
        push_count(&mut out, &mut before, self.unread, places);
        push_count(&mut out, &mut before, self.unreadable, " not readable");
        if self.scripts > 0 {
            out.text("; ").counted(self.scripts, " script", " scripts");
        }
        out.text("\n");
        self.push_files(&mut out);
        out.finished()
    }

    /// Adds a line with how many files have which answers, where files have calls or places that aren't understood.
    fn push_files(&self, out: &mut Written) {
        let accepted = self.all_accepted.saturating_add(self.all_accepted_if);
        let files = accepted.saturating_add(self.others);
        if files > 0 {
            out.counted(files, " file with calls", " files with calls");
            let mut before = ": ";
            push_count(out, &mut before, self.all_accepted, " all accepted");
            push_count(out, &mut before, self.all_accepted_if, ALL_ACCEPTED_IF);
            push_count(out, &mut before, self.others, " with others");
            out.text("\n");
        }
    }
}

/// A line with these assumptions, after this prefix; nothing where there are none.
pub fn assumed_line(
    alloc: Global,
    prefix: &str,
    assumed: &[String],
) -> Result<Vec<u8>, AllocError> {
    let mut out = Written::new(alloc);
    let mut before = "assumed: ";
    for one in assumed {
        out.text(if before == "assumed: " { prefix } else { "" });
        out.text(before).text("\"").text(one.as_str()).text("\"");
        before = ", ";
    }
    if !assumed.is_empty() {
        out.text("; a name alone isn't set\n");
    }
    out.finished()
}

/// How many scripts were explained, by their exit statuses.
#[derive(Clone, Copy)]
pub struct ScriptCounts {
    pub accepted: usize,
    /// Under a condition.
    pub accepted_if: usize,
    /// With a loop, or with what is denied.
    pub rejected: usize,
    pub refused: usize,
    /// Those that can't be read.
    pub unreadable: usize,
}

impl ScriptCounts {
    /// No scripts.
    pub const NONE: ScriptCounts = ScriptCounts {
        accepted: 0,
        accepted_if: 0,
        rejected: 0,
        refused: 0,
        unreadable: 0,
    };

    /// Counts a script with this exit status.
    pub fn add(&mut self, status: Status) {
        match status {
            Status::Accepted => self.accepted = self.accepted.saturating_add(1),
            Status::Unknown => self.accepted_if = self.accepted_if.saturating_add(1),
            Status::Rejected => self.rejected = self.rejected.saturating_add(1),
            Status::Refused => self.refused = self.refused.saturating_add(1),
            _ => self.unreadable = self.unreadable.saturating_add(1),
        }
    }

    /// A line that says how many scripts there are, and how many of each answer that there is.
    pub fn text(self, alloc: Global, may_be_denied: bool) -> Result<Vec<u8>, AllocError> {
        let mut out = Written::new(alloc);
        let accepted = self.accepted.saturating_add(self.accepted_if);
        let known = accepted.saturating_add(self.rejected);
        let others = self.refused.saturating_add(self.unreadable);
        out.counted(known.saturating_add(others), " script", " scripts");
        let rejected = if may_be_denied {
            " with a loop or denied"
        } else {
            " with a loop"
        };
        let mut before = ": ";
        push_count(&mut out, &mut before, self.accepted, " accepted");
        push_count(&mut out, &mut before, self.accepted_if, ACCEPTED_IF);
        push_count(&mut out, &mut before, self.rejected, rejected);
        push_count(&mut out, &mut before, self.refused, " refused");
        push_count(&mut out, &mut before, self.unreadable, " not readable");
        out.text("\n");
        out.finished()
    }
}

const ACCEPTED_IF: &str = " accepted under conditions";

const ALL_ACCEPTED_IF: &str = " all accepted under conditions";

/// Adds the count with its words, unless it is 0, and what precedes a count.
fn push_count(out: &mut Written, before: &mut &'static str, count: usize, words: &str) {
    if count > 0 {
        out.text(*before).grouped(count as u64).text(words);
        *before = ", ";
    }
}
