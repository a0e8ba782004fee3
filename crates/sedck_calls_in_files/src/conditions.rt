//! The conditions on which the answers of a file depend. A report for people says each of them once, at the first call that depends on it.

use crate::holes::{followed_words, hole_words};
use crate::request::{FileScan, Look};
use sedck_explanation::{Explanation, Finding};
use sedck_formats::{ConditionKind, Counts};
use sedck_found::{FoundCall, FoundScript, KnownValue, Role};
use std::alloc::{AllocError, Global};
use std::collections::BTreeMap;

/// The conditions of the calls in a file, by their words.
#[derive(Drop)]
pub(crate) struct Conditions {
    alloc: Global,
    /// Whether each is reported once.
    is_for_people: bool,
    by_words: BTreeMap<Vec<u8>, Condition>,
}

/// A condition.
#[derive(Clone, Copy)]
struct Condition {
    /// How many calls depend on it.
    calls: usize,
    /// The number of the last one of them.
    last: usize,
    is_reported: bool,
}

impl Conditions {
    /// The conditions of these calls of the file, which are counted.
    pub fn of(
        asked: &FileScan,
        calls: &[FoundCall],
        counts: &mut Counts,
    ) -> Result<Conditions, AllocError> {
        let mut conditions = Conditions {
            alloc: asked.alloc,
            is_for_people: asked.scan.look != Look::Json,
            by_words: BTreeMap::new(asked.alloc),
        };
        for (number, call) in calls.iter().enumerate() {
            conditions.add_call(asked.file.text, call, number, counts)?;
        }
        Ok(conditions)
    }

    /// Adds the conditions of the call of this number.
    fn add_call(
        &mut self,
        file: &[u8],
        call: &FoundCall,
        number: usize,
        counts: &mut Counts,
    ) -> Result<(), AllocError> {
        let mut kinds = Vec::new(self.alloc);
        if let FoundScript::Text { holes, .. } = &call.script {
            for hole in holes {
                let words = hole_words(self.alloc, file, *hole)?;
                let kind = kind_of_role(hole.role);
                counts.add_condition(kind, self.add(words, number)?);
                kinds.push(kind)?;
            }
        }
        for one in &call.followed {
            let words = followed_words(self.alloc, file, *one)?;
            let kind = match one.value {
                KnownValue::Given | KnownValue::Unset => ConditionKind::Assumed,
                _ => ConditionKind::Value,
            };
            counts.add_condition(kind, self.add(words, number)?);
            kinds.push(kind)?;
        }
        counts.add_depending(&kinds);
        Ok(())
    }

    /// Adds that the call of this number depends on the condition with these words. Whether it is a new one.
    fn add(&mut self, words: String, number: usize) -> Result<bool, AllocError> {
        if let Some(condition) = self.by_words.get_mut(words.as_bytes()) {
            if condition.last != number {
                condition.calls = condition.calls.saturating_add(1);
                condition.last = number;
            }
            return Ok(false);
        }
        let condition = Condition {
            calls: 1,
            last: number,
            is_reported: false,
        };
        let words = Vec::from_slice(self.alloc, words.as_bytes())?;
        self.by_words.insert(words, condition)?;
        Ok(true)
    }

    /// The explanation without the conditions that were reported before, where each is reported once. Of the others it says how many calls
    /// depend on them.
    pub fn reported_once<'a>(
        &mut self,
        explanation: Explanation<'a>,
    ) -> Result<Explanation<'a>, AllocError> {
        if !self.is_for_people {
            return Ok(explanation);
        }
        let mut explanation = explanation;
        for finding in std::mem::replace(&mut explanation.findings, Vec::new(self.alloc)) {
            if let Some(finding) = self.reported(finding)? {
                explanation.findings.push(finding)?;
            }
        }
        Ok(explanation)
    }

    /// The finding as it is reported, if it is.
    fn reported(&mut self, finding: Finding) -> Result<Option<Finding>, AllocError> {
        let Some(condition) = self.by_words.get_mut(finding.message.as_bytes()) else {
            return Ok(Some(finding));
        };
        if condition.is_reported {
            return Ok(None);
        }
        condition.is_reported = true;
        let mut finding = finding;
        if condition.calls > 1 {
            let calls = condition.calls;
            let more = format!(in self.alloc; " ({calls} calls of this file depend on it)")?;
            finding.message.push_str(more.as_str())?;
        }
        Ok(Some(finding))
    }
}

/// Of which kind the condition is on a hole of this role.
fn kind_of_role(role: Role) -> ConditionKind {
    match role {
        Role::Expression
        | Role::List
        | Role::Replacement
        | Role::Text
        | Role::TextBegin
        | Role::Comment => ConditionKind::Script,
        Role::Word => ConditionKind::Word,
        Role::Operand | Role::Names | Role::Added => ConditionKind::Operand,
        Role::Pattern => ConditionKind::Pattern,
        Role::Sed => ConditionKind::Sed,
        Role::Runner => ConditionKind::Runner,
        Role::Options => ConditionKind::Order,
        Role::Delimiter { .. } => ConditionKind::Delimiter,
    }
}
