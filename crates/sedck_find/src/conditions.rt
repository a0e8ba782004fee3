//! What must hold so that the words of a call are as they are read.

use crate::parts::Runner;
use crate::script::Around;
use crate::words::CallWord;
use sedck_call::{Call, CallOption, Given, Piece, Taken};
use sedck_found::{OpenHole, Role};
use sedck_origin::{Hole, Origin, Result, Way};
use sedck_shell::Pattern;
use std::alloc::Global;

/// The most conditions of a call.
const MOST: usize = 1000;

/// The conditions of a call.
#[derive(Drop)]
struct Conditions {
    /// The number of the operand that is the script, and of the word `--` that ends the options, if there are such.
    script: Option<usize>,
    end: Option<usize>,
    holes: Vec<OpenHole>,
    /// Whether a word may be anything, so that the call is unknown.
    is_unknown: bool,
}

/// The conditions on these words of a call, beside those on its script; none where a word may be anything.
pub(crate) fn conditions_of(
    alloc: Global,
    call: &Call,
    around: Around<'_>,
) -> Result<Option<Vec<OpenHole>>> {
    let mut conditions = Conditions {
        script: script_number(call),
        end: operands_start(&call.given, around.words),
        holes: Vec::new(alloc),
        is_unknown: false,
    };
    for item in &call.given {
        if let Some(word) = around.words.get(number_of(item)) {
            conditions.add_item(*item, word)?;
        }
    }
    // Where POSIXLY_CORRECT is set, options that follow an operand are operands: that counts for those which change the script.
    let mut items = call.given.iter();
    let operand = items.find(|item| matches!(**item, Given::Operand(_)));
    match operand.and_then(|item| around.words.get(number_of(item))) {
        Some(word) if items.any(changes_script) => conditions.push(word.place, Role::Options)?,
        _ => {}
    }
    if around.runner == Runner::Adding && conditions.end.is_none() {
        conditions.push(around.name, Role::Added)?;
    }
    let is_known = !conditions.is_unknown && conditions.holes.len() <= MOST;
    Ok(is_known.then_some(conditions.holes))
}

impl Conditions {
    /// Adds a condition.
    fn push(&mut self, hole: Hole, role: Role) -> Result<()> {
        Ok(self.holes.push(OpenHole::new(hole, role, 0))?)
    }

    /// Adds the conditions on the word that gives this.
    fn add_item(&mut self, item: Given, word: &CallWord) -> Result<()> {
        match item {
            Given::With(CallOption::Expression, _) => self.add_pattern(word),
            Given::With(option, origin) => {
                // Where it is nothing, the option takes the next word.
                let is_argument = option.taken() == Taken::Argument;
                self.is_unknown |= is_argument && word.is_hole_from(origin.from);
                self.add_word(word)
            }
            Given::Alone(_, _) => self.add_word(word),
            Given::Operand(number) if self.script == Some(number) => self.add_pattern(word),
            // After the word that ends the options there are none, but what is put in before a shell reads the line may end the command.
            Given::Operand(number) if self.end.is_some_and(|end| end < number) => {
                self.add_holes(word, Role::Operand, true)
            }
            Given::Operand(_) => self.add_operand(word),
        }
    }

    /// Adds the conditions on a word that must be one word.
    fn add_word(&mut self, word: &CallWord) -> Result<()> {
        if let Some(hole) = word.open_hole() {
            self.is_unknown |= word.is_hole(0) || hole.way == Way::Several;
            self.add_holes(word, Role::Word, false)?;
        }
        self.add_pattern(word)
    }

    /// Adds this condition on each hole of the word of which a shell may make several words, or on those alone that are put in before a
    /// shell reads the line.
    fn add_holes(&mut self, word: &CallWord, role: Role, are_made: bool) -> Result<()> {
        let mut last = None;
        for origin in &word.traced.origins {
            let Origin::Hole(hole) = *origin else {
                continue;
            };
            let is_open = hole.way.is_made() || (hole.way != Way::Quoted && !are_made);
            if is_open && last != Some(hole) {
                self.push(hole, role)?;
            }
            last = Some(hole);
        }
        Ok(())
    }

    /// Adds the condition on a word that is a pattern.
    fn add_pattern(&mut self, word: &CallWord) -> Result<()> {
        match word.pattern {
            Pattern::None => Ok(()),
            _ => self.push(word.place, Role::Pattern),
        }
    }

    /// Adds the conditions on an operand, which must be no option. A name that `find` gives begins with where it began.
    fn add_operand(&mut self, word: &CallWord) -> Result<()> {
        let is_quoted = |hole: &Hole| !word.is_path && hole.way == Way::Quoted;
        match word.hole_at(0).filter(is_quoted) {
            Some(hole) => self.push(hole, Role::Operand)?,
            None if word.pattern == Pattern::First && word.open_hole().is_none() => {
                self.push(word.place, Role::Names)?
            }
            None => {}
        }
        self.add_holes(word, Role::Operand, false)
    }
}

/// The number of the operand that is the script, if one is.
fn script_number(call: &Call) -> Option<usize> {
    match call.pieces.first() {
        Some(Piece::Text(origin)) if origin.from == 0 => Some(origin.word),
        _ => None,
    }
}

/// The number of the word that gives this.
fn number_of(item: &Given) -> usize {
    match *item {
        Given::Alone(_, number) | Given::Operand(number) => number,
        Given::With(_, origin) => origin.word,
    }
}

/// Whether it is an option that changes the script.
fn changes_script(item: &Given) -> bool {
    matches!(
        *item,
        Given::With(CallOption::Expression | CallOption::File, _)
            | Given::Alone(CallOption::Help | CallOption::Version, _)
    )
}

/// The number of the word `--` that ends the options, if there is one: the only one that gives nothing and is no option.
fn operands_start(given: &[Given], words: &[CallWord]) -> Option<usize> {
    let mut words = words.iter().enumerate();
    // What is given is in the words' order.
    words.position(|(number, word)| {
        word.traced.bytes.as_slice() == b"--".as_slice()
            && given.binary_search_by_key(&number, number_of).is_err()
    })
}
