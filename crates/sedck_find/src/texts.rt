//! The texts of a file, and those in them that are handed to a shell.

use crate::names::Names;
use crate::parts::{Part, parts_of};
use crate::programs::{Program, glued_units};
use crate::replaced::with_holes;
use crate::units::{bytes_of, has_letter, is_option, last_part, lone_hole, rest};
use sedck_kinds::is_dollar_quoting;
use sedck_origin::{Result, Text, Unit, Way, is_text};
use sedck_shell::{Form, ShellCommand, ShellWord, read_shell};
use std::alloc::Global;

/// How many levels of texts in texts are read.
const LEVELS: usize = 6;

/// A command that may call sed.
#[derive(Drop)]
pub(crate) struct Held {
    pub command: ShellCommand,
    /// Whether it is a value of make's.
    pub is_value: bool,
}

/// What was read of a file.
#[derive(Drop)]
pub(crate) struct Texts<'a> {
    pub names: Names<'a>,
    /// The commands that may call sed.
    pub held: Vec<Held>,
    /// The texts that are read next, each in its form.
    pub inner: Vec<(Vec<Unit>, Form)>,
    /// How many units texts in texts may have yet.
    pub left: usize,
    /// The offsets of what isn't understood.
    pub unread: Vec<usize>,
}

impl Texts<'_> {
    /// Reads a text of the file in this form. A value of make's may be no shell text.
    pub fn read(&mut self, text: Text, form: Form, is_value: bool) -> Result<()> {
        let read = read_shell(self.names.alloc, text, form)?;
        if !is_value {
            self.unread.extend_from_slice(&read.unread)?;
        }
        for command in read.commands {
            self.note(&command, form)?;
            if may_call(&command.words) {
                self.held.push(Held { command, is_value })?;
            }
        }
        Ok(())
    }

    /// Reads the texts in what was read, and those in them.
    pub fn read_inner(&mut self) -> Result<()> {
        for _ in 0..LEVELS {
            let texts = std::mem::replace(&mut self.inner, Vec::new(self.names.alloc));
            for (units, form) in &texts {
                self.read(Text::Units(units), *form, false)?;
            }
        }
        Ok(())
    }

    /// Notes what a command sets, and the texts that it has for a shell.
    fn note(&mut self, command: &ShellCommand, form: Form) -> Result<()> {
        self.names.note_command(&command.words)?;
        for part in &parts_of(&self.names, &command.words)? {
            match part.program {
                Program::Shell => self.note_shell(part, command, form)?,
                Program::Again => self.note_again(part, form)?,
                _ => {}
            }
        }
        Ok(())
    }

    /// Notes the text that a shell is called with, which may read `$'..'` otherwise than this form. What runs the shell may put names or lines
    /// into a text in its words, before the shell reads it.
    fn note_shell(&mut self, part: &Part, command: &ShellCommand, form: Form) -> Result<()> {
        let alloc = self.names.alloc;
        let path = bytes_of(alloc, last_part(&part.name.units))?;
        let mut other = form;
        other.has_dollar_quotes &= is_dollar_quoting(path.as_deref().unwrap_or(&[]));
        if let Some(text) = text_of(part.others) {
            let Some(replaced) = part.run.replaced.texts(alloc)? else {
                return Ok(());
            };
            let mut units = Vec::from_slice(alloc, &text.units)?;
            for one in &replaced {
                units = with_holes(alloc, &units, one, Way::MadeBare)?;
            }
            return self.note_text(units, other);
        }
        match (&command.here, &command.here_string) {
            _ if !reads_input(part.others) => Ok(()),
            (Some(units), _) => self.note_text(Vec::from_slice(alloc, units)?, other),
            (None, Some(word)) => self.note_text(Vec::from_slice(alloc, &word.units)?, other),
            (None, None) => Ok(()),
        }
    }

    /// Notes the text of `eval`, or of `trap`, which has other operands after it.
    fn note_again(&mut self, part: &Part, form: Form) -> Result<()> {
        let is_ended = part.others.first().is_some_and(|first| first.is("--"));
        let words = rest(part.others, usize::from(is_ended));
        let count = match words.len() {
            length if !part.name.is("trap") => length,
            length => usize::from(length > 1),
        };
        let text = joined(self.names.alloc, words.get(..count).unwrap_or(words))?;
        self.note_text(text, form)
    }

    /// Notes a text, which is read next, unless it is too long.
    fn note_text(&mut self, units: Vec<Unit>, form: Form) -> Result<()> {
        if units.len() <= self.left {
            self.left = self.left.saturating_sub(units.len());
            self.inner.push((units, form))?;
        }
        Ok(())
    }
}

/// Whether a command with these words may call sed: one of them has that name in it, or is a variable, perhaps after another one.
fn may_call(words: &[ShellWord]) -> bool {
    words.iter().any(|word| {
        let is_open = lone_hole(rest(&word.units, glued_units(&word.units))).is_some();
        is_open || word.units.windows(3).any(|part| is_text(part, "sed"))
    })
}

/// The text in the words after the name of a shell: the first word that is no option after one with the letter `c`.
fn text_of(words: &[ShellWord]) -> Option<&ShellWord> {
    let place = words.iter().position(|word| has_letter(&word.units, "c"))?;
    let mut others = rest(words, place).iter();
    others.find(|word| !is_option(&word.units))
}

/// Whether a shell with these words after its name reads its standard input.
fn reads_input(words: &[ShellWord]) -> bool {
    let mut options = words.iter();
    words.iter().any(|word| has_letter(&word.units, "s"))
        || options.all(|word| is_option(&word.units))
}

/// The words with a space between, as `eval` joins them.
fn joined(alloc: Global, words: &[ShellWord]) -> Result<Vec<Unit>> {
    let mut text = Vec::new(alloc);
    for word in words {
        if let Some(end) = text.last().map(|last: &Unit| last.end()) {
            text.push(Unit::Byte(b' ', end))?;
        }
        text.extend_from_slice(&word.units)?;
    }
    Ok(text)
}
