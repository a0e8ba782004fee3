//! Words and ends of commands, and the reserved words (XCU 2.4).

use crate::command::{ShellCommand, ShellWord, Target};
use crate::frame::{Awaited, Enclosure, Quote};
use crate::output::is_lost;
use crate::reader::Reader;
use sedck_origin::{Hole, Unit, Way, is_one_of, is_text};

/// Reserved words before a command, which are no words of it.
static RESERVED: &'static [&'static str] = &[
    "if", "then", "else", "elif", "fi", "do", "done", "while", "until", "{", "}", "!", "time",
    "coproc",
];

/// The most files that are kept of a command, so that the time stays linear.
const TARGETS: usize = 100;

impl Reader<'_, '_> {
    /// Begins a word at this offset in the file, if none is begun.
    pub fn begin_word(&mut self, offset: usize) {
        if !self.top.has_word {
            self.top.has_word = true;
            self.top.word.start = offset;
        }
    }

    /// Adds a unit to the word. What is unknown in the text that is read is there before its quotes are.
    pub fn add(&mut self, unit: Unit) {
        self.begin_word(unit.start());
        let mut unit = unit;
        match unit {
            Unit::Hole(hole) if hole.way != Way::Several => {
                let way = self.made_way();
                unit = Unit::Hole(Hole { way, ..hole });
            }
            Unit::Byte(0, offset) => self.output.note(offset),
            _ => {}
        }
        self.output.is_lost |= is_lost(&mut self.top.word.units, unit);
    }

    /// Adds a hole to the word.
    pub fn add_hole(&mut self, start: usize, end: usize, way: Way) {
        if way == Way::Several && self.top.enclosure == Enclosure::Parameter {
            self.top.hole = Some(way);
        }
        self.begin_word(start);
        let hole = Unit::Hole(Hole { start, end, way });
        self.output.is_lost |= is_lost(&mut self.top.word.units, hole);
    }

    /// Adds a hole in place of the unit that is read and so many more.
    pub fn add_hole_over(&mut self, count: usize, way: Way) {
        self.pass(count);
        self.add_hole(self.here.start(), self.end_after(count), way);
    }

    /// How what an expansion makes becomes a part of the word.
    pub fn way(&self) -> Way {
        match self.top.quote {
            Quote::None if !self.top.is_in_double => Way::Bare,
            _ => Way::Quoted,
        }
    }

    /// How what is in the text before it is read becomes a part of the word.
    pub fn made_way(&self) -> Way {
        match self.top.quote {
            Quote::None => Way::MadeBare,
            _ => Way::MadeQuoted,
        }
    }

    /// Ends the word, if one is begun.
    pub fn end_word(&mut self) {
        if !self.top.has_word {
            return;
        }
        let word = self.take_word();
        let awaited = std::mem::replace(&mut self.top.awaited, Awaited::Word);
        if let Awaited::Word = awaited {
            return self.add_word(word);
        }
        self.note_made(&word);
        let is_input = self.top.descriptor == b'0';
        match awaited {
            Awaited::Delimiter { is_stripped } => self.await_body(word, is_stripped),
            Awaited::Target { is_emptied } => self.add_target(word, is_emptied),
            Awaited::Source if is_input => self.top.command.source = Some(word),
            Awaited::HereString if is_input => self.top.command.here_string = Some(word),
            _ => {}
        }
    }

    /// Takes the word that is begun.
    pub fn take_word(&mut self) -> ShellWord {
        self.top.has_word = false;
        self.top.brace = None;
        std::mem::replace(&mut self.top.word, ShellWord::new(self.alloc))
    }

    /// Notes what is in the word of a redirection before a shell reads it.
    fn note_made(&mut self, word: &ShellWord) {
        for unit in &word.units {
            if let Unit::Hole(hole) = *unit
                && hole.way.is_made()
            {
                let made = &mut self.top.command.made;
                self.output.is_lost |= is_lost(made, hole);
            }
        }
    }

    /// Notes a file that the command opens for writing.
    fn add_target(&mut self, word: ShellWord, is_emptied: bool) {
        let target = Target {
            word,
            is_emptied,
            is_output: self.top.descriptor == b'1',
        };
        if self.top.command.targets.len() < TARGETS {
            self.output.is_lost |= is_lost(&mut self.top.command.targets, target);
        }
    }

    /// Adds a word to the command, unless it is a reserved one. After `&>` a plain shell has another command.
    fn add_word(&mut self, word: ShellWord) {
        if word.is_quoted || !self.read_reserved(&word.units) {
            self.output.note_if(self.top.is_parted, word.start);
            self.top.is_parted = false;
            self.output.is_lost |= is_lost(&mut self.top.command.words, word);
        }
    }

    /// Whether the word is a reserved one where it stands: the first one, `in` of `case`, `do` of `for`, or `{` of a function. `case` and `esac`
    /// change what parentheses mean.
    fn read_reserved(&mut self, units: &[Unit]) -> bool {
        let words = &mut self.top.command.words;
        if self.top.is_test && is_text(units, "]]") {
            self.top.is_test = false;
            // What is after an operator of it is no command.
            if !begins_with(words, "[[") {
                words.clear();
                return true;
            }
        }
        let is_third = words.len() == 2;
        if is_text(units, "esac") && (words.is_empty() || self.top.is_pattern) {
            self.top.cases = self.top.cases.saturating_sub(1);
            self.top.is_pattern = false;
        } else if words.is_empty() {
            self.top.is_test |= self.form.has_dollar_quotes && is_text(units, "[[");
            return is_one_of(units, RESERVED);
        } else if is_third && is_text(units, "in") && begins_with(words, "case") {
            self.top.cases = self.top.cases.saturating_add(1);
            self.top.is_pattern = true;
            self.top.parentheses = 0;
        } else if !(is_third && is_text(units, "do") && begins_with(words, "for"))
            && !(is_text(units, "{") && begins_with(words, "function"))
        {
            return false;
        }
        self.top.command.words.clear();
        true
    }

    /// Ends the command, if one is begun. An operator of a redirection without a word is noted.
    pub fn end_command(&mut self) {
        self.end_word();
        let is_lacking = !matches!(self.top.awaited, Awaited::Word);
        self.output.note_if(is_lacking, self.here.start());
        let here = self.top.here;
        let command = self.take_command();
        let is_array = self.top.enclosure == Enclosure::Array;
        if !is_array
            && !self.top.is_bracketed()
            && !self.top.is_pattern
            && !begins_with(&command.words, "function")
            && let Some(first) = command.words.first()
        {
            let start = first.start;
            self.output.keep(command, here, start);
        }
    }

    /// Takes the command that is read, without a word that isn't ended.
    pub fn take_command(&mut self) -> ShellCommand {
        let _ = self.take_word();
        self.top.here = None;
        self.top.is_parted = false;
        self.top.unknown = None;
        self.top.awaited = Awaited::Word;
        self.top.is_test = false;
        std::mem::replace(&mut self.top.command, ShellCommand::new(self.alloc))
    }

    /// Ends a line, after which here-documents may follow. A newline doesn't end a command in an array, after an operator in `[[`, and before
    /// `in` of `case`.
    pub fn end_line(&mut self) {
        self.end_word();
        let words = &self.top.command.words;
        let goes_on = self.top.enclosure == Enclosure::Array
            || (self.top.is_test && words.is_empty())
            || (words.len() == 2 && begins_with(words, "case"));
        if !goes_on {
            self.end_command();
        }
        if !self.pending.is_empty() {
            self.read_bodies();
        }
    }
}

/// Whether the first of the words is this one.
pub(crate) fn begins_with(words: &[ShellWord], text: &str) -> bool {
    matches!(words.first(), Some(word) if !word.is_quoted && word.is(text))
}
