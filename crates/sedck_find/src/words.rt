//! The words of a call, each byte with its place in the file.

use crate::names::Names;
use crate::programs::{is_sed_name, sed_value};
use crate::units::{has_any, hole_of};
use crate::values::Value;
use sedck_found::{Followed, OpenHole, Role};
use sedck_origin::{Hole, Origin, Result, Text, Traced, Unit, Way, has_hole};
use sedck_shell::{Pattern, ShellWord, read_shell};
use std::alloc::Global;
use std::collections::BTreeMap;

/// A word of a call.
#[derive(Drop)]
pub(crate) struct CallWord {
    pub traced: Traced,
    pub pattern: Pattern,
    /// Where the file has it.
    pub place: Hole,
    /// Whether it begins with a path that is no option: the name of a file that `find` gives, or of a process.
    pub is_path: bool,
}

impl CallWord {
    /// A word that the file has there.
    pub fn of(traced: Traced, place: Hole) -> CallWord {
        CallWord {
            traced,
            pattern: Pattern::None,
            place,
            is_path: false,
        }
    }

    /// Whether what is unknown is there.
    pub fn is_hole(&self, index: usize) -> bool {
        self.hole_at(index).is_some()
    }

    /// What is unknown there.
    pub fn hole_at(&self, index: usize) -> Option<Hole> {
        match self.traced.origins.get(index) {
            Some(Origin::Hole(hole)) => Some(*hole),
            _ => None,
        }
    }

    /// The first hole of which the shell may make several words, or that is there before the shell reads the text.
    pub fn open_hole(&self) -> Option<Hole> {
        self.traced.origins.iter().find_map(|origin| match *origin {
            Origin::Hole(hole) if hole.way != Way::Quoted => Some(hole),
            _ => None,
        })
    }

    /// Whether the text is there with a part of a value.
    pub fn has_in_value(&self, text: &[u8]) -> bool {
        let is_value = |origin: &Origin| matches!(*origin, Origin::Value(_) | Origin::Given);
        let parts = self.traced.bytes.windows(text.len().max(1));
        let mut pairs = parts.zip(self.traced.origins.windows(text.len().max(1)));
        pairs.any(|(part, origins)| part == text && origins.iter().any(is_value))
    }

    /// Whether nothing of it is known from there on.
    pub fn is_hole_from(&self, from: usize) -> bool {
        self.is_hole(from) && (from..self.traced.origins.len()).all(|index| self.is_hole(index))
    }
}

/// What the file has between these offsets, of which a shell makes a part of one word.
pub(crate) fn quoted(start: usize, end: usize) -> Hole {
    let way = Way::Quoted;
    Hole { start, end, way }
}

/// No bytes.
pub(crate) fn empty(alloc: Global) -> Traced {
    Traced {
        bytes: Vec::new(alloc),
        origins: Vec::new(alloc),
    }
}

/// Adds a byte.
pub(crate) fn add(traced: &mut Traced, byte: u8, origin: Origin) -> Result<()> {
    traced.bytes.push(byte)?;
    traced.origins.push(origin)?;
    Ok(())
}

/// What puts values in place of holes.
#[derive(Drop)]
pub(crate) struct Filler<'a> {
    pub names: &'a Names<'a>,
    /// How many bytes of values may be put in yet, so that the time stays linear.
    pub left: usize,
    /// How many bytes before values may be read yet, which is done for their lines and columns.
    pub reach: usize,
    /// The variables that were replaced since this was taken.
    pub followed: Vec<Followed>,
    /// What must hold of the name of the sed, and of what runs it.
    pub named: Vec<OpenHole>,
    /// Which of the cases of a call is read, and how many it has: one for each value of a variable.
    pub case: usize,
    pub cases: usize,
    /// That variable; any other one with several values is a hole.
    pub chosen: Option<&'a [u8]>,
    /// Where the names of the calls are in the file that were found.
    pub starts: BTreeMap<usize, ()>,
}

impl<'a> Filler<'a> {
    /// Begins to read the case of this number of a call, of which no other is known yet.
    pub fn begin(&mut self, case: usize) {
        self.followed.clear();
        self.named.clear();
        self.case = case;
        self.cases = 1;
        self.chosen = None;
    }

    /// The value that replaces the hole in this case.
    fn value_of(&mut self, hole: Hole) -> Option<&'a Value> {
        let names = self.names;
        match names.values_of(hole)? {
            // One that is only set to nothing mostly gets its value otherwise.
            [value] if value.is_given || !value.units.is_empty() => Some(value),
            values => values.get(self.choose(hole, values)?),
        }
    }

    /// The number of the one of these values that replaces the hole in this case, if the call has no other such variable, and a shell leaves
    /// each of them as it is.
    fn choose(&mut self, hole: Hole, values: &[Value]) -> Option<usize> {
        let name = self.names.variable_at(hole)?;
        let is_other = self.chosen.is_some_and(|chosen| chosen != name);
        let are_kept = values
            .iter()
            .all(|one| one.is_kept(hole.way) && !one.units.is_empty());
        if is_other || !are_kept {
            return None;
        }
        self.chosen = Some(name);
        self.cases = values.len();
        Some(self.case)
    }

    /// The word, of these units, with the values that are known.
    pub fn word(&mut self, word: &ShellWord, units: &[Unit]) -> Result<CallWord> {
        // What is unknown of a long word doesn't matter.
        let units = units.get(..LONGEST).unwrap_or(units);
        let spare = word.start.saturating_add(2);
        let end = word.units.last().map_or(spare, |last| last.end());
        Ok(CallWord {
            traced: self.filled(units)?,
            pattern: word.pattern,
            place: quoted(word.start, end),
            is_path: self.is_process(&word.units),
        })
    }

    /// Whether the units begin with the path of a process, as `<(..)` makes it.
    fn is_process(&self, units: &[Unit]) -> bool {
        units.first().and_then(hole_of).is_some_and(|hole| {
            let written = self.names.written_hole(hole);
            matches!(written, [b'<' | b'>', b'(', ..])
        })
    }

    /// Units with the values that are known. A word of one unit alone vanishes if that is nothing and isn't quoted.
    pub fn filled(&mut self, units: &[Unit]) -> Result<Traced> {
        let mut traced = empty(self.names.alloc);
        let is_alone = units.len() == 1;
        for unit in units {
            match *unit {
                Unit::Byte(byte, offset) => add(&mut traced, byte, Origin::At(offset))?,
                Unit::Escape(byte, offset) => add(&mut traced, byte, Origin::Escape(offset))?,
                Unit::Hole(hole) => match self.value_of(hole) {
                    Some(value) if self.fits(value, hole.way, is_alone) => {
                        self.follow(hole, value)?;
                        add_value(&mut traced, &value.units, value.is_given)?;
                    }
                    _ => add(&mut traced, b'x', Origin::Hole(hole))?,
                },
            }
        }
        Ok(traced)
    }

    /// Whether the value can be put in: a shell makes just one word of it.
    fn fits(&mut self, value: &Value, way: Way, is_alone: bool) -> bool {
        let vanishes = way.is_split() && is_alone && value.units.is_empty();
        self.spend(value, 1) && !vanishes && value.is_kept(way)
    }

    /// Notes each hole of which a shell may make several words, unless its value is known and is a part of one; it makes one of what it assigns.
    pub fn note_words(&mut self, units: &[Unit], is_assigned: bool) -> Result<()> {
        for hole in units.iter().filter_map(hole_of) {
            let is_open = hole.way.is_made() || (hole.way.is_split() && !is_assigned);
            if is_open && has_hole(&self.filled(&[Unit::Hole(hole)])?.origins) {
                self.named.push(OpenHole::new(hole, Role::Word, 0))?;
            }
        }
        Ok(())
    }

    /// Whether the value of the hole is known and is no command: nothing, or what only tells make how to run the one after it.
    pub fn is_nothing(&mut self, hole: Hole) -> Result<bool> {
        let Some(value) = self.names.value_of(hole) else {
            return Ok(false);
        };
        let signs = if self.names.is_make() {
            "@-+ \t"
        } else {
            " \t"
        };
        let mut units = value.units.iter().take(SIGNS);
        let is_nothing = value.units.len() < SIGNS && units.all(|unit| has_any(&[*unit], signs));
        if is_nothing {
            self.follow(hole, value)?;
        }
        Ok(is_nothing)
    }

    /// Notes that the hole is replaced by the value.
    fn follow(&mut self, hole: Hole, value: &Value) -> Result<()> {
        self.followed.push(self.names.followed(hole, value))?;
        Ok(self.followed.extend_from_slice(&value.parts)?)
    }

    /// Whether the value may be put in yet, each of whose bytes counts for so many.
    fn spend(&mut self, value: &Value, weight: usize) -> bool {
        let length = value.units.len().saturating_mul(weight);
        let before = self.names.file.len().saturating_mul(value.parts.len());
        let before = before.saturating_add(value.start);
        let fits = length <= self.left && before <= self.reach;
        self.left = self.left.saturating_sub(length);
        self.reach = self.reach.saturating_sub(before);
        fits
    }

    /// The words after the first one of the value of the hole, which is the name of a call. None where no value of a sed is known, or where it
    /// isn't a command alone.
    pub fn words_in(&mut self, hole: Hole) -> Result<Option<Vec<CallWord>>> {
        let names = self.names;
        let Some(value) = sed_value(names, hole) else {
            return Ok(None);
        };
        let mut words = Vec::new(names.alloc);
        // A shell splits a value at its blanks, and make has it read as it is.
        let is_split = hole.way.is_split();
        let is_read = hole.way.is_made() && !value.is_given;
        if is_split && !is_read && (value.has_hole || !value.is_plain()) {
            return Ok(None);
        }
        if is_split || !is_sed_name(names, hole) {
            self.follow(hole, value)?;
        }
        if !is_split || !self.spend(value, WORD) {
            return Ok((!is_split).then_some(words));
        }
        let read = read_shell(names.alloc, Text::Units(&value.units), names.form)?;
        let [command] = read.commands.as_slice() else {
            return Ok(None);
        };
        for word in command.words.iter().skip(1) {
            let mut traced = empty(names.alloc);
            add_value(&mut traced, &word.units, value.is_given)?;
            words.push(CallWord {
                pattern: word.pattern,
                ..CallWord::of(traced, hole)
            })?;
        }
        Ok(read.unread.is_empty().then_some(words))
    }
}

/// The most bytes of a value that is no command.
const SIGNS: usize = 16;

/// The paths of standard input.
pub(crate) const STANDARD: &str = "- /dev/stdin";

/// The most bytes that the words of a call have.
pub(crate) const LONGEST: usize = 1_048_576;

/// How many bytes a byte of options counts for, each of which may be a word.
const WORD: usize = 4;

/// Adds the units of a value.
fn add_value(traced: &mut Traced, units: &[Unit], is_given: bool) -> Result<()> {
    for unit in units {
        match *unit {
            Unit::Byte(byte, _) if is_given => add(traced, byte, Origin::Given)?,
            Unit::Byte(byte, offset) => add(traced, byte, Origin::Value(offset))?,
            Unit::Escape(byte, offset) => add(traced, byte, Origin::Escape(offset))?,
            Unit::Hole(hole) => add(traced, b'x', Origin::Hole(hole))?,
        }
    }
    Ok(())
}
