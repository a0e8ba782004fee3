//! What the name of a command calls.

use crate::names::Names;
use crate::units::{
    has_any, is_letters, is_one_in, is_option, is_word_in, known_part, last_part, lone_hole,
    place_of, rest,
};
use crate::values::{Value, is_blank};
use sedck_origin::{Hole, Unit, begins_with, is_name_byte};
use sedck_shell::ShellWord;

/// What a command calls.
#[derive(Clone, Copy)]
pub(crate) enum Program {
    Sed,
    /// A shell, or `su`, which runs one.
    Shell,
    /// `eval` or `trap`, whose first operand is text for the same shell.
    Again,
    Find,
    /// A command that runs the one which its words name.
    Wrapper(Wrapper),
    Other,
}

/// A command that runs another one.
#[derive(Clone, Copy)]
pub(crate) struct Wrapper {
    /// Its names; nothing where it is unknown what runs the command.
    pub names: &'static str,
    /// The letters of the options that take an argument.
    letters: &'static str,
    /// The letters of the options with which no command runs that is known.
    stops: &'static str,
    /// How many operands precede the command.
    pub operands: usize,
}

/// The commands that run another one: their names, the letters of their options that take an argument, those of options with which no
/// command runs that is known, and how many operands precede the command.
static WRAPPERS: &'static [(&'static str, &'static str, &'static str, usize)] = &[
    ("env", "uC", "S", 0),
    ("exec", "a", "", 0),
    ("command", "", "vV", 0),
    ("xargs", "adEILnPsJ", "", 0),
    ("sudo", "ugpChrtTUDRac", "elsi", 0),
    ("doas", "uCa", "s", 0),
    ("nice", "n", "", 0),
    ("ionice", "cn", "pPu", 0),
    ("nohup setsid builtin busybox toybox", "", "", 0),
    ("time", "fo", "", 0),
    ("timeout gtimeout", "ks", "", 1),
    ("stdbuf", "ioe", "", 0),
    ("chroot taskset", "", "", 1),
    ("fakeroot", "lisb", "", 0),
    ("flock", "wEc", "", 1),
    ("strace", "eoOpPsSuaIbX", "", 0),
    ("ltrace", "eolpsuaxADFn", "", 0),
    ("chrt", "TPD", "", 1),
];

/// Long options that take the next word.
const LONG: &str = "--arg-file --delimiter --max-args --max-chars --max-procs --process-slot-var \
    --user --group --unset --chdir --signal --kill-after --adjustment --input --output --error \
    --class";

/// How long options begin with which no command runs that is known: of `env`, and of `sudo`.
const LONG_STOPS: &str = "--sp --sh --lo";

/// Names of other programs, and what they are.
static PROGRAMS: &'static [(Program, &'static str)] = &[
    (Program::Sed, SEDS),
    (
        Program::Shell,
        "sh bash dash ksh zsh ash mksh ksh93 su runuser",
    ),
    (Program::Again, "eval trap"),
    (Program::Find, "find"),
];

/// The names of seds.
const SEDS: &str = "sed gsed ssed";

/// The names of variables that have the path of a shell.
const SHELL_VARIABLES: &str = "SHELL CONFIG_SHELL BASH POSIX_SHELL";

/// The names of variables that run the words after them, or are nothing, or signs of make's.
const PREFIXES: &str = "SUDO sudo Q AT";

/// The longest text of a hole, and the longest path, that is looked at, so that the time stays linear.
const LONGEST: usize = 256;

impl Wrapper {
    /// A command that comes before the one which it runs.
    pub const PREFIX: Wrapper = Wrapper {
        names: "",
        letters: "",
        stops: "",
        operands: 0,
    };

    /// How many of these words after its name are before the command that it runs: options with their arguments, and operands. None where it
    /// runs no command that is known.
    pub fn count_before(self, words: &[ShellWord]) -> Option<usize> {
        let mut awaits = false;
        for (number, word) in words.iter().enumerate() {
            let units = word.units.as_slice();
            if awaits {
                awaits = false;
            } else if !is_option(units) {
                return Some(number.saturating_add(self.operands));
            } else if is_word_in(units, "-- -") {
                return Some(number.saturating_add(self.operands).saturating_add(1));
            } else {
                awaits = self.awaits(units)?;
            }
        }
        None
    }

    /// Whether the argument of the option is the next word; none where no command runs with the option that is known, as it hands a text to a
    /// shell or to `env`, or runs none.
    fn awaits(self, option: &[Unit]) -> Option<bool> {
        let letters = if is_letters(option) {
            known_part(option)
        } else {
            &[]
        };
        let argument = place_of(letters, self.letters).unwrap_or(option.len());
        let stop = place_of(letters, self.stops).is_some_and(|stop| stop <= argument);
        let mut others = LONG_STOPS.split(' ');
        let is_stop = stop || others.any(|name| begins_with(option, name));
        let is_last = argument.saturating_add(1) == option.len();
        (!is_stop).then_some(is_last || is_word_in(option, LONG))
    }
}

/// How many units of a word precede the name of a command in it: a variable of which a shell may make other words, unless that is a part of
/// a path. As in `$(Q)sed`, it may be nothing, or what runs the command.
pub(crate) fn glued_units(units: &[Unit]) -> usize {
    match units {
        [Unit::Hole(hole), next, ..] if hole.way.is_split() && next.byte() != Some(b'/') => 1,
        _ => 0,
    }
}

/// What a command of this name calls.
pub(crate) fn program_of(names: &Names<'_>, name: &[Unit]) -> Program {
    match lone_hole(name) {
        Some(hole) => called_by(names, hole),
        None => named_program(last_part(name)),
    }
}

/// What is called by a name that is written.
fn named_program(name: &[Unit]) -> Program {
    for (names, letters, stops, operands) in WRAPPERS {
        if is_word_in(name, names) {
            return Program::Wrapper(Wrapper {
                names,
                letters,
                stops,
                operands: *operands,
            });
        }
    }
    let program = PROGRAMS.iter().find(|row| is_word_in(name, row.1));
    program.map_or(Program::Other, |row| row.0)
}

/// What the hole calls, which is the whole word: by the one value that the file writes for it, or else by its name.
fn called_by(names: &Names<'_>, hole: Hole) -> Program {
    let is_split = hole.way.is_split();
    match names.value_of(hole) {
        _ if sed_value(names, hole).is_some() => Program::Sed,
        Some(value) if is_split && begins_empty(names, &value.units) => {
            Program::Wrapper(Wrapper::PREFIX)
        }
        Some(_) => Program::Other,
        None => called_by_name(names, hole),
    }
}

/// Whether a value begins with no word, or with what only tells make how to run a command.
fn begins_empty(names: &Names<'_>, units: &[Unit]) -> bool {
    match units.iter().find(|unit| !is_blank(*unit)) {
        Some(first) => names.is_make() && has_any(&[*first], "@-+"),
        None => true,
    }
}

/// The only value that the file writes for the hole, if its first word is the name of a sed; in a makefile that may be a variable.
pub(crate) fn sed_value<'n>(names: &'n Names<'_>, hole: Hole) -> Option<&'n Value> {
    let [value] = names.written_for(hole)? else {
        return None;
    };
    let path = value.units.get(..LONGEST).unwrap_or(&value.units);
    let is_split = hole.way.is_split();
    let mut words = path.split(|unit| is_split && is_blank(unit));
    let first = words.find(|word| !word.is_empty())?;
    let inner = lone_hole(first).filter(|_| names.is_make());
    let is_sed = is_word_in(last_part(first), SEDS)
        || inner.is_some_and(|inner| is_sed_name(names, inner));
    is_sed.then_some(value)
}

/// Whether the hole is what has the path of a sed, by its name.
pub(crate) fn is_sed_name(names: &Names<'_>, hole: Hole) -> bool {
    matches!(called_by_name(names, hole), Program::Sed)
}

/// What is called by what is written, if no value is known.
fn called_by_name(names: &Names<'_>, hole: Hole) -> Program {
    let written = names.written_hole(hole);
    match names.variable_at(hole) {
        _ if written.len() > LONGEST => Program::Other,
        _ if ends_in_sed(written) || is_one_in(written, "%{__sed} %__sed") => Program::Sed,
        Some(name) if is_one_in(name, "SED GSED") => Program::Sed,
        Some(name) if is_one_in(name, SHELL_VARIABLES) => Program::Shell,
        Some(name) if is_one_in(name, PREFIXES) => Program::Wrapper(Wrapper::PREFIX),
        _ => Program::Other,
    }
}

/// Whether what is written in place of a hole ends with the name of a sed, as `${X:-sed}` and `$(command -v sed)` do.
fn ends_in_sed(written: &[u8]) -> bool {
    let mut words = written.rsplit(|byte| !is_name_byte(*byte) && *byte != b'.');
    words
        .find(|word| !word.is_empty())
        .is_some_and(|word| is_one_in(word, SEDS))
}
