//! The calls in the words of a command, which may run others.

use crate::names::Names;
use crate::programs::{Program, glued_units, program_of};
use crate::replaced::Replaced;
use crate::units::{begins_open, is_assignment, is_c_locale, is_option, is_word_in, rest};
use sedck_origin::{Result, Unit};
use sedck_shell::ShellWord;

/// What `find` runs a command for.
const EXECUTING: &str = "-exec -execdir -ok -okdir";

/// The most commands that run one another.
const WRAPPED: usize = 8;

/// A call in the words of a command.
#[derive(Clone, Copy)]
pub(crate) struct Part<'a> {
    pub program: Program,
    /// The words before its name.
    pub before: &'a [ShellWord],
    /// The word that is its name ..
    pub name: &'a ShellWord,
    /// .. and how many units of that precede the name, in whose place make or a shell may put another command.
    pub glued: usize,
    /// The words after its name.
    pub others: &'a [ShellWord],
    pub run: Run<'a>,
}

/// How a command is run.
#[derive(Clone, Copy, Default)]
pub(crate) struct Run<'a> {
    pub runner: Runner,
    /// What is replaced in its words.
    pub replaced: Replaced<'a>,
    /// The number of the word that may be a runner or nothing, where that is unknown.
    pub unknown: Option<usize>,
    /// Whether the words right before the name set LC_ALL to C or POSIX.
    pub c_locale: bool,
}

/// What runs a command.
#[derive(Clone, Copy, Default, PartialEq, Eq)]
pub(crate) enum Runner {
    /// Nothing that gives it words.
    #[default]
    Plain,
    /// `find`.
    Find,
    /// `xargs`, which adds operands.
    Adding,
    /// `xargs`, which replaces parts of the words.
    Replacing,
}

/// The calls in these words of a command: of seds, and of what hands text to a shell.
pub(crate) fn parts_of<'a>(names: &Names<'_>, words: &'a [ShellWord]) -> Result<Vec<Part<'a>>> {
    let mut parts = Vec::new(names.alloc);
    // The option of `time`, which is a reserved word.
    let first = usize::from(words.first().is_some_and(|first| first.is("-p")));
    let Some(part) = part_in(names, words, first, Run::default(), true) else {
        return Ok(parts);
    };
    if !matches!(part.program, Program::Find) {
        parts.push(part)?;
        return Ok(parts);
    }
    let run = part.run.by_find(part.others);
    let mut from = part.before.len();
    for _ in words {
        let mut others = rest(words, from).iter();
        let Some(place) = others.position(|word| is_word_in(&word.units, EXECUTING)) else {
            break;
        };
        let begin = from.saturating_add(place);
        from = end_of(words, begin);
        let inner = words.get(..from).unwrap_or(words);
        parts.extend(part_in(names, inner, begin.saturating_add(1), run, false))?;
    }
    Ok(parts)
}

/// Where the command ends that `find` runs for the word of this number: one that asks doesn't end at `+`.
fn end_of(words: &[ShellWord], begin: usize) -> usize {
    let asks = words
        .get(begin)
        .is_some_and(|word| is_word_in(&word.units, "-ok -okdir"));
    let mut follows_braces = false;
    for (number, word) in words.iter().enumerate().skip(begin).skip(1) {
        if word.is(";") || (word.is("+") && follows_braces && !asks) {
            return number;
        }
        follows_braces = word.is("{}");
    }
    words.len()
}

/// The call that these words have from this number on, after others that run it. Assignments there may set variables of it.
fn part_in<'a>(
    names: &Names<'_>,
    words: &'a [ShellWord],
    from: usize,
    run: Run<'a>,
    assigns: bool,
) -> Option<Part<'a>> {
    let (mut at, mut run, mut assigns) = (from, run, assigns);
    for _ in 0..=WRAPPED {
        at = run.after_assignments(words, at, assigns);
        let name = words.get(at)?;
        let glued = glued_units(&name.units);
        let called = rest(&name.units, glued);
        let others = rest(words, at.saturating_add(1));
        if glued > 0 {
            run.note_unknown(at)?;
        }
        assigns = false;
        match program_of(names, called) {
            Program::Wrapper(wrapper) => {
                run.c_locale = false;
                assigns = wrapper.names == "env";
                if wrapper.names.is_empty() {
                    run.note_unknown(at)?;
                }
                let count = wrapper.count_before(others)?;
                if wrapper.names == "xargs" {
                    run.note_xargs(others.get(..count).unwrap_or(&[]));
                }
                at = at.saturating_add(count).saturating_add(1);
            }
            Program::Other if glued > 0 && begins_command(called) => at = at.saturating_add(1),
            Program::Other => return None,
            program => {
                return Some(Part {
                    program,
                    before: words.get(..at).unwrap_or(&[]),
                    name,
                    glued,
                    others,
                    run,
                });
            }
        }
    }
    None
}

/// Whether a command begins after the word, where another one may be before it in its word.
fn begins_command(units: &[Unit]) -> bool {
    is_assignment(units) || is_word_in(units, "if then else elif do while until { !")
}

impl<'a> Run<'a> {
    /// The number of the first word from this one on that is no assignment. Of LC_ALL the last one counts, if they set variables.
    fn after_assignments(&mut self, words: &[ShellWord], from: usize, assigns: bool) -> usize {
        for (number, word) in words.iter().enumerate().skip(from) {
            if !is_assignment(&word.units) {
                return number;
            }
            if let Some(is_c) = is_c_locale(&word.units) {
                self.c_locale = is_c && assigns;
            }
        }
        words.len()
    }

    /// Notes the number of a word that may run the command or be nothing; none where another one is such, too.
    fn note_unknown(&mut self, number: usize) -> Option<()> {
        self.c_locale = false;
        let is_first = self.unknown.is_none();
        self.unknown = Some(number);
        is_first.then_some(())
    }

    /// The same that `find` with these words runs.
    fn by_find(self, words: &[ShellWord]) -> Run<'a> {
        let runner = match self.runner {
            Runner::Plain if may_list(words) => Runner::Replacing,
            Runner::Plain => Runner::Find,
            runner => runner,
        };
        let mut run = self;
        run.runner = runner;
        run.replaced.has_braces = true;
        run.c_locale = false;
        run
    }

    /// Notes what `xargs` with these options does. What another one adds goes to this one's command.
    fn note_xargs(&mut self, options: &'a [ShellWord]) {
        self.replaced.adds |= self.runner == Runner::Adding;
        self.runner = Runner::Adding;
        for (number, word) in options.iter().enumerate() {
            let next = options.get(number.saturating_add(1));
            if self.replaced.note_option(&word.units, next) {
                self.runner = Runner::Replacing;
            }
        }
    }
}

/// Whether `find` with these words may have names from a list, which may begin with a hyphen: where one of them is `-files0-from`, or may be.
/// Where that is before an option, the option is the list, and `find` refuses what is after it.
fn may_list(words: &[ShellWord]) -> bool {
    let mut is_open = false;
    for word in words {
        if word.is("-files0-from") || (is_open && !is_option(&word.units)) {
            return true;
        }
        if is_word_in(&word.units, EXECUTING) {
            break;
        }
        is_open = begins_open(&word.units);
    }
    false
}
