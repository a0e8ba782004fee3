//! Finds the calls of sed in a file.

ghost use Rattle.std.specs.Prelude.{IfOk};
ghost use Rattle.sedck_find.specs.Told.{has_macros, IsTold};

use crate::macros::Macros;
use crate::names::Names;
use crate::overwriting::overwritten_by;
use crate::parts::{Part, Runner, parts_of};
use crate::programs::Program;
use crate::replaced::with_holes;
use crate::script::{Around, script_of};
use crate::texts::{Held, Texts};
use crate::told::with_words;
use crate::units::{has_any, is_assignment, is_word_in, lone_hole, rest};
use crate::values::{MOST, Value, line_starts};
use crate::words::{CallWord, Filler, quoted};
use sedck_found::{
    Assumptions, Followed, Found, FoundCall, FoundScript, KnownValue, OpenHole, Role, Unknown,
};
use sedck_hosts::{Assignment, host_of};
use sedck_kinds::{Kind, is_dollar_quoting, is_run_by_sed, kind_of, shell_of};
use sedck_origin::{Hole, Result, Text, Unit, Way, begins_with};
use sedck_shell::Form;
use std::alloc::Global;
use std::collections::BTreeMap;

/// How many bytes before values may be read in all.
const REACH: usize = 2_000_000_000;

/// How many bytes of values may be put in even for a short file.
const SPARE: usize = 65_536;

/// How a file of this kind, with this path and these bytes, is read.
fn form_of(kind: Kind, path: &str, file: &[u8]) -> Form {
    let is_script = kind == Kind::Shell;
    let shell = if is_script { shell_of(path, file) } else { &[] };
    Form {
        is_template: path.ends_with(".in") || path.ends_with(".am"),
        has_dollar_quotes: is_dollar_quoting(shell),
    }
}

/// The calls of sed in a file of this kind, with this path. No word for a sed is passed in silence.
pub fn calls_in<'a>(
    alloc: Global,
    kind: Kind,
    path: &str,
    file: &'a [u8],
    assumed: Assumptions<'a>,
) -> Result<Found>
    ensures told { IfOk result (IsTold (has_macros kind) file.now) }
{
    let (calls, unread) = read_calls(alloc, kind, path, file, assumed)?;
    with_words(alloc, kind, file, calls, unread)
}

/// The calls in the file, and what isn't understood, as a shell reads it.
fn read_calls<'a>(
    alloc: Global,
    kind: Kind,
    path: &str,
    file: &'a [u8],
    assumed: Assumptions<'a>,
) -> Result<(Vec<FoundCall>, Vec<usize>)> {
    let mut given = Vec::new(alloc);
    for one in assumed.variables {
        given.push(Value::given(alloc, one.value.unwrap_or(&[]))?)?;
    }
    let names = Names {
        alloc,
        kind,
        form: form_of(kind, path, file),
        file,
        assumed,
        given,
        written: BTreeMap::new(alloc),
        left: file.len().saturating_add(SPARE),
        macros: Macros::of(kind, file),
        lines: line_starts(alloc, file)?,
    };
    let mut texts = read_file(names)?;
    if kind == Kind::Shell && is_foreign(path, file) {
        texts.unread.push(0)?;
    }
    found_in(&texts)
}

/// Whether the file isn't understood as a whole: a script of sed, by its first line or else by its name, or one of zsh, which reads quotes and
/// signs otherwise.
fn is_foreign(path: &str, file: &[u8]) -> bool {
    let is_named_so = path.ends_with(".sed") && kind_of("", file).is_none();
    is_run_by_sed(file) || is_named_so || shell_of(path, file).starts_with(b"zsh")
}

/// Reads the file of these names: its texts, the values of make's variables, and the texts in them.
fn read_file(names: Names<'_>) -> Result<Texts<'_>> {
    let (alloc, kind, file, form) = (names.alloc, names.kind, names.file, names.form);
    let mut texts = Texts {
        names,
        held: Vec::new(alloc),
        inner: Vec::new(alloc),
        left: file.len().saturating_mul(4),
        unread: Vec::new(alloc),
    };
    if kind == Kind::Shell {
        texts.read(Text::Whole(file), form, false)?;
    }
    let host = host_of(alloc, kind, file)?;
    for text in &host.texts {
        texts.read(Text::Units(text), form, false)?;
    }
    for assignment in &host.assignments {
        note_assignment(&mut texts.names, assignment)?;
        texts.read(Text::Units(&assignment.value), form, true)?;
    }
    texts.read_inner()?;
    Ok(texts)
}

/// What is found in the commands that were read: the calls in the file's order, each once, and what isn't understood.
fn found_in(texts: &Texts<'_>) -> Result<(Vec<FoundCall>, Vec<usize>)> {
    let names = &texts.names;
    let mut calls = Vec::new(names.alloc);
    let mut filler = Filler {
        names,
        left: names.file.len().saturating_mul(2).saturating_add(SPARE),
        reach: REACH,
        followed: Vec::new(names.alloc),
        named: Vec::new(names.alloc),
        case: 0,
        cases: 1,
        chosen: None,
        starts: BTreeMap::new(names.alloc),
    };
    for held in &texts.held {
        let parts = parts_of(names, &held.command.words)?;
        for part in &parts {
            add_call(&mut calls, &mut filler, held, part, parts.len() == 1)?;
        }
    }
    calls.sort_by_key(|call| call.start)?;
    let mut unread = Vec::from_slice(names.alloc, &texts.unread)?;
    unread.sort()?;
    unread.dedup();
    Ok((calls, unread))
}

/// Notes an assignment of make's. In a template its value may have a name which is replaced.
fn note_assignment(names: &mut Names<'_>, assignment: &Assignment) -> Result<()> {
    let value = assignment.value.as_slice();
    let is_template = names.form.is_template && has_any(value, "@");
    match (value.first(), value.last()) {
        (Some(first), Some(last)) if is_template => {
            let whole = Unit::made(first.start(), last.end());
            names.note(&assignment.name, &[whole])
        }
        _ => names.note(&assignment.name, value),
    }
}

/// Adds the call that a part of a command is, if it is one and isn't there yet: once for each value of a variable that has several. The
/// part may be the only one of its command. A value of make's that no sed takes may be no shell text.
fn add_call(
    calls: &mut Vec<FoundCall>,
    filler: &mut Filler<'_>,
    held: &Held,
    part: &Part,
    is_only: bool,
) -> Result<()> {
    let start = name_of(part).start;
    if !is_call(filler.names, part) || filler.starts.get(&start).is_some() {
        return Ok(());
    }
    for case in 0..MOST {
        filler.begin(case);
        let here = match &held.command.here {
            Some(units) if is_only && !held.command.has_other_here => {
                Some(CallWord::of(filler.filled(units)?, quoted(0, 0)))
            }
            _ => None,
        };
        let call = found_call(filler, held, part, here.as_ref())?;
        if held.is_value && matches!(&call.script, FoundScript::Refused(_)) {
            return Ok(());
        }
        filler.starts.insert(start, ())?;
        calls.push(call)?;
        if case.saturating_add(1) >= filler.cases {
            break;
        }
    }
    Ok(())
}

/// Whether the part is a call of sed: no prose, and no comparison of nmake's.
fn is_call(names: &Names<'_>, part: &Part) -> bool {
    let is_compared = names.is_make()
        && part
            .others
            .first()
            .is_some_and(|next| is_word_in(&next.units, "neq equ =="));
    let is_prose = names.macros.is_prose(part.name, part.others);
    matches!(part.program, Program::Sed) && !is_prose && !is_compared
}

/// The call that a part of a command is.
fn found_call(
    filler: &mut Filler<'_>,
    held: &Held,
    part: &Part,
    here: Option<&CallWord>,
) -> Result<FoundCall> {
    let alloc = filler.names.alloc;
    let (words, are_known) = words_of(filler, held, part)?;
    let name = name_of(part);
    let around = Around {
        words: &words,
        name,
        runner: part.run.runner,
        here,
    };
    let mut script = match are_known {
        true => script_of(filler.names, around)?,
        false => FoundScript::Unknown(Unknown::Words),
    };
    note_conditions(filler, &mut script)?;
    let mut before = part.before.iter();
    let is_alone = before.all(|word| is_assignment(&word.units));
    let file = filler.names.file;
    let overwritten = overwritten_by(file, &held.command, &script, around).filter(|_| is_alone);
    let words = words.into_iter().map(|word| word.traced);
    Ok(FoundCall {
        start: name.start,
        end: name.end,
        overwritten,
        words: words.collect(alloc)?,
        script,
        followed: std::mem::replace(&mut filler.followed, Vec::new(alloc)),
        c_locale: part.run.c_locale,
    })
}

/// Adds the conditions on what isn't in the words. Notes which are on variables whose values may be given, and takes that POSIXLY_CORRECT
/// isn't set for one that is, where it is assumed.
fn note_conditions(filler: &mut Filler<'_>, script: &mut FoundScript) -> Result<()> {
    let FoundScript::Text { holes, .. } = script else {
        return Ok(());
    };
    holes.extend_from_slice(&filler.named)?;
    let has_order = filler.names.assumed.has_order();
    for hole in holes.iter_mut() {
        hole.is_variable = filler.names.variable_at(hole.hole).is_some();
        if has_order && hole.is_of_order() {
            filler.followed.push(Followed {
                start: hole.hole.start,
                end: hole.hole.end,
                value: KnownValue::Unset,
                from: 0,
                to: 0,
            })?;
        }
    }
    holes.retain(|hole| !has_order || !hole.is_of_order());
    Ok(())
}

/// Where the file has the name of a call, without what may run it in the same word.
fn name_of(part: &Part) -> Hole {
    let units = &part.name.units;
    let glued = units.get(part.glued).filter(|_| part.glued > 0);
    let start = glued.map_or(part.name.start, |unit| unit.start());
    let least = start.saturating_add(1);
    quoted(
        start,
        units.last().map_or(least, |last| last.end().max(least)),
    )
}

/// The words of a call after its name, with those in the value of a variable that is the name, and whether all that is put into them is known.
/// What is unknown of the name and of what runs it is noted.
fn words_of(filler: &mut Filler<'_>, held: &Held, part: &Part) -> Result<(Vec<CallWord>, bool)> {
    let alloc = filler.names.alloc;
    let mut words = note_name(filler, part)?;
    note_before(filler, held, part)?;
    let Some(texts) = part.run.replaced.texts(alloc)? else {
        return Ok((words, false));
    };
    let mut are_known = true;
    for word in part.others {
        let mut units = Vec::from_slice(alloc, &word.units)?;
        // What runs the sed replaces these texts by a name or a line, and those in values.
        for text in &texts {
            units = with_holes(alloc, &units, text, Way::Quoted)?;
        }
        let is_named = part.run.runner == Runner::Find && begins_with(&word.units, "{}");
        let mut word = filler.word(word, &units)?;
        word.is_path |= is_named;
        are_known &= !texts.iter().any(|text| word.has_in_value(text));
        words.push(word)?;
    }
    Ok((words, are_known))
}

/// Notes what is unknown of the name of a call, and answers the words in its value.
fn note_name(filler: &mut Filler<'_>, part: &Part) -> Result<Vec<CallWord>> {
    let called = rest(&part.name.units, part.glued);
    match lone_hole(called) {
        Some(hole) => {
            if let Some(words) = filler.words_in(hole)? {
                return Ok(words);
            }
            if hole.way.is_split() {
                filler.named.push(OpenHole::new(hole, Role::Sed, 0))?;
            }
        }
        None => filler.note_words(called, false)?,
    }
    Ok(Vec::new(filler.names.alloc))
}

/// Notes what may run the call, and each hole before its name and in redirections in whose place there may be several words. A shell splits
/// none that it assigns.
fn note_before(filler: &mut Filler<'_>, held: &Held, part: &Part) -> Result<()> {
    let mut is_assigned = true;
    let count = part.before.len().saturating_add(part.glued.min(1));
    for (number, word) in held.command.words.iter().enumerate().take(count) {
        is_assigned = is_assigned && is_assignment(&word.units);
        match word.units.first() {
            Some(Unit::Hole(runner)) if part.run.unknown == Some(number) => {
                if !filler.is_nothing(*runner)? {
                    filler.named.push(OpenHole::new(*runner, Role::Runner, 0))?;
                }
            }
            _ => filler.note_words(&word.units, is_assigned)?,
        }
    }
    for hole in &held.command.made {
        filler.note_words(&[Unit::Hole(*hole)], false)?;
    }
    Ok(())
}
