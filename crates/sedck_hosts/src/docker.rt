//! Dockerfiles: the commands of `RUN`.

use crate::host::Host;
use crate::parts::Part;
use sedck_origin::{Result, Unit, begins_with, is_text};
use std::alloc::Global;

/// The most options before the command of `RUN`.
const OPTIONS: usize = 32;

/// The shell text of a Dockerfile. Among the lines of an instruction comments and blank lines don't count.
pub(crate) fn host_of_docker(alloc: Global, file: &[u8]) -> Result<Host> {
    let mut host = Host::new(alloc);
    let mut units = Vec::new(alloc);
    let mut rest = Part::whole(file);
    for _ in 0..file.len() {
        let Some((line, next)) = rest.split_line(false) else {
            break;
        };
        rest = next;
        if line.is_ended() {
            continue;
        }
        let text = if units.is_empty() {
            line.after_blanks()
        } else {
            line
        };
        match uncontinued(text) {
            Some(text) => text.push(&mut units)?,
            None => {
                text.push(&mut units)?;
                add_run(alloc, &mut host, &units)?;
                units.truncate(0);
            }
        }
    }
    add_run(alloc, &mut host, &units)?;
    Ok(host)
}

/// The line without the backslash at its end that continues it: blanks may follow it. None if there is none.
fn uncontinued(line: Part) -> Option<Part<'_>> {
    let text = line.before_blanks();
    let before = text.before_last(b'\\');
    let is_quoted = before.before_last(b'\\').len() < before.len();
    (before.len() < text.len() && !is_quoted).then_some(before)
}

/// Adds the command of the instruction, if it is `RUN`. A list of words is none, and a here-document isn't read.
fn add_run(alloc: Global, host: &mut Host, instruction: &[Unit]) -> Result<()> {
    let [
        Unit::Byte(b'R' | b'r', _),
        Unit::Byte(b'U' | b'u', _),
        Unit::Byte(b'N' | b'n', _),
        Unit::Byte(b' ' | b'\t', _),
        rest @ ..,
    ] = instruction
    else {
        return Ok(());
    };
    let command = after_options(rest);
    let is_list = begins_with(command, "[\"") || begins_with(command, "[ \"");
    if is_list || has_here(command) {
        return Ok(());
    }
    host.add(command.to_vec(alloc)?)
}

/// The units without blanks and the options before a command.
fn after_options(units: &[Unit]) -> &[Unit] {
    let mut rest = until_blank(units, false);
    for _ in 0..OPTIONS {
        if begins_with(rest, "--") {
            rest = until_blank(until_blank(rest, true), false);
        }
    }
    rest
}

/// The units from the first on that is a blank, or that is none.
fn until_blank(units: &[Unit], is_blank: bool) -> &[Unit] {
    for (index, unit) in units.iter().enumerate() {
        if matches!(*unit, Unit::Byte(b' ' | b'\t', _)) == is_blank {
            return units.get(index..).unwrap_or(&[]);
        }
    }
    &[]
}

/// Whether a here-document may begin among the units.
fn has_here(units: &[Unit]) -> bool {
    for pair in units.windows(2) {
        if is_text(pair, "<<") {
            return true;
        }
    }
    false
}
