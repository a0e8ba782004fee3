//! Units of systemd: the commands of services. No shell reads them, so that what it would take for more than a byte is quoted (systemd.service,
//! "Command lines", and systemd.unit, "Specifiers").

use crate::host::Host;
use crate::parts::{Part, is_in, is_word_of};
use sedck_origin::{Hole, Result, Unit, Way, is_name_byte};
use std::alloc::Global;

/// Keys whose values are commands.
const KEYS: &str =
    "ExecStart ExecStartPre ExecStartPost ExecCondition ExecReload ExecStop ExecStopPost";

/// Bytes that a shell takes for themselves, beside letters, digits and underscores.
const PLAIN: &str = "-./=,:@";

/// The commands of a unit as shell text. One with another name for its program isn't read, nor one of several
/// lines.
pub(crate) fn host_of_systemd(alloc: Global, file: &[u8]) -> Result<Host> {
    let mut host = Host::new(alloc);
    let mut rest = Part::whole(file);
    for _ in 0..file.len() {
        let Some((line, next)) = rest.split_line(false) else {
            break;
        };
        rest = next;
        let value = line.from_any("=");
        let command = value.skip(1).after_any(" \t-:+!");
        let is_read = is_word_of(line.to(value.start).before_blanks().bytes(), KEYS);
        if is_read && !command.begins_with_any("@|") && command.bytes().last() != Some(&b'\\') {
            host.add(read_command(alloc, command)?)?;
        }
    }
    Ok(host)
}

/// The command as shell text.
fn read_command(alloc: Global, command: Part) -> Result<Vec<Unit>> {
    let mut units = Vec::new(alloc);
    let mut quote = None;
    let mut rest = command;
    for _ in 0..command.len() {
        let Some(byte) = rest.first() else { break };
        let here = rest;
        rest = here.skip(1);
        match byte {
            b'"' | b'\'' if quote == Some(byte) => quote = None,
            b'"' | b'\'' if quote.is_none() => {
                quote = Some(byte);
                // A word may be empty.
                units.push(Unit::Byte(b'\'', here.start))?;
                units.push(Unit::Byte(b'\'', here.start))?;
            }
            b' ' | b'\t' if quote.is_none() => units.push(Unit::Byte(byte, here.start))?,
            b';' if quote.is_none() && is_alone(here) => {
                units.push(Unit::Byte(byte, here.start))?;
            }
            b'\\' | b'$' | b'%' => rest = push_escape(here, byte, &mut units)?,
            _ => push_quoted(here, byte, &mut units)?,
        }
    }
    Ok(units)
}

/// Whether the byte that begins the part is a word by itself.
fn is_alone(part: Part) -> bool {
    let rest = part.skip(1);
    let before = part
        .start
        .checked_sub(1)
        .and_then(|before| part.file.get(before));
    matches!(before, Some(b' ' | b'\t')) && (rest.len() == 0 || rest.begins_with_any(" \t"))
}

/// Adds the byte that begins the part, so that a shell takes it for itself.
fn push_quoted(part: Part, byte: u8, units: &mut Vec<Unit>) -> Result<()> {
    if !is_name_byte(byte) && !is_in(byte, PLAIN) {
        units.push(Unit::Byte(b'\\', part.start))?;
    }
    Ok(units.push(Unit::Byte(byte, part.start))?)
}

/// Adds what stands for a byte or is unknown, and answers what is after it. A variable may be several words where it begins one.
fn push_escape<'a>(part: Part<'a>, byte: u8, units: &mut Vec<Unit>) -> Result<Part<'a>> {
    let next = part.skip(1);
    let name = next.after_name();
    let (way, end) = match (byte, next.first()) {
        (b'\\', Some(there @ (b'\\' | b'"' | b'\'' | b';'))) => {
            push_quoted(next, there, units)?;
            return Ok(next.skip(1));
        }
        (_, Some(there)) if there == byte => {
            push_quoted(next, there, units)?;
            return Ok(next.skip(1));
        }
        (b'$', Some(b'{')) => (Way::Quoted, next.from_any("}").skip(1).start),
        (b'$', _) if !begins_word(units) => {
            push_quoted(part, byte, units)?;
            return Ok(next);
        }
        (b'$', _) => (Way::Bare, name.start),
        _ => (Way::Quoted, next.skip(1).start),
    };
    let (start, end) = (part.start, end.min(part.end));
    units.push(Unit::Hole(Hole { start, end, way }))?;
    Ok(part.from(end))
}

/// Whether a word begins after the units.
fn begins_word(units: &[Unit]) -> bool {
    matches!(
        units.last(),
        None | Some(Unit::Byte(b' ' | b'\t' | b'\'', _))
    )
}
