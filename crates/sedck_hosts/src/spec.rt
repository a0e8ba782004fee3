//! Spec files of RPM: the sections that are shell text, where macros are holes.

use crate::host::Host;
use crate::parts::{Brackets, Part, is, named};
use sedck_origin::{Result, Unit};
use std::alloc::Global;

/// What a line is by the word that begins it.
#[derive(Clone, Copy)]
enum Sort {
    /// It begins a section of shell text.
    Script,
    /// It begins another section.
    Section,
    /// Other lines or a file's take its place, or leave it.
    Branch,
    /// It is left out of a section's text, with those that continue it.
    Definition,
}

/// The words that begin such lines.
static WORDS: &'static [(Sort, &'static str)] = &[
    (Sort::Script, "%prep %conf %build %install %check %clean"),
    (Sort::Script, "%verifyscript %generate_buildrequires"),
    (Sort::Script, "%pre %post %preun %postun %pretrans"),
    (Sort::Script, "%posttrans %preuntrans %postuntrans %trigger"),
    (Sort::Script, "%triggerin %triggerprein %triggerun"),
    (Sort::Script, "%triggerpostun %filetriggerin %filetriggerun"),
    (Sort::Script, "%filetriggerpostun %transfiletriggerin"),
    (Sort::Script, "%transfiletriggerun %transfiletriggerpostun"),
    (Sort::Section, "%files %description %changelog %package"),
    (Sort::Section, "%sourcelist %patchlist %sepolicy"),
    (Sort::Branch, "%if %ifarch %ifnarch %ifos %ifnos %else"),
    (Sort::Branch, "%elif %elifarch %elifos %endif %include"),
    (Sort::Definition, "%define %global %undefine %dnl"),
];

/// The shell text of a spec file. A line that has others left out or put in is unknown, since a command or a quote may be open.
pub(crate) fn host_of_spec(alloc: Global, file: &[u8]) -> Result<Host> {
    let mut host = Host::new(alloc);
    let mut units = Vec::new(alloc);
    let (mut is_shell, mut is_continued) = (false, false);
    let mut rest = Part::whole(file);
    for _ in 0..file.len() {
        let Some((line, next)) = rest.split_line(false) else {
            break;
        };
        rest = next;
        let (word, options) = line.after_blanks().split_word();
        let sort = named(WORDS, word);
        if let Some(Sort::Script | Sort::Section) = sort {
            host.add(std::mem::replace(&mut units, Vec::new(alloc)))?;
            is_shell = matches!(sort, Some(Sort::Script)) && !has_program(options);
            is_continued = false;
            continue;
        }
        is_continued |= matches!(sort, Some(Sort::Definition));
        if is_shell && !is_continued {
            if sort.is_some() {
                units.push(Unit::made(line.start, line.end))?;
            } else {
                push_line(line, &mut units)?;
            }
            line.push_newline(&mut units)?;
        }
        is_continued = is_continued && line.bytes().last() == Some(&b'\\');
    }
    host.add(units)?;
    Ok(host)
}

/// Whether these options of a section name a program that runs it.
fn has_program(options: Part) -> bool {
    let rest = options.after_words(7, |word| !is(word, "-p"));
    is(rest.split_word().0, "-p")
}

/// Adds the bytes of a line of shell text: `%%` is a percent sign, and a macro a hole.
fn push_line(line: Part, units: &mut Vec<Unit>) -> Result<()> {
    let mut rest = line;
    for _ in 0..line.len() {
        let Some(byte) = rest.first() else { break };
        let unit = match byte {
            b'%' => percent_unit(rest),
            _ => Unit::Byte(byte, rest.start),
        };
        units.push(unit)?;
        rest = rest.from(unit.end());
    }
    Ok(())
}

/// The unit of the percent sign that begins the part: a macro's name may have signs before it.
fn percent_unit(part: Part) -> Unit {
    let next = part.skip(1);
    let behind = next.after_any("?!-").after_name();
    match next.first() {
        Some(b'%') => Unit::Byte(b'%', next.start),
        Some(opener @ (b'{' | b'(' | b'[')) => Unit::made(part.start, macro_end(part, opener)),
        _ if behind.start > next.start => Unit::made(part.start, behind.start),
        _ => Unit::Byte(b'%', part.start),
    }
}

/// Where the macro ends that begins the part, with a bracket. A backslash keeps a bracket after it from being counted.
fn macro_end(part: Part, opener: u8) -> usize {
    let mut brackets = Brackets::new(opener);
    let mut rest = part.skip(2);
    for _ in 0..part.len() {
        let byte = rest.first().unwrap_or(b' ');
        let count = if byte == b'\\' { 2 } else { 1 };
        rest = rest.skip(count);
        match brackets.after(byte) {
            Some(open) => brackets = open,
            None => return rest.start.min(part.end),
        }
    }
    part.end
}
