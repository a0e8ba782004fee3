//! Files of continuous integration: the shell text of the keys that have it, as a block or a plain scalar on one line.

use crate::host::Host;
use crate::parts::{Part, is, is_in, is_word_of};
use sedck_origin::{Result, Unit};
use std::alloc::Global;

/// Keys whose values are shell text, beside those that end in `_script`.
const KEYS: &str = "run script install before_install before_cache after_success after_failure \
                    before_deploy after_deploy bash command";

/// What keys are made of.
const KEY_BYTES: &str = "abcdefghijklmnopqrstuvwxyzABCDEFGHIJKLMNOPQRSTUVWXYZ0123456789_-.";

/// A line without what begins it.
#[derive(Clone, Copy)]
struct Line<'a> {
    /// What stands after spaces and the dashes of sequences.
    text: Part<'a>,
    indentation: usize,
    /// The indentation of the text.
    column: usize,
    /// That of the dash before it.
    dash: Option<usize>,
}

/// The state of reading a file of YAML.
#[derive(Drop)]
struct Yaml<'a> {
    alloc: Global,
    host: Host,
    /// What isn't read yet.
    rest: Part<'a>,
    /// The indentation of the key with shell text whose value is the sequence that is read.
    list: Option<usize>,
}

/// The shell text of a file of YAML.
pub(crate) fn host_of_yaml(alloc: Global, file: &[u8]) -> Result<Host> {
    let mut yaml = Yaml {
        alloc,
        host: Host::new(alloc),
        rest: Part::whole(file),
        list: None,
    };
    for _ in 0..file.len() {
        let Some((line, rest)) = yaml.rest.split_line(false) else {
            break;
        };
        yaml.rest = rest;
        if !line.is_ended() {
            yaml.read_line(after_dashes(line))?;
        }
    }
    Ok(yaml.host)
}

impl<'a> Yaml<'a> {
    /// Reads a line: a key with its value, or an item of a sequence.
    fn read_line(&mut self, line: Line<'a>) -> Result<()> {
        if let Some(end) = key_end(line.text) {
            let key = line.text.before(end);
            let value = end.skip(1).after_blanks();
            let is_shell = is_word_of(key, KEYS) || key.ends_with(b"_script");
            self.list = (is_shell && value.is_ended()).then_some(line.column);
            return self.read_value(value, line.column, is_shell);
        }
        let has_dash = line.dash.is_some();
        let is_within = self.list.is_some_and(|key| {
            line.indentation > key || (has_dash && line.indentation == key)
        });
        if !is_within {
            self.list = None;
        }
        let parent = line.dash.unwrap_or(line.indentation.saturating_sub(1));
        self.read_value(line.text, parent, is_within && has_dash)
    }

    /// Reads the value of a node with this indentation, and adds it if it is shell text.
    fn read_value(&mut self, value: Part<'a>, parent: usize, is_shell: bool) -> Result<()> {
        match value.first() {
            Some(b'|' | b'>') => {
                let is_read = is_shell && value.begins_with(b'|') && is_header(value.skip(1));
                self.read_block(parent, is_read)
            }
            Some(sign) if is_shell && !value.is_ended() && !is_in(sign, "[]{},&*!'\"%@`") => {
                self.read_plain(value, parent)
            }
            _ => Ok(()),
        }
    }

    /// Takes the lines of a block, and adds them as a text if they are read. The first line that isn't blank gives their indentation.
    fn read_block(&mut self, parent: usize, is_read: bool) -> Result<()> {
        let mut units = Vec::new(self.alloc);
        let mut indentation = None;
        for _ in 0..self.rest.len() {
            let Some((line, next)) = self.rest.split_line(false) else {
                break;
            };
            let text = line.after_any(" ");
            let count = line.before(text).len();
            let least = indentation.unwrap_or(parent.saturating_add(1));
            if text.len() > 0 {
                if count < least {
                    break;
                }
                indentation = indentation.or(Some(count));
            }
            self.rest = next;
            if is_read {
                let length = indentation.unwrap_or(line.len());
                push_text(line.skip(length), &mut units)?;
                line.push_newline(&mut units)?;
            }
        }
        self.host.add(units)
    }

    /// Reads a plain scalar, unless it goes on on the next line.
    fn read_plain(&mut self, value: Part<'a>, parent: usize) -> Result<()> {
        let next = self.rest.after_any(" \r\n");
        let begun = self.rest.between(self.rest.start, next.start);
        let goes_on = next.len() > 0 && !next.begins_with(b'#') && indentation_of(begun) > parent;
        if goes_on {
            return Ok(());
        }
        let mut units = Vec::new(self.alloc);
        if let Some(scalar) = plain_scalar(value) {
            push_text(scalar, &mut units)?;
        }
        self.host.add(units)
    }
}

/// How many spaces are after the last newline.
fn indentation_of(blanks: Part) -> usize {
    let mut count = 0usize;
    for byte in blanks.bytes() {
        count = if *byte == b'\n' {
            0
        } else {
            count.saturating_add(1)
        };
    }
    count
}

/// The line without the dashes of sequences that begin it.
fn after_dashes(whole: Part) -> Line<'_> {
    let first = whole.after_any(" ");
    let text = first.after_words(8, |word| is(word, "-"));
    let dashes = whole.to(text.start).before_blanks();
    Line {
        text,
        indentation: whole.before(first).len(),
        column: whole.before(text).len(),
        dash: dashes.len().checked_sub(1),
    }
}

/// What is after the key that begins the part: its colon; none if no key does.
fn key_end(part: Part) -> Option<Part<'_>> {
    let behind = part.after_any(KEY_BYTES);
    let next = behind.skip(1);
    let is_key = behind.start > part.start
        && behind.len() > 0
        && behind.begins_with(b':')
        && (next.len() == 0 || next.begins_with_any(" \t"));
    is_key.then_some(behind)
}

/// Whether what is after `|` is the rest of a header that gives no indentation.
fn is_header(rest: Part) -> bool {
    rest.after_any("+-").is_ended()
}

/// The plain scalar that begins the part: it ends before a comment and blanks. None if it is no scalar but a key with its value.
fn plain_scalar(whole: Part) -> Option<Part<'_>> {
    let mut before = b' ';
    let mut end = whole.end;
    for (index, byte) in whole.bytes().iter().enumerate() {
        if before == b':' && is_in(*byte, " \t") {
            return None;
        }
        if *byte == b'#' && is_in(before, " \t") {
            end = whole.skip(index).start;
            break;
        }
        before = *byte;
    }
    (before != b':').then_some(whole.to(end).before_blanks())
}

/// Adds the bytes of a line, or of a part of it; an expression in it, `${{ .. }}` of GitHub's or `$[[ .. ]]` of GitLab's, is a hole, since it is
/// replaced before a shell runs. One that isn't closed goes to the part's end.
fn push_text(part: Part, units: &mut Vec<Unit>) -> Result<()> {
    let mut rest = part;
    for _ in 0..part.len() {
        let Some(byte) = rest.first() else { break };
        let is_expression = rest.starts_with("${{") || rest.starts_with("$[[");
        let unit = match is_expression {
            true => Unit::made(rest.start, expression_end(rest)),
            false => Unit::Byte(byte, rest.start),
        };
        units.push(unit)?;
        rest = rest.from(unit.end());
    }
    Ok(())
}

/// Where the expression ends that begins the part.
fn expression_end(part: Part) -> usize {
    let closer = if part.starts_with("${{") { "}}" } else { "]]" };
    let mut rest = part.skip(3);
    for _ in 0..part.len() {
        if rest.starts_with(closer) {
            return rest.skip(2).start;
        }
        rest = rest.skip(1);
    }
    part.end
}
