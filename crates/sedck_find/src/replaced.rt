//! What `find` and `xargs` put into the words of a command before it runs.

use crate::units::{bytes_of, has_hole, is_letters, known_part, place_of, rest};
use sedck_origin::{Hole, Result, Unit, Way, begins_with, byte_at};
use sedck_shell::ShellWord;
use std::alloc::Global;

/// What is replaced in the words of a command, by what runs it.
#[derive(Clone, Copy, Default)]
pub(crate) struct Replaced<'a> {
    /// Whether `{}` is.
    pub has_braces: bool,
    /// A part of a word that says what is.
    text: Option<&'a [Unit]>,
    /// Whether more is.
    has_more: bool,
    /// Whether operands may be added all the same.
    pub adds: bool,
}

/// Letters of options of `xargs` after which no other letter is one.
const ENDING: &str = "IJiadEeLlnPsRS";

impl<'a> Replaced<'a> {
    /// Notes an option of `xargs`, with the word after it, and answers whether it has something replaced.
    pub fn note_option(&mut self, option: &'a [Unit], next: Option<&'a ShellWord>) -> bool {
        let known = known_part(option);
        let ending = place_of(known, ENDING).filter(|_| is_letters(known));
        let text = rest(option, ending.map_or(0, |place| place.saturating_add(1)));
        let (replaces, replaced) = match ending.and_then(|place| byte_at(known, place)) {
            Some(b'I') if text.is_empty() => (true, next.map(|next| next.units.as_slice())),
            Some(b'I') => (true, Some(text)),
            Some(b'i') if text.is_empty() => {
                self.has_braces = true;
                (true, Some(text))
            }
            Some(b'i' | b'J') => (true, None),
            Some(b'L' | b'l' | b'n') => {
                self.adds = true;
                (false, None)
            }
            Some(_) => (false, None),
            // That may be `--replace`, and `--max-args` or `--max-lines`.
            None if begins_with(known, "--r") => (true, None),
            None => {
                self.adds |= begins_with(known, "--max-a") || begins_with(known, "--max-l");
                let is_open = is_letters(known) && has_hole(option);
                (is_open, None)
            }
        };
        let is_one = self.text.is_none() && replaced.is_some();
        self.has_more |= replaces && !is_one;
        self.text = self.text.or(replaced);
        replaces
    }

    /// The texts that are replaced; none where these aren't known.
    pub fn texts(&self, alloc: Global) -> Result<Option<Vec<Vec<u8>>>> {
        let mut texts = Vec::new(alloc);
        if self.has_braces {
            texts.push(Vec::from_slice(alloc, b"{}".as_slice())?)?;
        }
        match bytes_of(alloc, self.text.unwrap_or(&[]))? {
            Some(text) if text.is_empty() => {}
            Some(text) => texts.push(text)?,
            None => return Ok(None),
        }
        let is_unknown = self.has_more || (self.adds && self.text.is_some());
        Ok((!is_unknown).then_some(texts))
    }
}

/// The units with a hole in place of each such text, which becomes a part of a word in this way.
pub(crate) fn with_holes(
    alloc: Global,
    units: &[Unit],
    text: &[u8],
    way: Way,
) -> Result<Vec<Unit>> {
    let mut opened = Vec::new(alloc);
    let mut resume = 0usize;
    for (index, unit) in units.iter().enumerate() {
        let end = index.saturating_add(text.len());
        let part = units.get(index..end).unwrap_or(&[]);
        let mut pairs = part.iter().zip(text);
        if index < resume {
            continue;
        }
        match part.last() {
            Some(last) if pairs.all(|(unit, byte)| unit.byte() == Some(*byte)) => {
                resume = end;
                let (start, end) = (unit.start(), last.end());
                opened.push(Unit::Hole(Hole { start, end, way }))?;
            }
            _ => opened.push(*unit)?,
        }
    }
    Ok(opened)
}
