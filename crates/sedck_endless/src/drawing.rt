//! Lines that are drawn from a script.

use sedck_bre::{Bre, ByteSet};
use sedck_script::{Address, Pattern, Place, Script, Verb};
use std::alloc::{AllocError, Global};

/// How many lines are drawn, at most.
const MOST: usize = 12;

/// How many texts of groups are made for a line, at most: intervals of intervals would make very many, perhaps all empty.
const GROUPS: usize = 1_000;

/// What is a quote in reports, in the shell or for `printf`.
const QUOTES: &[u8] = b"'`\\%";

/// Bytes that are tried first for a list.
const USUAL: &[u8] = b"xa0 bA1_-.,/";

/// Lines that the expressions of the script match, a few others, and the empty one. They have printable ASCII alone, and no quotes.
pub fn drawn_lines(alloc: Global, script: &Script) -> Result<Vec<Vec<u8>>, AllocError> {
    let mut lines = Vec::new(alloc);
    lines.push(Vec::from_slice(alloc, b"x")?)?;
    lines.push(Vec::new(alloc))?;
    for command in script.commands() {
        match &command.address {
            Address::None => {}
            Address::One(place) => draw_place(alloc, place, &mut lines)?,
            Address::Two(from, to) => {
                draw_place(alloc, from, &mut lines)?;
                draw_place(alloc, to, &mut lines)?;
            }
        }
        if let Verb::Substitute(substitution) = &command.verb {
            draw(alloc, &substitution.pattern, &mut lines)?;
        }
    }
    Ok(lines)
}

fn draw_place(alloc: Global, place: &Place, lines: &mut Vec<Vec<u8>>) -> Result<(), AllocError> {
    match place {
        Place::Context(pattern) => draw(alloc, pattern, lines),
        _ => Ok(()),
    }
}

/// Adds a short text that the expression matches, and a longer one where there is one.
fn draw(alloc: Global, pattern: &Pattern, lines: &mut Vec<Vec<u8>>) -> Result<(), AllocError> {
    let Pattern::Expr(expression) = pattern else {
        return Ok(());
    };
    for times in 0..2u8 {
        if lines.len() >= MOST {
            break;
        }
        let mut sample = Sample {
            text: Vec::new(alloc),
            groups: Vec::new(alloc),
            times,
        };
        if sample.add(expression.body())? && !has_line(lines, &sample.text) {
            lines.push(sample.text)?;
        }
    }
    Ok(())
}

fn has_line(lines: &[Vec<u8>], text: &[u8]) -> bool {
    lines.iter().any(|line| line.as_slice() == text)
}

/// A text that an expression matches, as far as it is made.
#[derive(Drop)]
struct Sample {
    text: Vec<u8>,
    /// The number of each group, and where its text begins and ends.
    groups: Vec<(u8, usize, usize)>,
    /// How often a repetition is there that may be left out.
    times: u8,
}

impl Sample {
    /// Adds a text of the expression; whether it has one that can be printed.
    #[cycle(drawn)]
    fn add(&mut self, expression: &Bre) -> Result<bool, AllocError> {
        match expression {
            Bre::Byte(byte) => self.add_byte(*byte),
            Bre::Any => self.add_byte(b'x'),
            Bre::Set(set) => match usual_of(*set) {
                Some(byte) => self.add_byte(byte),
                None => Ok(false),
            },
            Bre::Start | Bre::End => Ok(true),
            Bre::Maybe(_) => Ok(false),
            Bre::Group(group, body) => {
                let begin = self.text.len();
                let is_made = self.add(body)?;
                self.groups.push((*group, begin, self.text.len()))?;
                Ok(is_made && self.groups.len() < GROUPS)
            }
            Bre::Ref(group) => self.add_again(*group),
            Bre::Seq(items) => self.add_all(items),
            Bre::Repeat { body, least, most } => {
                let wanted = if *most == Some(0) { 0 } else { self.times };
                for _ in 0..(*least).max(wanted) {
                    if !self.add(body)? {
                        return Ok(false);
                    }
                }
                Ok(true)
            }
        }
    }

    #[cycle(drawn)]
    fn add_all(&mut self, items: &[Bre]) -> Result<bool, AllocError> {
        for item in items {
            if !self.add(item)? {
                return Ok(false);
            }
        }
        Ok(true)
    }

    /// Adds a byte that can be printed and isn't a quote; no text gets long.
    fn add_byte(&mut self, byte: u8) -> Result<bool, AllocError> {
        if !is_printable(byte) || self.text.len() >= 64 {
            return Ok(false);
        }
        self.text.push(byte)?;
        Ok(true)
    }

    /// Adds the text of a group once more.
    fn add_again(&mut self, group: u8) -> Result<bool, AllocError> {
        match span_of(&self.groups, group) {
            Some((begin, end)) => self.add_part(begin, end),
            None => Ok(false),
        }
    }

    fn add_part(&mut self, begin: usize, end: usize) -> Result<bool, AllocError> {
        for index in begin..end {
            let Some(byte) = self.text.get(index).copied() else {
                return Ok(false);
            };
            if !self.add_byte(byte)? {
                return Ok(false);
            }
        }
        Ok(true)
    }
}

/// Where the text of the group begins and ends, if it has one.
fn span_of(groups: &[(u8, usize, usize)], group: u8) -> Option<(usize, usize)> {
    for (number, begin, end) in groups {
        if *number == group {
            return Some((*begin, *end));
        }
    }
    None
}

fn is_printable(byte: u8) -> bool {
    (b' '..=b'~').contains(&byte) && !QUOTES.contains(&byte)
}

/// A byte of the set that can be printed, a usual one if it has one.
fn usual_of(set: ByteSet) -> Option<u8> {
    for byte in USUAL {
        if is_in(set, *byte) {
            return Some(*byte);
        }
    }
    for byte in b' '..=b'~' {
        if is_printable(byte) && is_in(set, byte) {
            return Some(byte);
        }
    }
    None
}

fn is_in(set: ByteSet, byte: u8) -> bool {
    match set.0.get(usize::from(byte / 64)) {
        Some(word) => (*word >> (byte % 64)) & 1 == 1,
        None => false,
    }
}
