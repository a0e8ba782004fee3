//! The lines of a text, one after another.

ghost use Rattle.std.specs.Prelude.{◌≡◌, ◌+◌, ◌<◌, ◌^◌, ℕ, Contains, length, MatchOption};
ghost use Rattle.sedck_text.specs.Bytes.{newline};
ghost use Rattle.sedck_cert.specs.Private.Cuts.{IsCut};

use bstr::ByteSlice;

/// What is left of a text, and the number of the line with which it begins.
#[derive(Drop)]
pub struct Lines<'a> {
    pub rest: &'a [u8],
    pub number: usize,
    ghost room: { number + length rest.now < 2 ^ 64 },
}

impl<'a> Lines<'a> {
    pub fn new(text: &'a [u8]) -> Lines<'a>
        ensures rest { result.rest.now ≡ text.now }
        ensures number { result.number ≡ 1 }
    {
        Lines {
            rest: text,
            number: 1,
        }
    }

    /// The next line, without its newline. A line whose newline is missing is none.
    pub fn next(&mut self) -> Option<&'a [u8]>
        ensures text { MatchOption result (Contains self.old.rest.now newline → ⊥) (λ text. IsCut newline self.old.rest.now text.now self.new.rest.now) }
        ensures number { MatchOption result (self.new.number ≡ self.old.number) (λ text. self.new.number ≡ self.old.number + 1) }
    {
        let (text, rest) = cut(self.rest, b'\n')?;
        self.rest = rest;
        self.number += 1;
        Some(text)
    }
}

/// What is before the first such byte, and what is after it.
pub fn cut(text: &[u8], byte: u8) -> Option<(&[u8], &[u8])>
    ensures { MatchOption result (Contains text.now byte → ⊥) (λ parts. IsCut byte text.now parts.0.now parts.1.now) }
{
    let at = text.find_byte(byte)?;
    let (front, rest) = text.split_at(at);
    Some((front, &rest[1..]))
}
