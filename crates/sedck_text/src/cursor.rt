//! A cursor over a text.

ghost use Rattle.std.specs.Prelude.{◌≡◌, ◌≤◌, ◌+◌, ◌∷◌, [], ℕ, List, length, IfSome, MatchOption};

use crate::class::Class;

/// A text, and how far it has been read.
#[derive(Clone, Copy)]
pub struct Cursor<'a> {
    whole: &'a [u8],
    at: usize,
    ghost within: { at ≤ length whole.now },
}

impl<'a> Cursor<'a> {
    ghost use Rattle.sedck_text.specs.Classes.{is_of};
    ghost use Rattle.sedck_text.specs.Runs.{Longest};
    ghost use Rattle.sedck_text.specs.Cursors.{unread, IsAhead, Follows};

    /// The beginning of the text.
    pub fn new(text: &'a [u8]) -> Cursor<'a>
        ensures whole { result.whole ≡ text.entry }
        ensures at { result.at ≡ 0 }
        ensures left { unread result ≡ text.entry.now }
    {
        Cursor { whole: text, at: 0 }
    }

    /// How many bytes of the text have been read.
    pub fn offset(self) -> usize
        ensures { result ≡ self.entry.at }
    {
        self.at
    }

    /// What hasn't been read yet.
    pub fn unread(self) -> &'a [u8]
        ensures { result.now ≡ unread self.entry }
    {
        &self.whole[self.at..]
    }

    /// The next byte.
    pub fn first(self) -> Option<u8>
        ensures { MatchOption result (unread self.entry ≡ []) (λ b. (more : List ℕ) × (unread self.entry ≡ b ∷ more)) }
    {
        self.unread().first().copied()
    }

    /// The next byte, and the cursor behind it.
    pub fn split_first(self) -> Option<(u8, Cursor<'a>)>
        ensures cut { MatchOption result (unread self.entry ≡ []) (λ x. unread self.entry ≡ x.0 ∷ unread x.1) }
        ensures ahead { IfSome result (λ x. IsAhead self.entry 1 x.1 × Follows x.1 x.0) }
    {
        let first = self.first()?;
        Some((first, self.advance(1)))
    }

    /// The cursor this many bytes on.
    pub fn advance(self, count: usize) -> Cursor<'a>
        requires { self.at + count ≤ length self.whole.now }
        ensures { IsAhead self.entry count result }
    {
        Cursor {
            whole: self.whole,
            at: self.at + count,
        }
    }

    /// The bytes of the class with which the rest begins, and the cursor behind them.
    pub fn split(self, class: Class) -> (&'a [u8], Cursor<'a>)
        ensures run { Longest (is_of class) (unread self.entry) result.0.now (unread result.1) }
        ensures ahead { IsAhead self.entry (length result.0.now) result.1 }
    {
        let text = self.unread();
        let count = class.run_length(text);
        (&text[..count], self.advance(count))
    }

    /// The cursor behind the bytes of the class with which the rest begins.
    pub fn skip(self, class: Class) -> Cursor<'a>
        ensures { (front : List ℕ) × Longest (is_of class) (unread self.entry) front (unread result) × IsAhead self.entry (length front) result }
    {
        self.split(class).1
    }
}
