//! Sets of bytes: ranges, classes, unions and complements, each in a few steps whatever the set.

ghost use Rattle.std.specs.Prelude.{◌≡◌, ◌+◌, ◌-◌, ◌<◌, ◌≤◌, ◌||◌, not, nat_lt, Bool, ℕ};
ghost use Rattle.std.specs.Int.{bit_at};
ghost use Rattle.sedck_expressions.specs.Brackets.{is_from};
ghost use Rattle.sedck_expressions.specs.Private.Sets.{HasJust, HasBitsBelow, AreWords, has_no_word};

use crate::tree::ByteSet;

/// The bits of the word `index` for the bytes below the limit.
fn bits_below(limit: u16, index: u16) -> u64
    requires { index < 4 }
    ensures { HasBitsBelow limit index result }
{
    let start = 64 * index;
    if limit <= start {
        0
    } else if limit >= start + 64 {
        u64::MAX
    } else {
        (1 << (limit - start)) - 1
    }
}

/// The bytes below the limit.
fn below(limit: u16) -> ByteSet
    ensures { HasJust result.0 (λ b. nat_lt b limit) }
{
    ByteSet([
        bits_below(limit, 0),
        bits_below(limit, 1),
        bits_below(limit, 2),
        bits_below(limit, 3),
    ])
}

/// The bytes that either set has.
pub(crate) fn union(a: ByteSet, b: ByteSet) -> ByteSet
    ensures { (p q : ℕ → Bool) → HasJust a.0 p → HasJust b.0 q → HasJust result.0 (λ c. p c || q c) }
{
    let ByteSet(a) = a;
    let ByteSet(b) = b;
    ByteSet([a[0] | b[0], a[1] | b[1], a[2] | b[2], a[3] | b[3]])
}

/// The bits that the word lacks. It is a function so that each word's bits are proved once.
fn inverted(word: u64) -> u64
    ensures { (k : ℕ) → k < 64 → bit_at result k ≡ 1 - bit_at word k }
{
    !word
}

/// The bytes that the set lacks.
pub(crate) fn complement(set: ByteSet) -> ByteSet
    ensures { (p : ℕ → Bool) → HasJust set.0 p → HasJust result.0 (λ c. not (p c)) }
{
    let ByteSet(words) = set;
    ByteSet([
        inverted(words[0]),
        inverted(words[1]),
        inverted(words[2]),
        inverted(words[3]),
    ])
}

/// The bytes from the first to the last.
pub(crate) fn range(first: u8, last: u8) -> ByteSet
    ensures { HasJust result.0 (is_from first last) }
{
    complement(union(
        below(u16::from(first)),
        complement(below(u16::from(last) + 1)),
    ))
}

/// Whether the set has no byte.
pub(crate) fn is_empty(set: ByteSet) -> bool
    ensures value { result ≡ has_no_word set.0 }
    ensures words { AreWords set.0 }
{
    let [first, second, third, last] = set.0;
    first == 0 && second == 0 && third == 0 && last == 0
}
