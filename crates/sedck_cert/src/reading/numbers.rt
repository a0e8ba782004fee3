//! Decimals in their one spelling.

ghost use Rattle.std.specs.Prelude.{◌≡◌, ◌≤◌, ◌++◌, ℕ, List, MatchOption, decimal};

/// The number that the text writes, if it is at most `most`.
pub fn number(text: &[u8], most: u16) -> Option<u16>
    ensures { MatchOption result ((n : ℕ) → n ≤ most → text.now ≡ decimal n → ⊥) (λ n. (n ≤ most) × (text.now ≡ decimal n)) }
{
    if text.is_empty() {
        return None;
    }
    if text[0] == b'0' && text.len() > 1 {
        return None;
    }
    let mut value: u32 = 0;
    for byte in text {
        if !byte.is_ascii_digit() {
            return None;
        }
        value = value * 10 + (*byte - b'0') as u32;
        if value > most as u32 {
            return None;
        }
    }
    Some(value as u16)
}

/// What follows the word.
fn behind<'a>(text: &'a [u8], word: &[u8]) -> Option<&'a [u8]>
    ensures { MatchOption result ((rest : List ℕ) → text.now ≡ word.now ++ rest → ⊥) (λ rest. text.now ≡ word.now ++ rest.now) }
{
    text.strip_prefix(word)
}

/// The number after the word, if it is at most 4095.
pub fn count(text: &[u8], word: &[u8]) -> Option<u16>
    ensures { MatchOption result ((n : ℕ) → n ≤ 4095 → text.now ≡ word.now ++ decimal n → ⊥)
        (λ n. (n ≤ 4095) × (text.now ≡ word.now ++ decimal n)) }
{
    number(behind(text, word)?, 4095)
}
