//! Words of bits: counted several words at a time, and put together.

ghost use Rattle.std.specs.Prelude.{◌≡◌, ◌≤◌, length};
ghost use Rattle.sedck_search.specs.Rows.{bit_count};
ghost use Rattle.sedck_search.specs.Private.NodeSet.{AreWordsOfBoth};

use std::simd::prelude::*;

/// How many words are counted at once, each in its lane.
const LANES: usize = 8;

/// The number of bits that are set in the words.
pub fn count_bits(words: &[u64]) -> u64
    requires { length words.now ≤ 65536 }
    ensures { result ≡ bit_count words.now }
{
    let mut sums = u64x8::splat(0);
    let mut at = 0;
    while words.len() - at >= LANES {
        sums = sums.strict_add(u64x8::from_slice(&words[at..]).count_ones());
        at += LANES;
    }
    sums.strict_reduce_sum() + count_each(&words[at..])
}

/// The number of bits that are set in the words, one word after another.
fn count_each(words: &[u64]) -> u64
    requires { length words.now ≤ 65536 }
    ensures { result ≡ bit_count words.now }
{
    let mut count = 0;
    for word in words {
        count += u64::from(word.count_ones());
    }
    count
}

/// The words with the bits of both.
pub(crate) fn both(left: &[u64; 256], right: &[u64; 256]) -> [u64; 256]
    ensures { AreWordsOfBoth left.now right.now result }
{
    let mut words = *left;
    for at in 0..256 {
        words[at] |= right[at];
    }
    words
}
