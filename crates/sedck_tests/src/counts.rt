//! Counts of bits against plain arithmetic.
use crate::texts::require;
use sedck_search::rows::count_bits;
use std::process::Abort;

/// Numbers of words: none, and such as aren't a whole number of chunks, or are.
static LENGTHS: [usize; 10] = [0, 1, 7, 8, 9, 64, 127, 128, 255, 256];

/// Words of one bit.
static BITS: [u64; 5] = [1, 1 << 1, 1 << 31, 1 << 32, 1 << 63];

/// Whether so many words, from the first one on, have this many bits.
fn have_bits(rt: &impl Abort, words: &[u64; 256], length: usize, bits: u64) {
    assert!(rt; length <= 256);
    require(rt, count_bits(&words[..length]) == bits, b"words");
}

#[test]
fn counts_of_one_bit(rt: HostRuntime) {
    let mut words = [0; 256];
    for length in &LENGTHS {
        have_bits(&rt, &words, *length, 0);
    }
    for at in 0..256usize {
        for bit in &BITS {
            words[at] = *bit;
            for length in &LENGTHS {
                have_bits(&rt, &words, *length, u64::from(at < *length));
            }
        }
        words[at] = 0;
    }
}

/// A number of words, and the bits of this many full words.
static FULL: [(usize, u64); 10] = [
    (0, 0),
    (1, 64),
    (7, 448),
    (8, 512),
    (9, 576),
    (64, 4096),
    (127, 8128),
    (128, 8192),
    (255, 16320),
    (256, 16384),
];

/// The words 1, 3, 7 and so on have 1, 2, 3 bits and so on: a number of words, and their bits.
static GROWING: [(usize, u64); 7] = [
    (1, 1),
    (7, 28),
    (8, 36),
    (9, 45),
    (64, 2080),
    (128, 2080),
    (256, 2080),
];

#[test]
fn counts_of_many_bits(rt: HostRuntime) {
    let full = [u64::MAX; 256];
    for (length, bits) in &FULL {
        have_bits(&rt, &full, *length, *bits);
    }
    let mut words = [0; 256];
    for at in 0..64 {
        words[at] = u64::MAX >> (63 - at);
    }
    for (length, bits) in &GROWING {
        have_bits(&rt, &words, *length, *bits);
    }
}
