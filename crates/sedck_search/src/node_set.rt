//! Sets of nodes, one bit a node.

ghost use Rattle.std.specs.Prelude.{◌≡◌, ◌<◌, ◌≤◌, true, false, not, length, MatchOption};
ghost use Rattle.sedck_search.specs.Rows.{bit_count};
ghost use Rattle.sedck_search.specs.Private.NodeSet.{has, AreZeroBefore, AreZeroFrom, IsNodeSet, IsEmpty, HasChanged, HasNoneFrom, IsNext, IsUnion};

use crate::rows::{both, count_bits};
use std::marker::Model;

/// A set of nodes, one bit a node: those of 4,095 commands and the script's end, four each. It knows how many nodes it has, and between
/// which words they are: of a short script a few words are looked at, and of a long one as many as the set needs.
#[derive(Drop)]
pub(crate) struct NodeSet {
    words: [u64; 256],
    count: usize,
    /// The words before this one have no node: at most 256.
    first: usize,
    /// The words from this one on have no node: at most 256.
    end: usize,
}

impl Model for NodeSet {
    ghost use Rattle.std.specs.Prelude.{◌≡◌, ◌≤◌, ℕ, List};

    ghost Value = { List ℕ };

    ghost use Rattle.sedck_search.specs.Rows.{bit_count};
    ghost use Rattle.sedck_search.specs.Private.NodeSet.{IsNodeSet, AreZeroBefore, AreZeroFrom};

    ghost view = { λ a. a.words };

    ghost invariant = { λ a. IsNodeSet a.words × (a.count ≡ bit_count a.words) × (a.first ≤ 256) × AreZeroBefore a.words a.first
        × (a.end ≤ 256) × AreZeroFrom a.words a.end };
}

impl NodeSet {
    /// No node.
    pub(crate) fn new() -> NodeSet
        ensures nodes { IsEmpty result }
        ensures is_set { IsNodeSet result }
    {
        NodeSet {
            words: [0; 256],
            count: 0,
            first: 256,
            end: 0,
        }
    }

    /// Takes all nodes out.
    pub(crate) fn clear(&mut self)
        ensures nodes { IsEmpty self.new }
        ensures is_set { IsNodeSet self.new }
    {
        self.words = [0; 256];
        self.count = 0;
        self.first = 256;
        self.end = 0;
    }

    /// Whether the node is in the set.
    pub(crate) fn has(&self, node: usize) -> bool
        requires { node < 16384 }
        ensures value { result ≡ has self.now node }
        ensures is_set { IsNodeSet self.now }
    {
        let words = &self.words;
        (words[node / 64] >> (node % 64)) & 1 == 1
    }

    /// Puts the node into the set. It answers whether it wasn't there.
    pub(crate) fn insert(&mut self, node: usize) -> bool
        requires { node < 16384 }
        ensures new { result ≡ not (has self.old node) }
        ensures same { result ≡ false → self.new ≡ self.old }
        ensures changed { HasChanged self.old self.new node true }
        ensures is_set { IsNodeSet self.new }
    {
        if self.has(node) {
            return false;
        }
        self.words[node / 64] |= 1 << (node % 64);
        self.count += 1;
        self.first = self.first.min(node / 64);
        self.end = self.end.max(node / 64 + 1);
        true
    }

    /// Takes the node out of the set, which has it.
    pub(crate) fn remove(&mut self, node: usize)
        requires inside { node < 16384 }
        requires present { has self.old node ≡ true }
        ensures changed { HasChanged self.old self.new node false }
        ensures is_set { IsNodeSet self.new }
    {
        self.words[node / 64] &= !(1 << (node % 64));
        self.count -= 1;
    }

    /// The first node of the set from this one on.
    pub(crate) fn next_from(&self, from: usize) -> Option<usize>
        ensures { MatchOption result (HasNoneFrom self.now from) (λ next. IsNext self.now from next) }
    {
        if self.count == 0 {
            return None;
        }
        let words = &self.words;
        let first = from / 64;
        if first >= 256 {
            return None;
        }
        let word = words[first] & (u64::MAX << (from % 64));
        if word != 0 {
            return Some(64 * first + word.trailing_zeros() as usize);
        }
        for at in first + 1..256 {
            let word = words[at];
            if word != 0 {
                return Some(64 * at + word.trailing_zeros() as usize);
            }
        }
        None
    }

    /// Takes over the nodes of another set.
    pub(crate) fn copy_from(&mut self, other: &NodeSet)
        ensures same { self.new ≡ other.now }
        ensures is_set { IsNodeSet self.new }
    {
        let end = self.end.max(other.end);
        let start = self.first.min(other.first).min(end);
        self.words[start..end].copy_from_slice(&other.words[start..end]);
        self.count = other.count;
        self.first = other.first;
        self.end = other.end;
    }

    /// Puts the nodes of another set in.
    pub(crate) fn add_all(&mut self, other: &NodeSet)
        ensures nodes { IsUnion self.old other.now self.new }
        ensures is_set { IsNodeSet self.new }
    {
        let words = both(&self.words, &other.words);
        self.words = words;
        self.first = self.first.min(other.first);
        self.end = self.end.max(other.end);
        self.count = count_between(&words, self.first, self.end);
    }

    /// The number of nodes in the set.
    pub(crate) fn len(&self) -> usize
        ensures value { result ≡ bit_count self.now }
        ensures is_set { IsNodeSet self.now }
    {
        self.count
    }

    /// The same, counted anew.
    pub(crate) fn counted(&self) -> usize
        ensures value { result ≡ bit_count self.now }
        ensures is_set { IsNodeSet self.now }
    {
        count_between(&self.words, self.first, self.end)
    }
}

/// The number of bits that are set in the words, where none is set before the first one, nor from the end on.
fn count_between(words: &[u64; 256], first: usize, end: usize) -> usize
    requires { end ≤ 256 }
    ensures { AreZeroBefore words.now first → AreZeroFrom words.now end → result ≡ bit_count words.now }
{
    let start = first.min(end);
    count_bits(&words[start..end]) as usize
}
