//! Expressions as trees.

/// A set of bytes: byte b is bit b mod 64 of word b / 64.
#[derive(Clone, Copy, PartialEq, Eq)]
pub struct ByteSet(pub [u64; 4]);

/// A basic regular expression as a tree.
#[derive(Drop)]
pub enum Bre {
    Byte(u8),
    Any,
    Set(ByteSet),
    Start,
    End,
    Maybe(u8),
    Group(u8, Box<Bre>),
    Ref(u8),
    Seq(Vec<Bre>),
    Repeat {
        body: Box<Bre>,
        least: u8,
        most: Option<u8>,
    },
}
