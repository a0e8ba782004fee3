//! Bracket lists.

mod elements;
mod lists;
mod sets;
mod symbols;

pub(crate) use lists::read_bracket_list;
