//! Expressions: the members of sets, and the groups that are items.
mod groups;
mod members;
