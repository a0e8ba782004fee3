//! Nodes and edges in words.

ghost use Rattle.std.specs.Prelude.{Some};
ghost use Rattle.sedck_flow.specs.Words.{node_words, kind_text, edge_words};

use crate::graph::{Edge, Kind, Node};
use std::fmt;

impl fmt::Display for Node {
    ghost output = { λ node. Some (node_words node) };

    fn fmt<W: fmt::Write>(&self, f: &mut fmt::Formatter<W>) -> fmt::Result {
        let flag = if self.flag { "1" } else { "0" };
        let last = if self.last { "1" } else { "0" };
        write!(f, "{} {flag} {last}", self.at)
    }
}

impl fmt::Display for Kind {
    ghost output = { λ kind. Some (kind_text kind) };

    fn fmt<W: fmt::Write>(&self, f: &mut fmt::Formatter<W>) -> fmt::Result {
        match self {
            Kind::Consume => f.write_str("consume"),
            Kind::Shorten => f.write_str("shorten"),
            Kind::Keep => f.write_str("keep"),
            Kind::Grow => f.write_str("grow"),
        }
    }
}

impl fmt::Display for Edge {
    ghost output = { λ edge. Some (edge_words edge) };

    fn fmt<W: fmt::Write>(&self, f: &mut fmt::Formatter<W>) -> fmt::Result {
        write!(f, "{} {} {}", self.from, self.to, self.kind)
    }
}
