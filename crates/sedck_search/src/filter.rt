//! Which edges are followed.

ghost use Rattle.std.specs.Prelude.{◌↔◌, IsTrue};
ghost use Rattle.sedck_search.specs.Private.Reaching.{IsFollowed};

use crate::edge_table::EdgeTable;
use sedck_flow::Kind;
use sedck_script::Script;

/// Which edges are followed from node to node.
#[derive(Clone, Copy, PartialEq, Eq)]
pub(crate) enum EdgeFilter {
    /// Those of every kind.
    Every,
    /// Those on which no line is read.
    Unread,
    /// Those on which the pattern space is kept.
    Kept,
}

impl EdgeFilter {
    /// Whether edges of the kind are followed.
    pub(crate) fn follows(self, kind: Kind) -> bool
        ensures { IsTrue result ↔ IsFollowed self kind }
    {
        match self {
            EdgeFilter::Every => true,
            EdgeFilter::Unread => kind != Kind::Consume,
            EdgeFilter::Kept => kind == Kind::Keep,
        }
    }
}

/// The flow graph of a script, a table of its edges, and which of them are followed.
#[derive(Clone, Copy)]
pub(crate) struct Graph<'a> {
    pub(crate) script: &'a Script<'a>,
    pub(crate) table: &'a EdgeTable,
    pub(crate) filter: EdgeFilter,
}
