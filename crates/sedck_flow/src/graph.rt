//! The nodes and edges of a script's flow graph.

ghost use Rattle.std.specs.Prelude.{◌≡◌, ◌<◌};
ghost use Rattle.sedck_flow.specs.Nodes.{node_count as count_of_nodes};

/// The place of a command, or of the script's end, with the substitution flag, and with whether the last line has
/// been read. Nodes are ordered by place, then flag, then last line: what is reset, or still to come, comes first.
#[derive(Clone, Copy, PartialEq, Eq, PartialOrd, Ord)]
pub struct Node {
    pub at: u16,
    pub flag: bool,
    /// No line is left to read.
    pub last: bool,
}

impl Node {
    ghost use Rattle.std.specs.Prelude.{◌≡◌, ◌<◌};
    ghost use Rattle.sedck_flow.specs.Nodes.{start as start_of, moved_to, next as next_of, with_flag as flagged, with_last as on_line, node_index};

    /// Where a cycle begins: the first command, with the flag reset, on the last line or before it.
    pub fn start(last: bool) -> Node
        ensures { result ≡ start_of last }
    {
        Node {
            at: 0,
            flag: false,
            last,
        }
    }

    /// The node with this index in the order of nodes.
    pub fn nth(index: usize) -> Node
        requires { index < 262144 }
        ensures { node_index result ≡ index }
    {
        Node {
            at: (index / 4) as u16,
            flag: index / 2 % 2 == 1,
            last: index % 2 == 1,
        }
    }

    /// How many nodes are before this one.
    pub fn index(self) -> usize
        ensures { result ≡ node_index self }
    {
        4 * usize::from(self.at) + 2 * usize::from(self.flag) + usize::from(self.last)
    }

    /// The node at another command, or at the script's end, with all else as it is.
    pub fn to(self, target: usize) -> Node
        requires { target < 65536 }
        ensures { result ≡ moved_to self target }
    {
        Node {
            at: target as u16,
            flag: self.flag,
            last: self.last,
        }
    }

    /// The node at the next command, with all else as it is.
    pub fn next(self) -> Node
        requires { self.at < 65535 }
        ensures { result ≡ next_of self }
    {
        self.to(usize::from(self.at) + 1)
    }

    /// The node with this flag, and all else as it is.
    pub fn with_flag(self, flag: bool) -> Node
        ensures { result ≡ flagged self flag }
    {
        Node {
            at: self.at,
            flag,
            last: self.last,
        }
    }

    /// The node where the last line has been read, or not, with all else as it is.
    pub fn with_last(self, last: bool) -> Node
        ensures { result ≡ on_line self last }
    {
        let mut node = self;
        node.last = last;
        node
    }
}

/// How many nodes a script with this many commands has.
pub fn node_count(commands: usize) -> usize
    requires { commands < 65536 }
    ensures { result ≡ count_of_nodes commands }
{
    4 * (commands + 1)
}

/// What a step along an edge does to the unread lines and to the pattern space.
#[derive(Clone, Copy, PartialEq, Eq, PartialOrd, Ord)]
pub enum Kind {
    /// A line is read.
    Consume,
    /// The pattern space gets shorter.
    Shorten,
    /// The pattern space doesn't get longer.
    Keep,
    /// The pattern space may get longer.
    Grow,
}

/// A step from one node to another. Edges are ordered by the node that is left, then the node that is reached, then
/// the kind.
#[derive(Clone, Copy, PartialEq, Eq, PartialOrd, Ord)]
pub struct Edge {
    pub from: Node,
    pub to: Node,
    pub kind: Kind,
}
