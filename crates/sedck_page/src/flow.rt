//! The part of a script's flow graph that its runs may reach.

use sedck_answer::{Answer, Explanation};
use sedck_flow::{Edge, Node, edges_of};
use sedck_search::reachability;
use std::alloc::{AllocError, Global};

/// The nodes that a start reaches, and the edges between them.
#[derive(Drop)]
pub(crate) struct Flow {
    /// In order.
    pub nodes: Vec<Node>,
    /// Those that leave the nodes, in order.
    pub edges: Vec<Edge>,
    /// Those of the loop that was found, sorted.
    pub bold: Vec<Edge>,
}

/// What the two starts reach; nothing where the script is refused. The time is linear in the number of nodes.
pub(crate) fn flow_of(alloc: Global, explanation: &Explanation) -> Result<Flow, AllocError> {
    let mut flow = Flow {
        nodes: Vec::new(alloc),
        edges: Vec::new(alloc),
        bold: loop_edges(alloc, &explanation.answer)?,
    };
    let Some(script) = &explanation.script else {
        return Ok(flow);
    };
    let marks = reachability(alloc, script)?;
    for (index, mark) in marks.iter().enumerate() {
        if *mark {
            let node = Node::nth(index);
            flow.nodes.push(node)?;
            for edge in edges_of(script, node) {
                flow.edges.push(edge)?;
            }
        }
    }
    Ok(flow)
}

/// The edges of the loop that was found, sorted; none for any other answer.
fn loop_edges(alloc: Global, answer: &Answer) -> Result<Vec<Edge>, AllocError> {
    let mut edges = Vec::new(alloc);
    let Answer::Endless(walk) = answer else {
        return Ok(edges);
    };
    let ends = walk.nodes.iter().zip(walk.nodes.iter().skip(1));
    for ((from, to), kind) in ends.zip(&walk.kinds) {
        edges.push(Edge {
            from: *from,
            to: *to,
            kind: *kind,
        })?;
    }
    edges.sort()?;
    Ok(edges)
}
