//! What a node was at a moment, which only proofs read.

ghost use Rattle.std.specs.Prelude.{◌≡◌};
ghost use Rattle.std.specs.Borrow.{ftrue};
ghost use Rattle.node_core.specs.Past.{node_code};
ghost use Rattle.node_core.specs.Seen.{SeenNode};

use crate::node::Node;
use std::marker::Model;

/// What a node was at a moment. It is there for proofs alone: it takes no memory, and its call does nothing when it runs.
#[derive(Drop)]
pub struct NodePast {
    pub ghost state: { SeenNode } by { node_code },
}

impl Model for NodePast {
    ghost also_owns = { λ _. ftrue };
}

impl NodePast {
    /// What the node is now.
    pub(crate) fn of(_node: &Node) -> NodePast
        ensures { result.state ≡ _node.now }
    {
        NodePast {}
    }
}
