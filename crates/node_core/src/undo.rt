//! What a node needs to take back a version that it has just added.

use crate::past::NodePast;
use stamp_order::Stamp;
use std::marker::Model;

/// The undo record of a version that a node added. `Node::add_version` makes it, and `Node::undo` takes it. Contracts see the node
/// before the version was added, and after.
#[derive(Drop)]
pub struct UndoRecord {
    pub(crate) block: u32,
    pub(crate) stamp: Stamp,
    pub(crate) before: NodePast,
    pub(crate) after: NodePast,
}

impl Model for UndoRecord {
    ghost use Rattle.node_core.specs.Past.{Addition, IsUndone};

    ghost Value = { Addition };

    ghost view = { λ u. record { before = u.before.state; after = u.after.state } };

    ghost invariant = { λ u. IsUndone u.before.state u.after.state u.block u.stamp };
}
