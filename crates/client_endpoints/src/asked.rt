//! What clients ask of a node.
ghost use Rattle.client_endpoints.specs.Mail.{IsAskAt};

use event_clock::{Clock, Note};
use inboxes::InboxItem;
use journals::Way;
use lists::ItemList;
use locked_nodes::CellShard;
use std::snapshot::Snapshot;
use wire_forms::Message;

/// Where the asks to one cell of a node lie: by which clock, in which shard the cell is, and the clients by their seats.
#[derive(Drop)]
pub struct NodePlace {
    pub clock: Snapshot<Clock>,
    pub cell_shard: CellShard,
    pub clients: Snapshot<ItemList<u32>>,
}

/// An ask on its way to a node.
#[derive(Drop)]
pub struct Asked {
    /// The seat of the client that asks, to which the answer goes.
    pub seat: u32,
    pub way: Way,
    pub ask: Message,
    /// What the client's pass has seen.
    pub note: Note,
}

impl InboxItem for Asked {
    type Place = NodePlace;

    ghost fits = { IsAskAt };
}
