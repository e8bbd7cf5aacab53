//! Journals as they are written, entry by entry.

use journals::{
    DeskAct, DeskEntry, DeskJournal, DeskJournals, NodeAct, NodeEntry, NodeJournal, NodeJournals,
    Way,
};
use lists::{Copied, ItemList, NoMemory};
use std::alloc::Global;
use wire_forms::Message;

/// The journals of nodes and clients so far.
#[derive(Drop)]
pub struct Sheet {
    nodes: Vec<NodeJournal>,
    desks: Vec<DeskJournal>,
}

impl Sheet {
    /// Empty journals of so many nodes and of these clients.
    pub fn new(alloc: Global, nodes: u32, clients: &[u32]) -> Result<Sheet, NoMemory> {
        let mut sheet = Sheet {
            nodes: Vec::new(alloc),
            desks: Vec::new(alloc),
        };
        for _ in 0..nodes {
            sheet.nodes.push(ItemList::new(alloc))?;
        }
        for client in clients {
            sheet.desks.push(DeskJournal {
                client: *client,
                entries: ItemList::new(alloc),
            })?;
        }
        Ok(sheet)
    }

    /// Adds what a node did. A node that isn't there does nothing.
    pub fn node(&mut self, node: u8, number: u64, act: NodeAct) -> Result<(), NoMemory> {
        match self.nodes.get_mut(usize::from(node)) {
            Some(journal) => journal.push(NodeEntry { number, act }),
            None => Ok(()),
        }
    }

    /// Adds what a client did. A client that isn't there does nothing.
    pub fn desk(&mut self, client: u32, number: u64, act: DeskAct) -> Result<(), NoMemory> {
        for desk in self.desks.iter_mut() {
            if desk.client == client {
                return desk.entries.push(DeskEntry { number, act });
            }
        }
        Ok(())
    }

    /// Adds what a node did with an ask, and the client's side of it.
    pub fn pair(
        &mut self,
        number: u64,
        way: Way,
        ask: &Message,
        act: NodeAct,
    ) -> Result<(), NoMemory> {
        let call = DeskAct::Call {
            way,
            ask: ask.copy()?,
            reply: reply_in(&act)?,
        };
        self.desk(ask.client, number, call)?;
        self.node(ask.node, number, act)
    }

    /// The journals of the nodes and of the clients.
    pub fn lists(self) -> (NodeJournals, DeskJournals) {
        let Sheet { nodes, desks } = self;
        (ItemList::from_vec(nodes), ItemList::from_vec(desks))
    }
}

// What the caller heard of it.
fn reply_in(act: &NodeAct) -> Result<Option<Message>, NoMemory> {
    match act {
        NodeAct::Answered { reply, .. } | NodeAct::Lied { reply, .. } => Ok(Some(reply.copy()?)),
        _ => Ok(None),
    }
}
