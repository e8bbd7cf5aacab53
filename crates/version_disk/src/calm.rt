//! A node on a disk that never fails. Its room is made as it is needed, so want of memory is all that refuses.

ghost use Rattle.std.specs.Prelude.{◌≡◌, ◌≤◌, ◌<◌, true, IfOk, OnOk, OnErr};
ghost use Rattle.protocol.specs.Nodes.{pruned};
ghost use Rattle.protocol.specs.Instance.{setting};
ghost use Rattle.node_core.specs.Seen.{versions_in, with_versions, new_node, after_of, accepts_of};
ghost use Rattle.version_disk.specs.Held.{held};
ghost use Rattle.version_disk.specs.Stored.{has_place};

use crate::stored::StoredNode;
use disk_model::CalmDisk;
use lists::{Copied, NoMemory};
use quorum_rules::Config;
use slot_disk::body::body_size;
use stamp_order::Stamp;
use std::alloc::Global;
use wire_forms::{Ask, Version};

impl StoredNode<CalmDisk> {
    /// A node of this number on an empty disk, which keeps the first version of each block.
    pub fn new(alloc: Global, config: &Config, number: u8) -> Result<StoredNode<CalmDisk>, NoMemory>
        requires { number < config.now.n }
        ensures { IfOk result (λ s. s.node ≡ new_node config.now number) }
    {
        open_calm(alloc, config, number, CalmDisk::new(alloc, 1)?)
    }

    /// The node, stopped, as it is opened again from a copy of its disk.
    pub fn opened_again(&self) -> Result<StoredNode<CalmDisk>, NoMemory>
        ensures { IfOk result (λ s. s.node ≡ self.now.node) }
    {
        open_calm(
            self.alloc,
            self.node.config(),
            self.node.number(),
            self.disk.copy()?,
        )
    }

    /// Makes room for one more slot and the byte after it.
    pub fn make_room(&mut self) -> Result<(), NoMemory>
        ensures place { OnOk result (has_place self.new.node self.new.disk.bytes self.new.disk.room
            ≡ true) }
        ensures node { self.new.node ≡ self.old.node }
        ensures bytes { self.new.disk.bytes ≡ self.old.disk.bytes }
    {
        let bytes = self.disk.bytes().len();
        let slot = body_size(self.node.config()) as usize + 1;
        self.disk.grow(bytes + (slot + 1))
    }

    /// The bytes of the disk, which hold the node's state.
    pub fn bytes(&self) -> &[u8]
        ensures bytes { result.now ≡ self.now.disk.bytes }
        ensures held { held self.now.node.config self.now.node.number result.now ≡ self.now.node }
    {
        self.disk.bytes()
    }

    /// Adds what was prepared for the ask, and makes the room that its slot needs.
    pub fn keep(&mut self, ask: &Ask, added: Option<Version>) -> Result<(), NoMemory>
        requires { added ≡ accepts_of self.old.node ask.now }
        ensures ok { OnOk result (self.new.node ≡ with_versions self.old.node ask.now.block
            (after_of self.old.node ask.now)) }
        ensures err { OnErr result (self.new.node ≡ self.old.node) }
        ensures bytes { OnErr result (self.new.disk.bytes ≡ self.old.disk.bytes) }
    {
        if added.is_some() {
            self.make_room()?;
        }
        match self.commit(ask, added) {
            Ok(()) => Ok(()),
            Err(_) => Err(NoMemory),
        }
    }

    /// Prunes a block by a stamp, and makes the room that the slot needs.
    pub fn keep_prune(&mut self, block: u32, stamp: &Stamp) -> Result<(), NoMemory>
        requires { block < self.old.node.config.blocks }
        ensures ok { OnOk result (self.new.node ≡ with_versions self.old.node block
            (pruned (setting self.old.node.config) stamp.now (versions_in self.old.node block))) }
        ensures err { OnErr result (self.new.node ≡ self.old.node) }
        ensures bytes { OnErr result (self.new.disk.bytes ≡ self.old.disk.bytes) }
    {
        self.make_room()?;
        match self.prune(block, stamp) {
            Ok(()) => Ok(()),
            Err(_) => Err(NoMemory),
        }
    }
}

/// Opens a disk that never fails and has no bad slot.
fn open_calm(
    alloc: Global,
    config: &Config,
    number: u8,
    disk: CalmDisk,
) -> Result<StoredNode<CalmDisk>, NoMemory>
    requires number { number < config.now.n }
    requires room { 1 ≤ disk.room }
    ensures { IfOk result (λ s. s.node ≡ held config.now number disk.bytes) }
{
    match StoredNode::open(alloc, config, number, disk) {
        Ok(stored) => Ok(stored),
        Err(_) => Err(NoMemory),
    }
}
