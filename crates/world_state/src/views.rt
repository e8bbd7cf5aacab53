//! What there is at the moment, for those who look at it.

ghost use Rattle.std.specs.Prelude.{◌≡◌, map, slice_get, option_copied};
ghost use Rattle.protocol.specs.Setting.{first_stamp};
ghost use Rattle.protocol.specs.World.{greatest_given};
ghost use Rattle.protocol.specs.Lines.{does_something, is_busy_at};
ghost use Rattle.protocol.specs.Seen.{record_of, accepted_of};
ghost use Rattle.world_state.specs.Worlds.{setting_in, world_in};

use crate::state::State;
use lists::ItemList;
use quorum_rules::Config;
use run_words::{Accepted, Record};
use stamp_order::Stamp;
use std::alloc::Global;
use wire_forms::Message;

impl State {
    /// Where memory is taken.
    pub fn allocator(&self) -> Global {
        self.alloc
    }

    /// The cluster.
    pub fn config(&self) -> &Config
        ensures { result.now ≡ self.now.config }
    {
        &self.config
    }

    /// Every message that was ever sent, in order.
    pub fn pool(&self) -> &[Message]
        ensures { result.now ≡ self.now.seen.pool }
    {
        self.pool.as_slice()
    }

    /// The message of this number among them, if there is one.
    pub fn message(&self, number: u64) -> Option<&Message>
        ensures { option_copied result ≡ slice_get self.now.seen.pool number }
    {
        self.pool.get(number as usize)
    }

    /// The operations of correct clients, in order of start.
    pub fn records(&self) -> &[Record]
        ensures { map record_of result.now ≡ self.now.seen.records }
    {
        self.records.as_slice()
    }

    /// The operations of correct clients alone, in order of start: all else is given up.
    pub fn into_records(self) -> ItemList<Record>
        ensures { map record_of result ≡ self.seen.records }
    {
        let State { records, .. } = self;
        records
    }

    /// The versions that nodes accepted, in order of acceptance, first versions aside.
    pub fn accepted(&self) -> &[Accepted]
        ensures { map accepted_of result.now ≡ self.now.seen.accepted }
    {
        self.accepted.as_slice()
    }

    /// The place of the last line that took place, 0 at first.
    pub fn place(&self) -> u64
        ensures { result ≡ self.now.seen.place }
    {
        self.place
    }

    /// The stamp that each block has from the beginning.
    pub fn first_stamp(&self) -> &Stamp
        ensures { result.now ≡ first_stamp (setting_in self.now) }
    {
        &self.first.stamp
    }

    /// Whether the node is declared lying.
    pub fn is_lying_node(&self, node: u8) -> bool
        ensures { result ≡ (setting_in self.now).lying_node node }
    {
        match self.node_slots.get(usize::from(node)) {
            Some(slot) => slot.lying,
            None => false,
        }
    }

    /// Whether the client is declared lying.
    pub fn is_lying_client(&self, client: u32) -> bool
        ensures { result ≡ (setting_in self.now).lying_client client }
    {
        match self.client_slots.get(client as usize) {
            Some(slot) => slot.lying,
            None => false,
        }
    }

    /// Whether the node has crashed.
    pub fn is_crashed_node(&self, node: u8) -> bool
        ensures { result ≡ (world_in self.now).node_crashed node }
    {
        match self.node_slots.get(usize::from(node)) {
            Some(slot) => slot.crashed,
            None => false,
        }
    }

    /// Whether the client has crashed and hasn't come back.
    pub fn is_crashed_client(&self, client: u32) -> bool
        ensures { result ≡ (world_in self.now).client_crashed client }
    {
        match self.client_slots.get(client as usize) {
            Some(slot) => slot.crashed,
            None => false,
        }
    }

    /// Whether the client has an operation under way.
    pub fn has_task(&self, client: u32) -> bool
        ensures { result ≡ does_something ((world_in self.now).task client) }
    {
        match self.client_slots.get(client as usize) {
            Some(slot) => !slot.client.is_idle(),
            None => false,
        }
    }

    /// How many operations the client has started in its present life.
    pub fn started(&self, client: u32) -> u32
        ensures { result ≡ (world_in self.now).started client }
    {
        match self.client_slots.get(client as usize) {
            Some(slot) => slot.client.started(),
            None => 0,
        }
    }

    /// How often the client has come back.
    pub fn life(&self, client: u32) -> u32
        ensures { result ≡ (world_in self.now).life client }
    {
        match self.client_slots.get(client as usize) {
            Some(slot) => slot.client.life(),
            None => 0,
        }
    }

    /// Whether a client that hasn't crashed has an operation on the block under way.
    pub fn is_busy_at(&self, block: u32) -> bool
        ensures { result ≡ is_busy_at (setting_in self.now) (world_in self.now) block }
    {
        0 < self.block_use(block).at_work
    }

    /// The greatest stamp that a completed read of the block gave.
    pub fn greatest_given(&self, block: u32) -> Option<Stamp>
        ensures { result ≡ greatest_given block self.now.seen.records }
    {
        self.block_use(block).given
    }
}
