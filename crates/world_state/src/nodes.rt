//! What takes place at nodes: messages are sent, asks are handled, nodes crash and prune.

ghost use Rattle.std.specs.Prelude.{◌≡◌, ℕ, ◌<◌, nat_lt, IfOk, OnOk, OnErr, ◌∷◌, ◌++◌};
ghost use Rattle.protocol.specs.World.{sent, answer_of, happens, only_place, greatest_given};
ghost use Rattle.protocol.specs.Lines.{is_busy_at};
ghost use Rattle.protocol.specs.Seen.{block_of};
ghost use Rattle.protocol.specs.World.Event.{CrashNode as NodeCrashes, Prune as Prunes};
ghost use Rattle.world_state.specs.Worlds.{setting_in, world_in, with_seen, node_in};
ghost use Rattle.protocol.specs.Count.{one_more};
ghost use Rattle.node_core.specs.Seen.{versions_in, with_versions, after_of, accepts_of};
ghost use Rattle.version_disk.specs.Held.{held};
ghost use Rattle.world_state.specs.Changes.{HasBecome, accepts_in, handles};
ghost use Rattle.world_state.specs.Acceptances.{told_of};

use crate::block_use::{BlockUse, UNUSED};
use crate::state::State;
use disk_model::CalmDisk;
use lists::{ItemList, NoMemory};
use node_core::Prepared;
use run_words::Accepted;
use version_disk::StoredNode;
use wire_forms::{Ask, Body, Mail, Message, Op, Version};

impl State {
    /// Sends messages.
    pub fn send(&mut self, place: u64, mut mail: Mail) -> Result<(), NoMemory>
        requires { self.now.seen.place < place }
        ensures ok { OnOk result (HasBecome self.old self.new
            (sent (setting_in self.old) (world_in self.old) place mail)) }
        ensures clients { OnOk result (self.new.seen.clients ≡ self.old.seen.clients) }
        ensures err { OnErr result (self.new ≡ self.old) }
    {
        self.pool.append(&mut mail)?;
        self.place = place;
        Ok(())
    }

    /// The node's answer to a message with this ask, and the version that the node adds by it, if any.
    pub fn answer(
        &self,
        node: u8,
        message: &Message,
        ask: &Ask,
    ) -> Result<(Message, Option<Version>), NoMemory>
        requires { node < self.now.config.n }
        ensures answer { IfOk result (λ r. r.0 ≡ answer_of (setting_in self.now)
            (world_in self.now) node message.now ask.now) }
        ensures added { IfOk result
            (λ r. r.1 ≡ accepts_in (setting_in self.now) (world_in self.now) node ask.now) }
    {
        let slot = &self.node_slots[usize::from(node)];
        let Prepared { reply, added } = slot.stored.prepare(ask)?;
        let answer = Message {
            client: message.client,
            node,
            tag: message.tag,
            body: Body::Answer(reply),
        };
        Ok((answer, added))
    }

    /// Lets the node add what it prepared for the ask, and sends a message and others behind it.
    pub fn give(
        &mut self,
        place: u64,
        node: u8,
        ask: &Ask,
        added: Option<Version>,
        message: Message,
        others: Mail,
    ) -> Result<(), NoMemory>
        requires later { self.now.seen.place < place }
        requires node { node < self.now.config.n }
        requires added { added ≡ accepts_in (setting_in self.now) (world_in self.now) node ask.now }
        ensures ok { OnOk result (HasBecome self.old self.new (handles (setting_in self.old)
            (world_in self.old) place node ask.now (message ∷ others))) }
        ensures clients { OnOk result (self.new.seen.clients ≡ self.old.seen.clients) }
        ensures err { OnErr result (self.new ≡ self.old) }
    {
        let sent = self.pool.len();
        send_all(&mut self.pool, message, others)?;
        let slot = &mut self.node_slots[usize::from(node)];
        match keep(&mut slot.stored, node, ask, added, &mut self.accepted) {
            Ok(()) => {
                self.place = place;
                Ok(())
            }
            Err(want) => {
                self.pool.truncate(sent);
                Err(want)
            }
        }
    }

    /// Nothing takes place.
    pub fn pass(&mut self, place: u64)
        requires { self.now.seen.place < place }
        ensures { self.new ≡ with_seen self.old (record self.old.seen { place = place }) }
    {
        self.place = place;
    }

    /// A node crashes.
    pub fn crash_node(&mut self, place: u64, node: u8)
        requires later { self.now.seen.place < place }
        requires node { node < self.now.config.n }
        ensures { HasBecome self.old self.new (happens (setting_in self.old)
            (world_in self.old) place (NodeCrashes node)) }
    {
        let slot = &mut self.node_slots[usize::from(node)];
        slot.crashed = true;
        self.place = place;
    }

    /// What a prune of the block goes by.
    pub(crate) fn block_use(&self, block: u32) -> BlockUse
        ensures at_work { nat_lt 0 result.at_work ≡ is_busy_at (setting_in self.now)
            (world_in self.now) block }
        ensures given { result.given ≡ greatest_given block self.now.seen.records }
    {
        match self.uses.get(block as usize) {
            Some(block_use) => *block_use,
            None => UNUSED,
        }
    }

    /// A node prunes a block by the greatest stamp that a completed read of it gave.
    pub fn prune(&mut self, place: u64, node: u8, block: u32) -> Result<(), NoMemory>
        requires later { self.now.seen.place < place }
        requires node { node < self.now.config.n }
        requires block { block < self.now.config.blocks }
        ensures ok { OnOk result (HasBecome self.old self.new (happens (setting_in self.old)
            (world_in self.old) place (Prunes node block))) }
        ensures err { OnErr result (self.new ≡ self.old) }
    {
        let Some(stamp) = self.greatest_given(block) else {
            self.pass(place);
            return Ok(());
        };
        let slot = &mut self.node_slots[usize::from(node)];
        slot.stored.keep_prune(block, &stamp)?;
        self.place = place;
        Ok(())
    }

    /// A node is stopped, and opened again from a copy of its disk.
    pub fn restart(&mut self, place: u64, node: u8) -> Result<(), NoMemory>
        requires later { self.now.seen.place < place }
        requires node { node < self.now.config.n }
        ensures ok { OnOk result (HasBecome self.old self.new
            (only_place (setting_in self.old) (world_in self.old) place)) }
        ensures err { OnErr result (self.new ≡ self.old) }
    {
        let slot = &mut self.node_slots[usize::from(node)];
        let again = slot.stored.opened_again()?;
        slot.stored = again;
        self.place = place;
        Ok(())
    }

    /// The bytes of a node's disk, which hold the node's state.
    pub fn stored(&self, node: u8) -> &[u8]
        requires { node < self.now.config.n }
        ensures state { held self.now.config node result.now ≡ node_in self.now node }
        ensures versions { (block : ℕ) → block < self.now.config.blocks
            → versions_in (held self.now.config node result.now) block ≡
            (world_in self.now).versions node block }
    {
        self.node_slots[usize::from(node)].stored.bytes()
    }
}

/// Adds the message and the others behind it to the pool, or nothing.
fn send_all(
    pool: &mut ItemList<Message>,
    message: Message,
    mut others: Mail,
) -> Result<(), NoMemory>
    ensures ok { OnOk result (pool.new ≡ pool.old ++ message ∷ others) }
    ensures err { OnErr result (pool.new ≡ pool.old) }
{
    let len = pool.len();
    pool.push(message)?;
    let sent = pool.append(&mut others);
    if sent.is_err() {
        pool.truncate(len);
    }
    sent
}

/// Lets the node of this number add what it prepared for the ask, and tells the version, if any.
fn keep(
    node: &mut StoredNode<CalmDisk>,
    number: u8,
    ask: &Ask,
    added: Option<Version>,
    accepted: &mut ItemList<Accepted>,
) -> Result<(), NoMemory>
    requires { added ≡ accepts_of node.old.node ask.now }
    ensures node { OnOk result (node.new.node ≡ with_versions node.old.node ask.now.block
        (after_of node.old.node ask.now)) }
    ensures told { OnOk result (accepted.new ≡ one_more accepted.old
        (told_of number ask.now.block (accepts_of node.old.node ask.now))) }
    ensures node_kept { OnErr result (node.new.node ≡ node.old.node) }
    ensures told_kept { OnErr result (accepted.new ≡ accepted.old) }
{
    let Some(version) = &added else {
        return node.keep(ask, added);
    };
    accepted.push(Accepted {
        node: number,
        block: ask.block,
        stamp: version.stamp,
    })?;
    let kept = node.keep(ask, added);
    if kept.is_err() {
        let _ = accepted.pop();
    }
    kept
}

/// The block that the operation is on.
pub(crate) fn block_of(op: &Op) -> u32
    ensures { result ≡ block_of op.now }
{
    match op {
        Op::Read { block } | Op::Write { block, .. } => *block,
    }
}
