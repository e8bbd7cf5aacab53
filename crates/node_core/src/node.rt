ghost use Rattle.std.specs.Prelude.{◌≡◌, ◌≤◌, ◌<◌, ◌+◌, length, map, slice_get, option_map, OnOk, OnErr, IfOk, Some, None, is_some};
ghost use Rattle.protocol.specs.Nodes.{refusal, acknowledged, found, greatest_in, greatest_time, pruned, added, keeps};
ghost use Rattle.protocol.specs.Instance.{setting};
ghost use Rattle.node_core.specs.Lent.{lent};
ghost use Rattle.node_core.specs.Seen.{SeenNode, versions_in, with_versions, new_node, reply_of, after_of, accepts_of};

use crate::kept::Kept;
use crate::lent::LentVersion;
use crate::past::NodePast;
use crate::prepared::Prepared;
use crate::undo::UndoRecord;
use lists::{Copied, ItemList, NoMemory};
use quorum_rules::Config;
use stamp_order::{Bound, Stamp};
use std::alloc::Global;
use std::marker::Model;
use wire_forms::{Ask, First, Reason, Reply, Request, Version};

/// Stamps, in the order in which their versions were accepted.
pub type Stamps = ItemList<Stamp>;

/// A node that doesn't lie. Contracts see its configuration, its number, and for each block the list of the versions that it
/// keeps, in order of acceptance, which begins with the first version.
#[derive(Drop)]
pub struct Node {
    config: Config,
    number: u8,
    first: Version,
    /// For each block what was accepted after the first version.
    blocks: Vec<Kept>,
}

impl Model for Node {
    ghost use Rattle.node_core.specs.Seen.{SeenNode, from_first, IsNode};

    ghost Value = { SeenNode };

    ghost view = { λ a. record { config = a.config; number = a.number; blocks = from_first a.first a.blocks.items } };

    ghost invariant = { λ a. IsNode a.config a.number a.first a.blocks.items };
}

impl Node {
    /// A node of this number, which keeps the first version of each block.
    pub fn new(alloc: Global, config: &Config, number: u8) -> Result<Node, NoMemory>
        requires { number < config.now.n }
        ensures { IfOk result (λ node. node ≡ new_node config.now number) }
    {
        let First {
            stamp,
            sum,
            fragment,
        } = First::of(alloc, config)?;
        let mut blocks = Vec::new(alloc);
        for _ in 0..config.blocks() {
            blocks.push(Kept::new(alloc))?;
        }
        Ok(Node {
            config: *config,
            number,
            first: Version {
                stamp,
                sum,
                fragment,
            },
            blocks,
        })
    }

    /// Answers an ask, and keeps the version that it accepts, if any.
    pub fn handle(&mut self, ask: &Ask) -> Result<Reply, NoMemory>
        ensures reply { IfOk result (λ reply. reply ≡ reply_of self.old ask.now) }
        ensures ok { OnOk result
            (self.new ≡ with_versions self.old ask.now.block (after_of self.old ask.now)) }
        ensures err { OnErr result (self.new ≡ self.old) }
    {
        let Prepared { reply, added } = self.prepare(ask)?;
        self.commit(ask, added)?;
        Ok(reply)
    }

    /// What the node would answer. Nothing changes.
    pub fn reply_to(&self, ask: &Ask) -> Result<Reply, NoMemory>
        ensures { IfOk result (λ reply. reply ≡ reply_of self.now ask.now) }
    {
        let Prepared {
            reply,
            added: _added,
        } = self.prepare(ask)?;
        Ok(reply)
    }

    /// What the node would answer and add. Nothing changes, and `commit` needs no digest any more.
    pub fn prepare(&self, ask: &Ask) -> Result<Prepared, NoMemory>
        ensures reply { IfOk result (λ p. p.reply ≡ reply_of self.now ask.now) }
        ensures added { IfOk result (λ p. p.added ≡ accepts_of self.now ask.now) }
    {
        if ask.block >= self.config.blocks() {
            return Ok(answers(Reply::Refused(Reason::BadBlock)));
        }
        match &ask.request {
            Request::Time => Ok(answers(Reply::TimeIs(self.greatest_time(ask.block)))),
            Request::Read(bound) => Ok(answers(self.found(ask.block, bound)?)),
            Request::Write(version) => self.weigh(ask.block, version),
        }
    }

    /// Adds what was prepared for the ask. It is the last step that takes memory.
    pub fn commit(&mut self, ask: &Ask, added: Option<Version>) -> Result<(), NoMemory>
        requires { added ≡ accepts_of self.old ask.now }
        ensures ok { OnOk result
            (self.new ≡ with_versions self.old ask.now.block (after_of self.old ask.now)) }
        ensures err { OnErr result (self.new ≡ self.old) }
    {
        let Some(version) = added else {
            return Ok(());
        };
        let kept = &mut self.blocks[ask.block as usize];
        kept.add(version)?;
        Ok(())
    }

    /// Adds a version that was prepared for the ask, as `commit` does. `undo` takes it back by the record.
    pub fn add_version(&mut self, ask: &Ask, version: Version) -> Result<UndoRecord, NoMemory>
        requires { Some version ≡ accepts_of self.old ask.now }
        ensures ok { OnOk result
            (self.new ≡ with_versions self.old ask.now.block (after_of self.old ask.now)) }
        ensures before { IfOk result (λ undo. undo.before ≡ self.old) }
        ensures after { IfOk result (λ undo. undo.after ≡ self.new) }
        ensures err { OnErr result (self.new ≡ self.old) }
    {
        let before = NodePast::of(self);
        let stamp = version.stamp;
        self.commit(ask, Some(version))?;
        Ok(UndoRecord {
            block: ask.block,
            stamp,
            before,
            after: NodePast::of(self),
        })
    }

    /// Takes back the version that the node added last. The node is again what it was before `add_version`, and must be what it was
    /// after it. It takes no memory.
    pub fn undo(&mut self, undo: UndoRecord)
        requires { self.old ≡ undo.after }
        ensures { self.new ≡ undo.before }
    {
        let UndoRecord { block, stamp, .. } = undo;
        self.blocks[block as usize].take_back(&stamp);
    }

    /// Whether the node would add a version in answer to the ask.
    pub fn adds(&self, ask: &Ask) -> bool
        ensures { result ≡ is_some (accepts_of self.now ask.now) }
    {
        match &ask.request {
            Request::Write(version) => {
                ask.block < self.config.blocks()
                    && self.refusal(version).is_none()
                    && !self.keeps(ask.block, &version.stamp)
            }
            Request::Time | Request::Read(_) => false,
        }
    }

    /// The cluster's numbers.
    pub fn config(&self) -> &Config
        ensures { result.now ≡ self.now.config }
    {
        &self.config
    }

    /// The node's number.
    pub fn number(&self) -> u8
        ensures { result ≡ self.now.number }
    {
        self.number
    }

    /// Whether the node keeps a version of this stamp.
    pub fn keeps(&self, block: u32, stamp: &Stamp) -> bool
        requires { block < self.now.config.blocks }
        ensures { result ≡ keeps (versions_in self.now block) stamp.now }
    {
        self.blocks[block as usize].has(stamp) || self.first.stamp.cmp(stamp).is_eq()
    }

    /// The stamps of the versions that the node keeps of a block, in order of acceptance.
    pub fn versions(&self, block: u32) -> Result<Stamps, NoMemory>
        requires { block < self.now.config.blocks }
        ensures { IfOk result (λ stamps. stamps ≡ map (λ v. v.stamp) (versions_in self.now block)) }
    {
        self.blocks[block as usize].stamps(&self.first.stamp)
    }

    /// The greatest time of the versions that the node keeps of a block.
    pub fn greatest_time(&self, block: u32) -> u64
        requires { block < self.now.config.blocks }
        ensures { result ≡ greatest_time (versions_in self.now block) }
    {
        self.blocks[block as usize].greatest_time()
    }

    /// Drops versions of a block: all but the first version, the version of greatest stamp up to the stamp, and those of
    /// greater stamps.
    pub fn prune(&mut self, block: u32, stamp: &Stamp)
        requires { block < self.old.config.blocks }
        ensures { self.new ≡ with_versions self.old block
            (pruned (setting self.old.config) stamp.now (versions_in self.old block)) }
    {
        self.blocks[block as usize].prune(stamp);
    }

    /// How many versions of a block the node keeps beside the first one.
    pub fn later_count(&self, block: u32) -> usize
        requires { block < self.now.config.blocks }
        ensures { result + 1 ≡ length (versions_in self.now block) }
    {
        self.blocks[block as usize].len()
    }

    /// The version of a block that was accepted as number k after the first one, counted from 0, lent.
    pub fn later_version(&self, block: u32, k: usize) -> Option<LentVersion<'_>>
        requires { block < self.now.config.blocks }
        ensures { option_map (λ v. lent v) result ≡ slice_get (versions_in self.now block) (k + 1) }
    {
        let (stamp, content) = self.blocks[block as usize].get(k)?;
        Some(content.lent(stamp))
    }

    /// Why a version is refused: its lengths, its time, its verifier, or its fragment's digest.
    fn refusal(&self, version: &Version) -> Option<Reason>
        ensures { result ≡ refusal (setting self.now.config) self.now.number version.now }
    {
        let n = self.config.n() as usize;
        let share = self.config.share() as usize;
        if version.sum.len() != n || version.fragment.len() != share {
            return Some(Reason::BadLength);
        }
        if version.stamp.time == 0 {
            return Some(Reason::TimeZero);
        }
        if version.stamp.verifier != version.sum.verifier() {
            return Some(Reason::BadVerifier);
        }
        if !version
            .sum
            .matches(usize::from(self.number), version.fragment.as_slice())
        {
            return Some(Reason::BadDigest);
        }
        None
    }

    /// The answer to a read.
    fn found(&self, block: u32, bound: &Bound) -> Result<Reply, NoMemory>
        requires { block < self.now.config.blocks }
        ensures { IfOk result
            (λ reply. reply ≡ found (greatest_in bound.now (versions_in self.now block))) }
    {
        match self.blocks[block as usize].greatest_in(bound) {
            Some((stamp, content)) => Ok(Reply::Found(content.version(stamp)?)),
            None if bound.has(&self.first.stamp) => Ok(Reply::Found(self.first.copy()?)),
            None => Ok(Reply::Nothing),
        }
    }

    /// The answer to a write, and what is added by it.
    fn weigh(&self, block: u32, version: &Version) -> Result<Prepared, NoMemory>
        requires { block < self.now.config.blocks }
        ensures reply { IfOk result (λ p. p.reply ≡ acknowledged
            (refusal (setting self.now.config) self.now.number version.now)) }
        ensures added { IfOk result (λ p. p.added ≡ added
            (refusal (setting self.now.config) self.now.number version.now)
            (versions_in self.now block) version.now) }
    {
        match self.refusal(version) {
            Some(reason) => Ok(answers(Reply::Refused(reason))),
            None if self.keeps(block, &version.stamp) => Ok(answers(Reply::Ack)),
            None => Ok(Prepared {
                reply: Reply::Ack,
                added: Some(version.copy()?),
            }),
        }
    }
}

/// An answer by which nothing is added.
fn answers(reply: Reply) -> Prepared
    ensures { result ≡ record { reply = reply; added = None } }
{
    Prepared { reply, added: None }
}
