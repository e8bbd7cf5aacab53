ghost use Rattle.std.specs.Prelude.{◌≡◌, ◌≤◌, ◌<◌, ◌+◌, ◌-◌, ◌*◌, ◌^◌, ◌↔◌, true, false, is_some, nat_lt, min, All, length, map, [], Some, None, IfOk, IfErr, OnOk, IsErrOf};
ghost use Rattle.outside_io.specs.Causes.{Rose};
ghost use Rattle.disk_model.specs.Crash.{settled, LeavesOnly};
ghost use Rattle.protocol.specs.Nodes.{greatest_time, pruned};
ghost use Rattle.protocol.specs.Instance.{setting};
ghost use Rattle.node_core.specs.Seen.{versions_in, with_versions, reply_of, after_of, accepts_of};
ghost use Rattle.version_disk.specs.Held.{held, slots_of, first_bad};
ghost use Rattle.version_disk.specs.Reopened.{IsStillThere};
ghost use Rattle.version_disk.specs.Deeds.{IsDone, IsDoneOrNot, slots_by, answering, after_asks, replies_of, slots_by_all, pruning, after_prunes, slots_by_prunes, AreDone, AreDoneInPart};
ghost use Rattle.version_disk.specs.Deeds.Deed.{Answers, Prunes};

use crate::add::{add_prune, add_version, has_place};
use crate::batch::add_all;
use crate::compact::{compacted_size, kept_count, write_journal};
use crate::compact_fault::{CompactFault, CompactRefusal};
use crate::fault::OpenFault;
use crate::prune::{Prune, prune_all};
use crate::refusal::StoreRefusal;
use crate::start::start;
use disk_model::Disk;
use lists::{ItemList, NoMemory};
use node_core::{Node, Prepared, Stamps};
use quorum_rules::Config;
use slot_disk::body::body_size;
use stamp_order::Stamp;
use std::alloc::Global;
use std::marker::Model;
use std::mem::replace;
use wire_forms::{Ask, Reply, Version};

/// Answers, in the order of the asks.
pub type Replies = ItemList<Reply>;

/// A node that keeps its versions and its prunes on a disk. Contracts see the node, its disk, and whether a fault of the disk
/// has broken it.
#[derive(Drop)]
pub struct StoredNode<D: Disk> {
    pub(crate) alloc: Global,
    pub(crate) node: Node,
    pub(crate) disk: D,
    /// How many slots are open.
    count: u64,
    broken: bool,
}

impl<D: Disk> Model for StoredNode<D> {
    ghost use Rattle.std.specs.Prelude.{◌≡◌, ◌<◌, true, false};
    ghost use Rattle.outside_io.specs.Causes.{Rose};
    ghost use Rattle.version_disk.specs.Stored.{Stored};
    ghost use Rattle.version_disk.specs.Kept.{IsKept};

    ghost Value = { Stored D };

    ghost view = { λ s. record { node = s.node; disk = s.disk; broken = s.broken } };

    ghost invariant = { λ s.
        (s.broken ≡ false
        → IsKept D.pending D.seen s.node.config s.node.number s.node s.count s.disk)
        × (s.broken ≡ true → Rose D.last 0 (D.faults s.disk))
        × (s.node.number < s.node.config.n) };
}

/// How many bytes a node's journal has, that is its slots and the closed gate behind them, and how many the shortest one of the node
/// would have. Where they are more than a word has, it is the greatest word.
#[derive(Clone, Copy, Debug, PartialEq, Eq)]
pub struct JournalLen {
    pub now: u64,
    pub compacted: u64,
}

/// Why a disk was not opened. The disk is given back.
#[derive(Drop)]
pub enum OpenRefusal<D> {
    /// No memory was found for the disk's bytes, or for the versions that they hold.
    NoMemory(D),
    /// A call of the disk failed.
    DiskFault(D),
    /// This slot, counted from 0, is the first that no node of the number writes in the cluster.
    Damaged { slot: u64, disk: D },
}

impl<D: Disk> StoredNode<D> {
    ghost use Rattle.version_disk.specs.Opened.{IfSlotOf, IfFaultOf, disk_of};
    ghost use Rattle.version_disk.specs.Stored.{adds, has_place, has_places, has_room};
    ghost use Rattle.version_disk.specs.Refusals.{IfCalm, IfFailed};
    ghost use Rattle.version_disk.specs.Compacted.{kept_slots, compacted_len, slots_len, IsJournalOf};
    ghost use Rattle.slot_disk.specs.Bodies.{IsClosedAt};
    ghost use Rattle.slot_disk.specs.Slots.{body_len};
    ghost use Rattle.version_disk.specs.CompactFaults.{IfDiskFailed, given_back};

    /// Opens a disk that may be empty, or that a crash may have left. It begins with a sync, and closes the gate behind the
    /// slots where a crash left it open.
    #[tactic(auto, using(crate::proofs::lemmas::Playing::held_config))]
    pub fn open(
        alloc: Global,
        config: &Config,
        number: u8,
        disk: D,
    ) -> Result<StoredNode<D>, OpenRefusal<D>>
        requires number { number < config.now.n }
        requires room { 1 ≤ D.most disk }
        // the node has the state that the disk held, and the disk holds it still, safe from a crash
        ensures state { IfOk result (λ s. s.node ≡ held config.now number (D.seen disk)) }
        ensures slots { IfOk result (λ s. slots_of config.now (D.seen s.disk)
            ≡ slots_of config.now (D.seen disk)) }
        ensures held { IfOk result (λ s. held config.now number (D.seen s.disk) ≡ s.node) }
        ensures durable { IfOk result (λ s. D.pending s.disk ≡ settled (D.seen s.disk)) }
        ensures whole { IfOk result (λ s. s.broken ≡ false) }
        ensures config { IfOk result (λ s. s.node.config ≡ config.now) }
        ensures number { IfOk result (λ s. s.node.number ≡ number) }
        // where the disk doesn't fail and memory is found, Damaged tells the first bad slot, and comes exactly where there is one
        ensures good { OnOk result (first_bad config.now number (D.seen disk) ≡ None) }
        ensures damaged { IfErr result
            (IfSlotOf (λ slot. first_bad config.now number (D.seen disk) ≡ Some slot)) }
        ensures any_moment { LeavesOnly D.moment D.left_since disk (disk_of result)
            (IsStillThere config.now (D.pending disk) (D.seen disk)) }
        ensures room { D.most (disk_of result) ≡ D.most disk }
        ensures later { D.faults disk ≤ D.faults (disk_of result) }
        ensures cause { IfErr result
            (IfFaultOf (Rose D.last (D.faults disk) (D.faults (disk_of result)))) }
    {
        let mut disk = disk;
        match start(alloc, config, number, &mut disk) {
            Ok((node, count)) => Ok(StoredNode {
                alloc,
                node,
                disk,
                count,
                broken: false,
            }),
            Err(OpenFault::NoMemory) => Err(OpenRefusal::NoMemory(disk)),
            Err(OpenFault::DiskFault) => Err(OpenRefusal::DiskFault(disk)),
            Err(OpenFault::Damaged { slot }) => Err(OpenRefusal::Damaged { slot, disk }),
        }
    }

    /// Answers an ask. A version that is added is written as a slot, and safe at the return; where none is added, the disk is not
    /// touched. Memory is taken before the disk is written.
    pub fn handle(&mut self, ask: &Ask) -> Result<Reply, StoreRefusal>
        ensures reply { IfOk result (λ reply. reply ≡ reply_of self.old.node ask.now) }
        ensures state { OnOk result (self.new.node ≡ with_versions self.old.node ask.now.block
            (after_of self.old.node ask.now)) }
        ensures done { OnOk result (IsDone self.old.node.config self.old.node.number self.old.node
            (Answers ask.now) (D.seen self.old.disk) (D.seen self.new.disk)) }
        ensures untouched { OnOk result
            (slots_by self.old.node (Answers ask.now) ≡ [] → self.new.disk ≡ self.old.disk) }
        ensures durable { OnOk result (D.pending self.new.disk ≡ settled (D.seen self.new.disk)) }
        ensures broken { IsErrOf result StoreRefusal.Broken ↔ (self.old.broken ≡ true) }
        ensures full { IsErrOf result StoreRefusal.Full
            ↔ ((self.old.broken ≡ false) × (adds self.old.node ask.now ≡ true)
            × (has_place self.old.node (D.seen self.old.disk) (D.most self.old.disk) ≡ false)) }
        ensures calm { IfErr result (IfCalm (self.new ≡ self.old)) }
        ensures breaks { IfErr result (IfFailed (self.new.broken ≡ true)) }
        ensures whole { OnOk result (self.new.broken ≡ false) }
        ensures config { self.new.node.config ≡ self.old.node.config }
        ensures room { D.most self.new.disk ≡ D.most self.old.disk }
        // what a crash at any moment of the call leaves holds the state before it or that after it
        ensures any_moment { self.old.broken ≡ false
            → LeavesOnly D.moment D.left_since self.old.disk self.new.disk
            (IsDoneOrNot self.old.node.config self.old.node.number self.old.node (Answers ask.now)
            (D.seen self.old.disk)) }
        ensures later { D.faults self.old.disk ≤ D.faults self.new.disk }
        ensures cause { IfErr result
            (IfFailed (Rose D.last (D.faults self.old.disk) (D.faults self.new.disk))) }
    {
        if self.broken {
            return Err(StoreRefusal::Broken);
        }
        if !has_place(&self.node, &self.disk, self.count) && self.node.adds(ask) {
            return Err(StoreRefusal::Full);
        }
        let Prepared { reply, added } = self.node.prepare(ask)?;
        self.commit(ask, added)?;
        Ok(reply)
    }

    /// Answers many asks, one after the other. The versions that are added are written as slots, all of them for two syncs, and
    /// safe at the return; where none is added, the disk is not touched. Memory is taken before the disk is written.
    pub fn handle_all(&mut self, asks: &[Ask]) -> Result<Replies, StoreRefusal>
        ensures replies { IfOk result (λ replies. replies ≡ replies_of self.old.node asks.now) }
        ensures state { OnOk result (self.new.node ≡ after_asks self.old.node asks.now) }
        ensures done { OnOk result (AreDone self.old.node.config self.old.node.number self.old.node
            (answering asks.now) (D.seen self.old.disk) (D.seen self.new.disk)) }
        ensures untouched { OnOk result
            (slots_by_all self.old.node asks.now ≡ [] → self.new.disk ≡ self.old.disk) }
        ensures durable { OnOk result (D.pending self.new.disk ≡ settled (D.seen self.new.disk)) }
        ensures broken { IsErrOf result StoreRefusal.Broken ↔ (self.old.broken ≡ true) }
        // Full comes only where the slots don't fit, and where they don't, nothing but want of memory comes in its place
        ensures full { IsErrOf result StoreRefusal.Full → (self.old.broken ≡ false)
            × (has_places self.old.node asks.now (D.seen self.old.disk) (D.most self.old.disk)
            ≡ false) }
        ensures fits { OnOk result (has_places self.old.node asks.now (D.seen self.old.disk)
            (D.most self.old.disk) ≡ true) }
        ensures fits_failed { IfErr result (IfFailed (has_places self.old.node asks.now
            (D.seen self.old.disk) (D.most self.old.disk) ≡ true)) }
        ensures calm { IfErr result (IfCalm (self.new ≡ self.old)) }
        ensures breaks { IfErr result (IfFailed (self.new.broken ≡ true)) }
        ensures whole { OnOk result (self.new.broken ≡ false) }
        ensures config { self.new.node.config ≡ self.old.node.config }
        ensures room { D.most self.new.disk ≡ D.most self.old.disk }
        // what a crash at any moment of the call leaves holds the state after the first few of the asks
        ensures any_moment { self.old.broken ≡ false
            → LeavesOnly D.moment D.left_since self.old.disk self.new.disk
            (AreDoneInPart self.old.node.config self.old.node.number self.old.node
            (answering asks.now) (D.seen self.old.disk)) }
        ensures later { D.faults self.old.disk ≤ D.faults self.new.disk }
        ensures cause { IfErr result
            (IfFailed (Rose D.last (D.faults self.old.disk) (D.faults self.new.disk))) }
    {
        if self.broken {
            return Err(StoreRefusal::Broken);
        }
        match add_all(self.alloc, &mut self.node, &mut self.disk, self.count, asks) {
            Ok((replies, more)) => {
                self.count += more;
                Ok(replies)
            }
            Err(refusal) => {
                self.broken = matches!(refusal, StoreRefusal::DiskFault);
                Err(refusal)
            }
        }
    }

    /// What the node would answer and add. Nothing changes, and `commit` needs no digest any more.
    pub fn prepare(&self, ask: &Ask) -> Result<Prepared, NoMemory>
        ensures reply { IfOk result (λ p. p.reply ≡ reply_of self.now.node ask.now) }
        ensures added { IfOk result (λ p. p.added ≡ accepts_of self.now.node ask.now) }
    {
        self.node.prepare(ask)
    }

    /// Adds what was prepared for the ask, as `handle` does.
    pub fn commit(&mut self, ask: &Ask, added: Option<Version>) -> Result<(), StoreRefusal>
        requires { added ≡ accepts_of self.old.node ask.now }
        ensures state { OnOk result (self.new.node ≡ with_versions self.old.node ask.now.block
            (after_of self.old.node ask.now)) }
        ensures done { OnOk result (IsDone self.old.node.config self.old.node.number self.old.node
            (Answers ask.now) (D.seen self.old.disk) (D.seen self.new.disk)) }
        ensures untouched { OnOk result
            (slots_by self.old.node (Answers ask.now) ≡ [] → self.new.disk ≡ self.old.disk) }
        ensures durable { OnOk result (D.pending self.new.disk ≡ settled (D.seen self.new.disk)) }
        ensures broken { IsErrOf result StoreRefusal.Broken ↔ (self.old.broken ≡ true) }
        ensures full { IsErrOf result StoreRefusal.Full
            ↔ ((self.old.broken ≡ false) × (is_some added ≡ true)
            × (has_place self.old.node (D.seen self.old.disk) (D.most self.old.disk) ≡ false)) }
        ensures calm { IfErr result (IfCalm (self.new ≡ self.old)) }
        ensures breaks { IfErr result (IfFailed (self.new.broken ≡ true)) }
        ensures whole { OnOk result (self.new.broken ≡ false) }
        ensures config { self.new.node.config ≡ self.old.node.config }
        ensures room { D.most self.new.disk ≡ D.most self.old.disk }
        // what a crash at any moment of the call leaves holds the state before it or that after it
        ensures any_moment { self.old.broken ≡ false
            → LeavesOnly D.moment D.left_since self.old.disk self.new.disk
            (IsDoneOrNot self.old.node.config self.old.node.number self.old.node (Answers ask.now)
            (D.seen self.old.disk)) }
        ensures later { D.faults self.old.disk ≤ D.faults self.new.disk }
        ensures cause { IfErr result
            (IfFailed (Rose D.last (D.faults self.old.disk) (D.faults self.new.disk))) }
    {
        if self.broken {
            return Err(StoreRefusal::Broken);
        }
        let Some(version) = added else {
            return Ok(());
        };
        if !has_place(&self.node, &self.disk, self.count) {
            return Err(StoreRefusal::Full);
        }
        let kept = add_version(
            self.alloc,
            &mut self.node,
            &mut self.disk,
            self.count,
            ask,
            version,
        );
        if kept.is_ok() {
            self.count += 1;
        }
        self.broken = matches!(kept, Err(StoreRefusal::DiskFault));
        kept
    }

    /// Drops versions of a block, as a node does, and writes that as a slot, also where no version was dropped.
    pub fn prune(&mut self, block: u32, stamp: &Stamp) -> Result<(), StoreRefusal>
        requires { block < self.old.node.config.blocks }
        ensures state { OnOk result (self.new.node ≡ with_versions self.old.node block
            (pruned (setting self.old.node.config) stamp.now (versions_in self.old.node block))) }
        ensures done { OnOk result (IsDone self.old.node.config self.old.node.number self.old.node
            (Prunes block stamp.now) (D.seen self.old.disk) (D.seen self.new.disk)) }
        ensures durable { OnOk result (D.pending self.new.disk ≡ settled (D.seen self.new.disk)) }
        ensures broken { IsErrOf result StoreRefusal.Broken ↔ (self.old.broken ≡ true) }
        ensures full { IsErrOf result StoreRefusal.Full
            ↔ ((self.old.broken ≡ false)
            × (has_place self.old.node (D.seen self.old.disk) (D.most self.old.disk) ≡ false)) }
        ensures calm { IfErr result (IfCalm (self.new ≡ self.old)) }
        ensures breaks { IfErr result (IfFailed (self.new.broken ≡ true)) }
        ensures whole { OnOk result (self.new.broken ≡ false) }
        ensures config { self.new.node.config ≡ self.old.node.config }
        ensures room { D.most self.new.disk ≡ D.most self.old.disk }
        // what a crash at any moment of the call leaves holds the state before it or that after it
        ensures any_moment { self.old.broken ≡ false
            → LeavesOnly D.moment D.left_since self.old.disk self.new.disk
            (IsDoneOrNot self.old.node.config self.old.node.number self.old.node
            (Prunes block stamp.now) (D.seen self.old.disk)) }
        ensures later { D.faults self.old.disk ≤ D.faults self.new.disk }
        ensures cause { IfErr result
            (IfFailed (Rose D.last (D.faults self.old.disk) (D.faults self.new.disk))) }
    {
        if self.broken {
            return Err(StoreRefusal::Broken);
        }
        if !has_place(&self.node, &self.disk, self.count) {
            return Err(StoreRefusal::Full);
        }
        let kept = add_prune(
            self.alloc,
            &mut self.node,
            &mut self.disk,
            self.count,
            block,
            stamp,
        );
        if kept.is_ok() {
            self.count += 1;
        }
        self.broken = matches!(kept, Err(StoreRefusal::DiskFault));
        kept
    }

    /// Prunes blocks, one after the other, as a node does. The prunes that drop a version then are written as slots, all of them for two
    /// syncs, and safe at the return; where none drops any, the disk is not touched. Memory is taken before anything is dropped.
    pub fn prune_all(&mut self, prunes: &[Prune]) -> Result<(), StoreRefusal>
        requires { All (λ p. p.block < self.old.node.config.blocks) prunes.now }
        ensures state { OnOk result (self.new.node ≡ after_prunes self.old.node prunes.now) }
        ensures done { OnOk result (AreDone self.old.node.config self.old.node.number self.old.node
            (pruning prunes.now) (D.seen self.old.disk) (D.seen self.new.disk)) }
        ensures untouched { OnOk result
            (slots_by_prunes self.old.node prunes.now ≡ [] → self.new.disk ≡ self.old.disk) }
        ensures durable { OnOk result (D.pending self.new.disk ≡ settled (D.seen self.new.disk)) }
        ensures broken { IsErrOf result StoreRefusal.Broken ↔ (self.old.broken ≡ true) }
        // Full comes only where a slot for each prune doesn't fit, and where they don't, nothing but want of memory comes in its place
        ensures full { IsErrOf result StoreRefusal.Full → (self.old.broken ≡ false)
            × (has_room self.old.node (length prunes.now) (D.seen self.old.disk)
            (D.most self.old.disk) ≡ false) }
        ensures fits { OnOk result (has_room self.old.node (length prunes.now)
            (D.seen self.old.disk) (D.most self.old.disk) ≡ true) }
        ensures fits_failed { IfErr result (IfFailed (has_room self.old.node (length prunes.now)
            (D.seen self.old.disk) (D.most self.old.disk) ≡ true)) }
        ensures calm { IfErr result (IfCalm (self.new ≡ self.old)) }
        ensures breaks { IfErr result (IfFailed (self.new.broken ≡ true)) }
        ensures whole { OnOk result (self.new.broken ≡ false) }
        ensures config { self.new.node.config ≡ self.old.node.config }
        ensures room { D.most self.new.disk ≡ D.most self.old.disk }
        // what a crash at any moment of the call leaves holds the state after the first few of the prunes
        ensures any_moment { self.old.broken ≡ false
            → LeavesOnly D.moment D.left_since self.old.disk self.new.disk
            (AreDoneInPart self.old.node.config self.old.node.number self.old.node
            (pruning prunes.now) (D.seen self.old.disk)) }
        ensures later { D.faults self.old.disk ≤ D.faults self.new.disk }
        ensures cause { IfErr result
            (IfFailed (Rose D.last (D.faults self.old.disk) (D.faults self.new.disk))) }
    {
        if self.broken {
            return Err(StoreRefusal::Broken);
        }
        match prune_all(
            self.alloc,
            &mut self.node,
            &mut self.disk,
            self.count,
            prunes,
        ) {
            Ok(more) => {
                self.count += more;
                Ok(())
            }
            Err(refusal) => {
                self.broken = matches!(refusal, StoreRefusal::DiskFault);
                Err(refusal)
            }
        }
    }

    /// Whether a fault of the disk has broken the node.
    pub fn is_broken(&self) -> bool
        ensures { result ≡ self.now.broken }
    {
        self.broken
    }

    /// Writes the shortest journal of the node to an empty disk, and syncs it: a slot for each version that is kept beside the first
    /// ones, block by block, in order of acceptance. The node and its own disk stay as they are. Until the call returns the disk has
    /// nothing that counts.
    pub fn compact<E: Disk>(&self, disk: E) -> Result<E, CompactRefusal<E>>
        // the disk holds the same node, safe from a crash, in no more slots than it takes
        ensures state { IfOk result (λ disk. held self.now.node.config self.now.node.number
            (E.seen disk) ≡ self.now.node) }
        ensures slots { IfOk result (λ disk. slots_of self.now.node.config (E.seen disk)
            ≡ kept_slots self.now.node) }
        ensures good { IfOk result (λ disk. first_bad self.now.node.config self.now.node.number
            (E.seen disk) ≡ None) }
        ensures durable { IfOk result (λ disk. E.pending disk ≡ settled (E.seen disk)) }
        ensures len { IfOk result (λ disk.
            length (E.seen disk) ≡ compacted_len self.now.node) }
        ensures closed { IfOk result (λ disk. IsClosedAt (body_len self.now.node.config)
            (E.seen disk) (length (kept_slots self.now.node))) }
        // where the disk doesn't fail and memory is found, each of the others comes exactly where it has to
        ensures whole { OnOk result (self.now.broken ≡ false) }
        ensures broken { IfErr result
            (λ r. (r.why ≡ CompactFault.Broken) ↔ (self.now.broken ≡ true)) }
        ensures empty { OnOk result (E.seen disk ≡ []) }
        ensures not_empty { IfErr result
            (λ r. r.why ≡ CompactFault.NotEmpty → 1 ≤ length (E.seen disk)) }
        ensures fits { OnOk result (compacted_len self.now.node ≤ E.most disk) }
        ensures full { IfErr result
            (λ r. r.why ≡ CompactFault.Full → E.most disk < compacted_len self.now.node) }
        ensures room { E.most (given_back result) ≡ E.most disk }
        ensures later { E.faults disk ≤ E.faults (given_back result) }
        ensures cause { IfErr result (λ r. IfDiskFailed
            (Rose E.last (E.faults disk) (E.faults r.disk)) r.why) }
    {
        let mut disk = disk;
        if self.broken {
            return Err(CompactRefusal {
                why: CompactFault::Broken,
                disk,
            });
        }
        match write_journal(self.alloc, &self.node, &mut disk) {
            Ok(()) => Ok(disk),
            Err(why) => Err(CompactRefusal { why, disk }),
        }
    }

    /// Has the node go on on another disk, which has the shortest journal of it, as `compact` writes that. Gives the disk that it had.
    /// Nothing is read, and the time is that of a step for each block.
    pub fn go_on(&mut self, disk: D) -> D
        requires whole { self.old.broken ≡ false }
        requires journal { IsJournalOf self.old.node (D.seen disk) (D.most disk) }
        requires durable { D.pending disk ≡ settled (D.seen disk) }
        ensures state { self.new.node ≡ self.old.node }
        ensures whole { self.new.broken ≡ false }
        ensures disk { self.new.disk ≡ disk }
        ensures given { result ≡ self.old.disk }
    {
        let _small = disk.room();
        self.count = kept_count(&self.node);
        replace(&mut self.disk, disk)
    }

    /// How long the journal is, and how long the shortest one of the node would be. Nothing is read, and the time is that of a step
    /// for each block.
    pub fn journal_len(&self) -> JournalLen
        ensures now { self.now.broken ≡ false → result.now ≡ min (slots_len self.now.node
            (D.seen self.now.disk)) (2 ^ 64 - 1) }
        ensures compacted { self.now.broken ≡ false → result.compacted
            ≡ min (compacted_len self.now.node) (2 ^ 64 - 1) }
    {
        let slot = body_size(self.node.config()) + 1;
        JournalLen {
            now: self.count.saturating_mul(slot).saturating_add(1),
            compacted: compacted_size(&self.node),
        }
    }

    /// Whether the journal is due to be compacted: it is longer than twice what it would be and this many bytes.
    pub fn is_due(&self, least: u64) -> bool
        ensures { self.now.broken ≡ false
            → slots_len self.now.node (D.seen self.now.disk) < 2 ^ 64
            → result ≡ nat_lt (2 * compacted_len self.now.node + least)
            (slots_len self.now.node (D.seen self.now.disk)) }
    {
        let JournalLen { now, compacted } = self.journal_len();
        compacted.saturating_mul(2).saturating_add(least) < now
    }

    /// What the node would answer. Nothing changes.
    pub fn reply_to(&self, ask: &Ask) -> Result<Reply, NoMemory>
        ensures { IfOk result (λ reply. reply ≡ reply_of self.now.node ask.now) }
    {
        self.node.reply_to(ask)
    }

    /// The stamps of the versions that the node keeps of a block, in order of acceptance.
    pub fn versions(&self, block: u32) -> Result<Stamps, NoMemory>
        requires { block < self.now.node.config.blocks }
        ensures { IfOk result (λ stamps.
            stamps ≡ map (λ v. v.stamp) (versions_in self.now.node block)) }
    {
        self.node.versions(block)
    }

    /// How many versions of a block the node keeps beside the first one.
    pub fn later_count(&self, block: u32) -> usize
        requires { block < self.now.node.config.blocks }
        ensures { result + 1 ≡ length (versions_in self.now.node block) }
    {
        self.node.later_count(block)
    }

    /// The greatest time of the versions that the node keeps of a block.
    pub fn greatest_time(&self, block: u32) -> u64
        requires { block < self.now.node.config.blocks }
        ensures { result ≡ greatest_time (versions_in self.now.node block) }
    {
        self.node.greatest_time(block)
    }

    /// The disk.
    pub fn disk(&self) -> &D
        ensures { result.now ≡ self.now.disk }
    {
        &self.disk
    }

    /// Gives the disk back.
    pub fn into_disk(self) -> D
        ensures { result ≡ self.disk }
    {
        let StoredNode { disk, .. } = self;
        disk
    }
}
