ghost use Rattle.std.specs.Prelude.{◌≡◌, ◌+◌, ◌≤◌, ◌<◌, ℕ, [], ◌∷◌, ◌++◌, List, Option, Some, length, slice_index_or, is_none, option_copied, IfSome, IfOk, OnOk};
ghost use Rattle.store_device.specs.Calls.{Call, Leads};
ghost use Rattle.store_care.specs.Given.{given, given_by};
ghost use Rattle.store_care.specs.Tallies.{failed_reads, one_more_if};
ghost use Rattle.store_care.specs.Filling.{AreFill, AreFilling, AreGroups, HasFilledBy, HasKept, IsOpened, groups_of, nothing, asks_by, asks_for, version_for, with_replies, with_reply};

use crate::blocks::{MOST_BLOCKS, block_of, reads_of};
use crate::calls::{given, outcome_at, perform};
use client_core::Outcome;
use cross_sum::Bytes;
use disk_model::Disk;
use frag_check::{Summed, code_of, summed_block};
use lists::{Copied, NoMemory};
use quorum_rules::Config;
use stamp_order::Stamp;
use std::alloc::Global;
use std::thread::Threads;
use store_device::Store;
use version_disk::StoredNode;
use wire_forms::{Ask, Op, Reply, Request, Version};

/// What a new node was given: how many blocks it keeps now, and how many couldn't be read or weren't kept.
#[derive(Clone, Copy, Debug, Default, PartialEq, Eq)]
pub struct Filled {
    pub kept: u64,
    pub missed: u64,
}

/// A disk that was filled: what its node was given, and the node, if the disk could be opened.
#[derive(Drop)]
pub struct FilledDisk<E: Disk> {
    pub filled: Filled,
    pub node: Option<StoredNode<E>>,
}

/// Opens a disk as a node that doesn't sit in the store, and has it keep what reads of all blocks give. A disk that can't be opened keeps none.
pub fn fill_disk<D: Disk + Send, E: Disk + Drop, R: Threads + Sync>(
    rt: &R,
    alloc: Global,
    store: &mut Store<D>,
    number: u8,
    disk: E,
) -> Result<FilledDisk<E>, NoMemory>
    ensures config { store.new.config ≡ store.old.config }
    // what it did to the store, and what the disk holds of that
    ensures calls { (calls : List (Call D))
        × Leads D.pending D.seen D.most D.moment D.left_since store.old calls store.new
        × AreGroups store.old.config.blocks 0 calls
        × IfOk result (λ done. HasFilledBy E.pending E.seen store.old.config number (E.seen disk) calls
        done.filled done.node) }
{
    let config = *store.config();
    let Some(mut node) = opened(alloc, &config, number, disk) else {
        let missed = u64::from(config.blocks());
        return Ok(FilledDisk {
            filled: Filled { kept: 0, missed },
            node: None,
        });
    };
    let filled = fill_all(rt, alloc, store, number, &mut node)?;
    Ok(FilledDisk {
        filled,
        node: Some(node),
    })
}

// Has a node that doesn't sit in the store keep what reads of all blocks give.
fn fill_all<D: Disk + Send, E: Disk, R: Threads + Sync>(
    rt: &R,
    alloc: Global,
    store: &mut Store<D>,
    number: u8,
    node: &mut StoredNode<E>,
) -> Result<Filled, NoMemory>
    ensures config { store.new.config ≡ store.old.config }
    ensures calls { (calls : List (Call D))
        × Leads D.pending D.seen D.most D.moment D.left_since store.old calls store.new
        × AreGroups store.old.config.blocks 0 calls
        × IfOk result (λ filled. (length calls ≡ groups_of store.old.config.blocks)
        × AreFilling E.pending E.seen store.old.config number calls nothing filled node.old node.new) }
{
    let mut filled = Filled::default();
    let blocks = store.config().blocks();
    for group in 0..blocks.div_ceil(MOST_BLOCKS) {
        let first = blocks.min(group * MOST_BLOCKS);
        let count = MOST_BLOCKS.min(blocks - first);
        filled.fill(rt, alloc, store, node, number as usize, first, count)?;
    }
    Ok(filled)
}

// The node of this number on a disk.
fn opened<E: Disk + Drop>(
    alloc: Global,
    config: &Config,
    number: u8,
    disk: E,
) -> Option<StoredNode<E>>
    ensures { IfSome result (IsOpened E.pending E.seen config.now number (E.seen disk)) }
{
    if u32::from(number) >= config.n() || disk.room() == 0 {
        return None;
    }
    StoredNode::open(alloc, config, number, disk).ok()
}

impl Filled {
    /// Reads `count` blocks from this one on of a store on which the node doesn't sit, and has the node keep what the reads gave, for each
    /// block that was written. So it holds all that the others have told of before it answers for the first time.
    pub fn fill<D: Disk + Send, E: Disk, R: Threads + Sync>(
        &mut self,
        rt: &R,
        alloc: Global,
        store: &mut Store<D>,
        node: &mut StoredNode<E>,
        number: usize,
        first: u32,
        count: u32,
    ) -> Result<(), NoMemory>
        requires few { count ≤ 64 }
        requires there { first + count ≤ store.old.config.blocks }
        requires numbers { first + count ≤ 268435456 }
        ensures config { store.new.config ≡ store.old.config }
        // what it did to the store, and what the node keeps of that
        ensures calls { (calls : List (Call D))
            × Leads D.pending D.seen D.most D.moment D.left_since store.old calls store.new
            × AreFill first count calls
            × OnOk result ((length calls ≡ 1)
            × AreFilling E.pending E.seen store.old.config number calls self.old self.new node.old node.new) }
    {
        let reads = reads_of(alloc, first, count)?;
        let outcomes = perform(rt, store, &reads)?;
        let asks = self.asks_for(alloc, store.config(), number, &reads, &outcomes)?;
        self.keep(node, &asks);
        Ok(())
    }

    // What the node of this number is asked to keep, where reads ended so. Blocks of which they gave nothing are missed.
    fn asks_for(
        &mut self,
        alloc: Global,
        config: &Config,
        number: usize,
        reads: &[Op],
        outcomes: &[Option<Outcome>],
    ) -> Result<Vec<Ask>, NoMemory>
        ensures asks { IfOk result (λ asks. asks.items
            ≡ asks_for config.now number reads.now outcomes.now (length reads.now)) }
        ensures missed { OnOk result (self.new ≡ record self.old {
          missed
              = failed_reads config.now.size outcomes.now (length reads.now) self.old.missed;
        }) }
    {
        let mut asks = Vec::new(alloc);
        for (k, op) in reads.iter().enumerate() {
            let outcome = outcome_at(outcomes, k);
            self.ask_of(alloc, config, number, block_of(op), outcome, &mut asks)?;
        }
        Ok(asks)
    }

    // Asks the node of this number to keep what a read of a block gave, which ended so. Where it gave nothing the block is missed.
    fn ask_of(
        &mut self,
        alloc: Global,
        config: &Config,
        number: usize,
        block: u32,
        outcome: Option<&Outcome>,
        asks: &mut Vec<Ask>,
    ) -> Result<(), NoMemory>
        ensures asks { OnOk result (asks.new.items ≡ asks.old.items
            ++ asks_by config.now number block (given config.now.size (option_copied outcome.entry))) }
        ensures missed { OnOk result (self.new ≡ record self.old {
          missed
              = one_more_if (is_none (given config.now.size (option_copied outcome.entry))) self.old.missed;
        }) }
    {
        match given(outcome, config.size()) {
            Some((stamp, value)) => add_ask(alloc, config, number, block, stamp, value, asks),
            None => {
                self.missed = self.missed.saturating_add(1);
                Ok(())
            }
        }
    }

    // Has the node keep what it is asked to, and counts its answers.
    fn keep<E: Disk>(&mut self, node: &mut StoredNode<E>, asks: &[Ask])
        ensures { HasKept E.pending E.seen asks.now self.old self.new node.old node.new }
    {
        match node.handle_all(asks) {
            Ok(replies) => self.count_all(replies.as_slice()),
            Err(_) => self.missed = self.missed.saturating_add(asks.len() as u64),
        }
    }

    fn count_all(&mut self, replies: &[Reply])
        ensures { self.new ≡ with_replies self.old replies.now }
    {
        for reply in replies {
            self.count(reply);
        }
    }

    fn count(&mut self, reply: &Reply)
        ensures { self.new ≡ with_reply self.old reply.now }
    {
        match reply {
            Reply::Ack => self.kept = self.kept.saturating_add(1),
            _ => self.missed = self.missed.saturating_add(1),
        }
    }
}

// Asks the node of this number to keep what a read of a block gave, if that was written.
fn add_ask(
    alloc: Global,
    config: &Config,
    number: usize,
    block: u32,
    stamp: &Stamp,
    value: &Bytes,
    asks: &mut Vec<Ask>,
) -> Result<(), NoMemory>
    ensures { OnOk result (asks.new.items ≡ asks.old.items
        ++ asks_by config.now number block (Some (given_by stamp.now value.now))) }
{
    if stamp.time == 0 {
        return Ok(());
    }
    let version = version_of(alloc, config, number, stamp, value)?;
    let request = Request::Write(version);
    asks.push(Ask { block, request })?;
    Ok(())
}

// The version of a value that the node of this number keeps.
fn version_of(
    alloc: Global,
    config: &Config,
    number: usize,
    stamp: &Stamp,
    value: &Bytes,
) -> Result<Version, NoMemory>
    ensures { IfOk result (λ version. version
        ≡ version_for config.now number (given_by stamp.now value.now)) }
{
    let summed = summed_block(alloc, &code_of(config), value)?;
    let fragment = share_of(&summed, number)?;
    Ok(Version {
        stamp: *stamp,
        sum: summed.sum,
        fragment,
    })
}

// The fragment of this number, or no bytes where there is none.
fn share_of(summed: &Summed, number: usize) -> Result<Bytes, NoMemory>
    ensures { IfOk result (λ share. share ≡ slice_index_or summed.now.shares number []) }
{
    match summed.shares.get(number) {
        Some(share) => share.copy(),
        None => Ok(Bytes::empty()),
    }
}
