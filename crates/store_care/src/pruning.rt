ghost use Rattle.std.specs.Prelude.{◌≡◌, ℕ, ◌+◌, ◌-◌, ◌^◌, ◌≤◌, ◌<◌, ◌++◌, List, length, min, nat_lt, option_copied, IfOk, OnOk, MatchOption};
ghost use Rattle.store_device.specs.Stores.{seat_at};
ghost use Rattle.store_device.specs.Calls.{Call, Leads};
ghost use Rattle.store_device.specs.Steps.{IsTended};
ghost use Rattle.store_care.specs.Batches.{AreBelow};
ghost use Rattle.store_care.specs.Filling.{groups_of};
ghost use Rattle.store_care.specs.Prunes.{prune_by, prunes_by};
ghost use Rattle.store_care.specs.Pruning.{ArePruning, HavePassed, is_overfull, later_in, overfull, versions_at};

use crate::blocks::{MOST_BLOCKS, add, block_of};
use crate::calls::{outcome_at, perform};
use client_core::Outcome;
use disk_model::Disk;
use lists::NoMemory;
use std::alloc::Global;
use std::thread::Threads;
use store_device::Store;
use version_disk::Prune;
use wire_forms::Op;

/// Of `count` blocks from this one on reads those of which some node that is up keeps more than so many versions, and has each node that is
/// up prune them by the stamps that the reads gave, all in one call. Where there are none a call has no operations, and the other no prunes.
pub fn prune_due<D: Disk + Send, R: Threads + Sync>(
    rt: &R,
    alloc: Global,
    store: &mut Store<D>,
    first: u32,
    count: u32,
    most: usize,
) -> Result<(), NoMemory>
    requires few { count ≤ 64 }
    requires there { first + count ≤ store.old.config.blocks }
    ensures config { store.new.config ≡ store.old.config }
    // what it did to the store
    ensures calls { (calls : List (Call D))
        × Leads D.pending D.seen D.most D.moment D.left_since store.old calls store.new
        × ArePruning first count most store.old calls
        × OnOk result (length calls ≡ 2) }
    // so the store is looked after: nothing is written, and each prune is by the stamp of the block's latest read
    ensures tended { IsTended D.pending D.seen D.most D.moment D.left_since store.old store.new }
{
    let reads = overfull_reads(alloc, store, first, count, most)?;
    let outcomes = perform(rt, store, &reads)?;
    let prunes = prunes_by(alloc, &reads, &outcomes)?;
    let _starved = store.prune_all(rt, &prunes);
    Ok(())
}

/// The same of all blocks, as many in one go as may be: each group of them, one after the other.
pub fn prune_all<D: Disk + Send, R: Threads + Sync>(
    rt: &R,
    alloc: Global,
    store: &mut Store<D>,
    most: usize,
) -> Result<(), NoMemory>
    ensures config { store.new.config ≡ store.old.config }
    ensures passed { OnOk result (HavePassed D.pending D.seen D.most D.moment D.left_since most
        (groups_of store.old.config.blocks) store.old store.new) }
    ensures tended { IsTended D.pending D.seen D.most D.moment D.left_since store.old store.new }
{
    let blocks = store.config().blocks();
    for group in 0..blocks.div_ceil(MOST_BLOCKS) {
        let first = blocks.min(group.saturating_mul(MOST_BLOCKS));
        let count = MOST_BLOCKS.min(blocks - first);
        prune_due(rt, alloc, store, first, count, most)?;
    }
    Ok(())
}

// The prunes that reads allow: of each block by the stamp that its read gave.
fn prunes_by(
    alloc: Global,
    reads: &[Op],
    outcomes: &[Option<Outcome>],
) -> Result<Vec<Prune>, NoMemory>
    ensures { IfOk result (λ prunes. prunes.items ≡ prunes_by reads.now outcomes.now) }
{
    let mut prunes = Vec::new(alloc);
    for (k, op) in reads.iter().enumerate() {
        add_prune(&mut prunes, op, outcome_at(outcomes, k))?;
    }
    Ok(prunes)
}

// Adds the prune of a block that was read, by the stamp that the read gave, if it gave one.
fn add_prune(prunes: &mut Vec<Prune>, read: &Op, outcome: Option<&Outcome>) -> Result<(), NoMemory>
    ensures { OnOk result (prunes.new.items
        ≡ prunes.old.items ++ prune_by read.now (option_copied outcome.entry)) }
{
    let Some(outcome) = outcome else {
        return Ok(());
    };
    match outcome {
        Outcome::Gave { stamp, .. } => {
            let block = block_of(read);
            prunes.push(Prune {
                block,
                stamp: *stamp,
            })?;
            Ok(())
        }
        _ => Ok(()),
    }
}

// Reads of those of the blocks of which some node that is up keeps more than so many versions.
fn overfull_reads<D: Disk>(
    alloc: Global,
    store: &mut Store<D>,
    first: u32,
    count: u32,
    most: usize,
) -> Result<Vec<Op>, NoMemory>
    requires { first + count ≤ store.old.config.blocks }
    ensures same { store.new ≡ store.old }
    ensures batch { IfOk result (λ ops. AreBelow store.old.config (first + count) ops.items) }
    ensures few { IfOk result (λ ops. length ops.items ≤ count) }
    ensures reads { IfOk result (λ ops. ops.items ≡ overfull store.old first count most) }
{
    let end = store.config().blocks().min(first + count);
    let mut reads = Vec::new(alloc);
    for block in first..end {
        add_overfull(store, block, most, &mut reads)?;
    }
    Ok(reads)
}

// Adds a read of a block if some node that is up keeps more than so many versions of it.
fn add_overfull<D: Disk>(
    store: &mut Store<D>,
    block: u32,
    most: usize,
    reads: &mut Vec<Op>,
) -> Result<(), NoMemory>
    requires { block < store.old.config.blocks }
    ensures same { store.new ≡ store.old }
    ensures batch { OnOk result (AreBelow store.old.config block reads.old.items
        → AreBelow store.old.config (block + 1) reads.new.items) }
    ensures few { OnOk result (length reads.new.items ≤ length reads.old.items + 1) }
    ensures reads { OnOk result ((first count : ℕ) → first + count ≡ block
        → reads.old.items ≡ overfull store.old first count most
        → reads.new.items ≡ overfull store.old first (count + 1) most) }
{
    if is_overfull(store, block, most) {
        return add(reads, Op::Read { block });
    }
    Ok(())
}

// Whether some node that is up keeps more than so many versions of a block.
pub(crate) fn is_overfull<D: Disk>(store: &mut Store<D>, block: u32, most: usize) -> bool
    requires { block < store.old.config.blocks }
    ensures same { store.new ≡ store.old }
    ensures full { result ≡ is_overfull store.old most block }
{
    let mut full = false;
    for seat in 0..store.config().n() as usize {
        full |= is_full_at(store, seat, block, most);
    }
    full
}

// Whether the node of a seat is up, and keeps more than so many versions of a block.
fn is_full_at<D: Disk>(store: &mut Store<D>, seat: usize, block: u32, most: usize) -> bool
    requires { block < store.old.config.blocks }
    ensures same { store.new ≡ store.old }
    ensures full { result ≡ nat_lt most (versions_at (seat_at store.old seat) block) }
{
    match later_at(store, seat, block) {
        Some(later) => later >= most,
        None => false,
    }
}

// How many versions of a block the node of a seat keeps beside the first one, if it is up.
fn later_at<D: Disk>(store: &mut Store<D>, seat: usize, block: u32) -> Option<usize>
    requires { block < store.old.config.blocks }
    ensures same { store.new ≡ store.old }
    ensures later { MatchOption result (versions_at (seat_at store.old seat) block ≡ 0)
        (λ later. later + 1 ≡ versions_at (seat_at store.old seat) block) }
{
    if !store.is_up(seat) {
        return None;
    }
    match store.node(seat) {
        Some(node) => Some(node.later_count(block)),
        None => None,
    }
}

/// How many versions the node of a seat keeps beside the first ones, of all blocks; 0 where it isn't up.
pub fn later_versions<D: Disk>(store: &mut Store<D>, seat: usize) -> u64
    ensures same { store.new ≡ store.old }
    ensures count { result
        ≡ min (later_in (seat_at store.old seat) store.old.config.blocks) (2 ^ 64 - 1) }
{
    let mut count: u64 = 0;
    for block in 0..store.config().blocks() {
        let later = later_at(store, seat, block).unwrap_or(0);
        count = count.saturating_add(later as u64);
    }
    count
}
