//! What a write that was cut off left behind is settled.
ghost use Rattle.std.specs.Prelude.{◌≡◌, ◌+◌, ◌≤◌, ◌<◌, ◌++◌, ℕ, List, filter, length, option_map, option_copied, IfOk, OnOk};
ghost use Rattle.std.specs.List.{list_all, list_any};
ghost use Rattle.store_device.specs.Calls.{Call, Leads};
ghost use Rattle.store_care.specs.Batches.{AreBelow};
ghost use Rattle.store_care.specs.Given.{given};
ghost use Rattle.store_care.specs.Holdings.{newest_at};
ghost use Rattle.store_care.specs.Settling.{AreSettling, IsTriedOut, Try, TriesLead, is_settled, is_this, is_up_to, leads, newest_stamps, unsettled, write_of, writes_by};

use crate::blocks::{MOST_BLOCKS, add, block_of};
use crate::calls::{given, outcome_at, perform};
use crate::newest::newest_at;
use client_core::Outcome;
use disk_model::Disk;
use lists::{Copied, NoMemory};
use stamp_order::Stamp;
use std::alloc::Global;
use std::thread::Threads;
use store_device::Store;
use wire_forms::Op;

/// How often blocks are tried at most. Each try raises the time of what is written by one at least, and what a crash left is later by
/// a few at most.
const MOST_TRIES: u32 = 4;

/// Settles all blocks, as many in one go as may be, each group again while something in it isn't settled, but no more than a few
/// times: so each block was settled at some time of the call, or was tried as often as that. Gives how many blocks aren't settled at
/// the end: a node may keep a version of a time that no write reaches.
pub fn settle_all<D: Disk + Send, R: Threads + Sync>(
    rt: &R,
    alloc: Global,
    store: &mut Store<D>,
) -> Result<u32, NoMemory>
    ensures config { store.new.config ≡ store.old.config }
    ensures tries { (tries : List (Try D))
        × TriesLead D.pending D.seen D.most D.moment D.left_since store.old tries store.new
        × OnOk result ((block : ℕ) → block < store.old.config.blocks
        → IsTriedOut store.old tries block) }
    ensures unsettled { IfOk result (λ count. count
        ≡ length (unsettled store.new 0 store.new.config.blocks)) }
{
    let blocks = store.config().blocks();
    for group in 0..blocks.div_ceil(MOST_BLOCKS) {
        let first = blocks.min(group.saturating_mul(MOST_BLOCKS));
        let count = MOST_BLOCKS.min(blocks - first);
        settle_group(rt, alloc, store, first, count)?;
    }
    count_unsettled(alloc, store, 0, blocks)
}

// Settles `count` blocks from this one on, again while something of them isn't settled, but no more than a few times.
fn settle_group<D: Disk + Send, R: Threads + Sync>(
    rt: &R,
    alloc: Global,
    store: &mut Store<D>,
    first: u32,
    count: u32,
) -> Result<(), NoMemory>
    requires few { count ≤ 64 }
    requires there { first + count ≤ store.old.config.blocks }
    ensures config { store.new.config ≡ store.old.config }
    ensures tries { (tries : List (Try D))
        × TriesLead D.pending D.seen D.most D.moment D.left_since store.old tries store.new
        × OnOk result ((block : ℕ) → first ≤ block → block < first + count
        → IsTriedOut store.old tries block) }
{
    for _turn in 0..MOST_TRIES {
        if count_unsettled(alloc, store, first, count)? == 0 {
            return Ok(());
        }
        settle(rt, alloc, store, first, count)?;
    }
    Ok(())
}

/// Reads those of `count` blocks from this one on that aren't settled, all in one call, and then writes again those of them that a
/// read gave something for and that aren't settled then either, each with what its read gave, in another one. Where there are none a
/// call has no operations.
pub fn settle<D: Disk + Send, R: Threads + Sync>(
    rt: &R,
    alloc: Global,
    store: &mut Store<D>,
    first: u32,
    count: u32,
) -> Result<(), NoMemory>
    requires few { count ≤ 64 }
    requires there { first + count ≤ store.old.config.blocks }
    ensures config { store.new.config ≡ store.old.config }
    ensures calls { (calls : List (Call D))
        × Leads D.pending D.seen D.most D.moment D.left_since store.old calls store.new
        × AreSettling first count store.old calls
        × OnOk result (length calls ≡ 2) }
{
    let reads = unsettled_reads(alloc, store, first, count)?;
    let outcomes = perform(rt, store, &reads)?;
    let again = writes_again(alloc, store, &reads, &outcomes)?;
    perform(rt, store, &again)?;
    Ok(())
}

// Reads of those of the blocks that aren't settled.
fn unsettled_reads<D: Disk>(
    alloc: Global,
    store: &mut Store<D>,
    first: u32,
    count: u32,
) -> Result<Vec<Op>, NoMemory>
    requires { first + count ≤ store.old.config.blocks }
    ensures same { store.new ≡ store.old }
    ensures batch { IfOk result (λ ops. AreBelow store.old.config store.old.config.blocks ops.items) }
    ensures few { IfOk result (λ ops. length ops.items ≤ count) }
    ensures reads { IfOk result (λ ops. ops.items ≡ unsettled store.old first count) }
{
    let end = store.config().blocks().min(first + count);
    let mut reads = Vec::new(alloc);
    for block in first..end {
        add_unsettled(alloc, store, block, &mut reads)?;
    }
    Ok(reads)
}

// Adds a read of a block if it isn't settled.
fn add_unsettled<D: Disk>(
    alloc: Global,
    store: &mut Store<D>,
    block: u32,
    reads: &mut Vec<Op>,
) -> Result<(), NoMemory>
    requires { block < store.old.config.blocks }
    ensures same { store.new ≡ store.old }
    ensures batch { OnOk result (AreBelow store.old.config block reads.old.items
        → AreBelow store.old.config (block + 1) reads.new.items) }
    ensures few { OnOk result (length reads.new.items ≤ length reads.old.items + 1) }
    ensures reads { OnOk result ((first count : ℕ) → first + count ≡ block
        → reads.old.items ≡ unsettled store.old first count
        → reads.new.items ≡ unsettled store.old first (count + 1)) }
{
    let settled = is_settled(alloc, store, block)?;
    if settled {
        return Ok(());
    }
    add(reads, Op::Read { block })
}

// How many of the blocks aren't settled.
fn count_unsettled<D: Disk>(
    alloc: Global,
    store: &mut Store<D>,
    first: u32,
    count: u32,
) -> Result<u32, NoMemory>
    requires { first + count ≤ store.old.config.blocks }
    ensures same { store.new ≡ store.old }
    ensures count { IfOk result (λ n. n ≡ length (unsettled store.old first count)) }
{
    let reads = unsettled_reads(alloc, store, first, count)?;
    Ok(reads.len() as u32)
}

// Writes of those blocks that were read, which ended so, and aren't settled, each with what its read gave.
fn writes_again<D: Disk>(
    alloc: Global,
    store: &mut Store<D>,
    reads: &[Op],
    outcomes: &[Option<Outcome>],
) -> Result<Vec<Op>, NoMemory>
    requires { AreBelow store.old.config store.old.config.blocks reads.now }
    ensures same { store.new ≡ store.old }
    ensures batch { IfOk result (λ ops. AreBelow store.old.config store.old.config.blocks ops.items) }
    ensures few { IfOk result (λ ops. length ops.items ≤ length reads.now) }
    ensures writes { IfOk result (λ ops. ops.items ≡ writes_by store.old reads.now outcomes.now) }
{
    let mut again = Vec::new(alloc);
    for (k, op) in reads.iter().enumerate() {
        add_write(
            alloc,
            store,
            block_of(op),
            outcome_at(outcomes, k),
            &mut again,
        )?;
    }
    Ok(again)
}

// Adds a write of a block with what a read of it gave, if it gave something and the block isn't settled.
fn add_write<D: Disk>(
    alloc: Global,
    store: &mut Store<D>,
    block: u32,
    outcome: Option<&Outcome>,
    again: &mut Vec<Op>,
) -> Result<(), NoMemory>
    requires { block < store.old.config.blocks }
    ensures same { store.new ≡ store.old }
    ensures items { OnOk result (again.new.items ≡ again.old.items
        ++ write_of store.old block (given store.old.config.size (option_copied outcome.entry))) }
{
    let Some((_, value)) = given(outcome, store.config().size()) else {
        return Ok(());
    };
    if is_settled(alloc, store, block)? {
        return Ok(());
    }
    let value = value.copy()?;
    again.push(Op::Write { block, value })?;
    Ok(())
}

// Whether a block is settled: the newest version that any node that is up keeps of it is the newest at n-t of them at least.
fn is_settled<D: Disk>(alloc: Global, store: &mut Store<D>, block: u32) -> Result<bool, NoMemory>
    requires { block < store.old.config.blocks }
    ensures same { store.new ≡ store.old }
    ensures settled { IfOk result (λ settled. settled ≡ is_settled store.old block) }
{
    let stamps = newest_stamps(alloc, store, block)?;
    let least = store.config().wait() as usize;
    Ok(is_led(&stamps, least))
}

// Whether the greatest of these stamps is that of so many of them at least.
fn is_led(stamps: &[Option<Stamp>], least: usize) -> bool
    ensures { result ≡ list_any (leads least stamps.now) stamps.now }
{
    stamps.iter().any(|stamp| leads(stamps, stamp, least))
}

// Whether a stamp is the greatest of these, and that of so many of them at least.
fn leads(stamps: &[Option<Stamp>], stamp: &Option<Stamp>, least: usize) -> bool
    ensures { result ≡ leads least stamps.now stamp.now }
{
    match stamp {
        Some(stamp) => none_above(stamps, stamp) && count_of(stamps, stamp) >= least,
        None => false,
    }
}

// Whether none of the stamps is greater than this one.
fn none_above(stamps: &[Option<Stamp>], stamp: &Stamp) -> bool
    ensures { result ≡ list_all (is_up_to stamp.now) stamps.now }
{
    stamps.iter().all(|other| is_up_to(other, stamp))
}

// How many of the stamps are this one.
fn count_of(stamps: &[Option<Stamp>], stamp: &Stamp) -> usize
    ensures { result ≡ length (filter (is_this stamp.now) stamps.now) }
{
    stamps.iter().filter(|other| is_this(other, stamp)).count()
}

// Whether a stamp, if there is one, is this one or less.
fn is_up_to(stamp: &Option<Stamp>, most: &Stamp) -> bool
    ensures { result ≡ is_up_to most.now stamp.now }
{
    match stamp {
        Some(stamp) => stamp.cmp(most).is_le(),
        None => true,
    }
}

// Whether there is a stamp, and it is this one.
fn is_this(stamp: &Option<Stamp>, other: &Stamp) -> bool
    ensures { result ≡ is_this other.now stamp.now }
{
    match stamp {
        Some(stamp) => stamp.cmp(other).is_eq(),
        None => false,
    }
}

// The stamp of the newest version of a block at each seat.
fn newest_stamps<D: Disk>(
    alloc: Global,
    store: &mut Store<D>,
    block: u32,
) -> Result<Vec<Option<Stamp>>, NoMemory>
    requires { block < store.old.config.blocks }
    ensures same { store.new ≡ store.old }
    ensures stamps { IfOk result (λ stamps. stamps.items ≡ newest_stamps store.old block) }
{
    let mut stamps = Vec::new(alloc);
    for seat in 0..store.config().n() as usize {
        let stamp = newest_stamp(store, seat, block)?;
        stamps.push(stamp)?;
    }
    Ok(stamps)
}

// The stamp of the newest version that the node of a seat keeps of a block, if it is up.
fn newest_stamp<D: Disk>(
    store: &mut Store<D>,
    seat: usize,
    block: u32,
) -> Result<Option<Stamp>, NoMemory>
    requires { block < store.old.config.blocks }
    ensures same { store.new ≡ store.old }
    ensures stamp { IfOk result (λ stamp. stamp
        ≡ option_map (λ v. v.stamp) (newest_at store.old block seat)) }
{
    match newest_at(store, seat, block)? {
        Some(version) => Ok(Some(version.stamp)),
        None => Ok(None),
    }
}
