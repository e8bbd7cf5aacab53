//! Blocks that are written over and over, and pruned by the stamps that the store remembers, so that no block is read.

use crate::unmade::Unmade;
use client_core::Outcome;
use cross_sum::Bytes;
use disk_model::MemoryDisk;
use outside_io::Calls;
use quorum_rules::Config;
use std::alloc::Global;
use std::thread::Threads;
use store_care::{later_versions, prune_acknowledged};
use store_device::Store;
use wire_forms::Op;

type Device = Store<MemoryDisk>;

const BLOCKS: u32 = 3;

/// How often each block is written.
const WRITES: u8 = 7;

/// Whether each node keeps a version for each write before blocks are pruned, and the last one alone then, which a read gives; and whether the
/// store remembers a stamp for each write until then, and none after it.
pub fn goes_as_told<R: Threads + Sync>(rt: &R, alloc: Global) -> Result<bool, Unmade> {
    let config = Config::new(5, 1, 1, 3, 2, 4, BLOCKS).map_err(|_| Unmade)?;
    let mut store = opened(alloc, &config)?;
    let mut are_written = true;
    for value in 0..WRITES {
        are_written &= write_all(rt, alloc, &mut store, value)?;
    }
    let each = u64::from(BLOCKS) * u64::from(WRITES);
    let before = keep_all(&mut store, each) && store.acknowledged().len() as u64 == each;
    prune_acknowledged(rt, alloc, &mut store, 2)?;
    let after = keep_all(&mut store, u64::from(BLOCKS)) && store.acknowledged().is_empty();
    Ok(are_written && before && after && read_all(rt, &mut store, WRITES - 1)?)
}

// A store of nodes on empty disks.
fn opened(alloc: Global, config: &Config) -> Result<Device, Unmade> {
    let mut store = Store::empty(alloc, config)?;
    for seat in 0..5u8 {
        seat_empty(alloc, &mut store, seat)?;
    }
    Ok(store)
}

// Seats a node on an empty disk.
fn seat_empty(alloc: Global, store: &mut Device, seat: u8) -> Result<(), Unmade> {
    if u32::from(seat) >= store.config().n() {
        return Err(Unmade);
    }
    let disk = MemoryDisk::new(alloc, Calls::new(alloc));
    store.seat_disk(alloc, seat, disk).map_err(|_| Unmade)
}

// Whether each node keeps so many versions beside the first ones.
fn keep_all(store: &mut Device, count: u64) -> bool {
    let mut all = true;
    for seat in 0..5usize {
        all &= later_versions(store, seat) == count;
    }
    all
}

// Writes each block, and tells whether all were written.
fn write_all<R: Threads + Sync>(
    rt: &R,
    alloc: Global,
    store: &mut Device,
    value: u8,
) -> Result<bool, Unmade> {
    let mut all = true;
    for block in 0..BLOCKS {
        let value = Bytes::of(alloc, &[value, value, value, value])?;
        all &= matches!(
            performed(rt, store, Op::Write { block, value })?,
            Some(Outcome::Wrote(_))
        );
    }
    Ok(all)
}

// Whether a read of each block gives this.
fn read_all<R: Threads + Sync>(rt: &R, store: &mut Device, value: u8) -> Result<bool, Unmade> {
    let mut all = true;
    for block in 0..BLOCKS {
        let outcome = performed(rt, store, Op::Read { block })?;
        all &= gave(&outcome, value);
    }
    Ok(all)
}

// Whether a read gave a block of this byte.
fn gave(outcome: &Option<Outcome>, value: u8) -> bool {
    match outcome {
        Some(Outcome::Gave { value: given, .. }) => given.as_slice() == [value; 4].as_slice(),
        _ => false,
    }
}

// How an operation ended.
fn performed<R: Threads + Sync>(
    rt: &R,
    store: &mut Device,
    op: Op,
) -> Result<Option<Outcome>, Unmade> {
    if !op.fits(store.config()) {
        return Err(Unmade);
    }
    let mut outcomes = store.perform(rt, std::slice::from_ref(&op))?;
    Ok(outcomes.pop().unwrap_or(None))
}
