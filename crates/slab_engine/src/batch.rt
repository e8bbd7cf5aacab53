//! What is written and remembered of versions that a node adds.

ghost use Rattle.std.specs.Prelude.{◌≡◌, ◌≤◌, ◌<◌, ◌+◌, ◌^◌, ℕ, length, All, IfOk, slice_index, slice_index_or};
ghost use Rattle.protocol.specs.Messages.{Ask as SeenAsk, Version as SeenVersion, IsFormed};
ghost use Rattle.slab_layout.specs.Shapes.{shape_of};
ghost use Rattle.slab_index.specs.Kept.{with_kept};
ghost use Rattle.slab_engine.specs.Moves.{with_new, without_new};
ghost use Rattle.slab_engine.specs.Batches.{IsWriteOf, IsFreshOf, IsNewOf, IsBatchOf, head_for};

use crate::free::unlist;
use lists::NoMemory;
use quorum_rules::Config;
use slab_codec::{data_piece, head_piece};
use slab_index::{Kept, SlabIndex, SlotList};
use slab_layout::Head;
use slab_node::Fresh;
use sqlite_disk::digest_of;
use stamp_order::Stamp;
use std::alloc::Global;
use wire_forms::{Ask, Request, Version};

/// The slots of a block, with that of a version that is added.
#[derive(Drop)]
pub struct NewSlots {
    pub block: u32,
    pub slot: u32,
    pub list: SlotList,
}

/// What is to be written of versions that are added, and then remembered.
#[derive(Drop)]
pub struct Batch {
    pub fresh: Vec<Fresh>,
    pub new: Vec<NewSlots>,
}

/// The versions of asks, by the numbers of the asks, in these slots. Their numbers are those from one on.
pub fn batch_of(
    alloc: Global,
    config: &Config,
    key: u64,
    index: &SlabIndex,
    asks: &[Ask],
    added: &[usize],
    slots: &[u32],
    next: u64,
) -> Result<Batch, NoMemory>
    requires blocks { length index.now ≡ config.now.blocks }
    requires added { All (λ i. (i < length asks.now) × ((d : SeenAsk)
        → ((slice_index_or asks.now i d).block < config.now.blocks)
        × ((v : SeenVersion) × IsWriteOf config.now (slice_index_or asks.now i d) v))) added.now }
    requires slots { All (λ i. i < (shape_of config.now).count) slots.now }
    requires count { length slots.now ≡ length added.now }
    requires next { next + length added.now < 2 ^ 64 }
    ensures { IfOk result (λ batch. IsBatchOf config.now key index.now asks.now added.now slots.now
        next batch) }
{
    let mut batch = Batch {
        fresh: Vec::with_capacity(alloc, added.len())?,
        new: Vec::with_capacity(alloc, added.len())?,
    };
    for k in 0..added.len() {
        let ask = &asks[added[k]];
        let Request::Write(version) = &ask.request else {
            return Err(NoMemory);
        };
        let number = next + k as u64;
        let (fresh, head) = fresh_of(alloc, config, key, ask.block, version, slots[k], number)?;
        let list = index.list_with(alloc, ask.block, Kept::of(slots[k], &head))?;
        batch.fresh.push(fresh)?;
        batch.new.push(NewSlots {
            block: ask.block,
            slot: slots[k],
            list,
        })?;
    }
    Ok(batch)
}

// What is written of a version into a slot, and its head.
fn fresh_of(
    alloc: Global,
    config: &Config,
    key: u64,
    block: u32,
    version: &Version,
    slot: u32,
    number: u64,
) -> Result<(Fresh, Head), NoMemory>
    requires slot { slot < (shape_of config.now).count }
    requires sums { length version.now.sum ≡ config.now.n }
    requires share { length version.now.fragment ≡ (shape_of config.now).share }
    ensures fresh { IfOk result (λ r. IsFreshOf config.now key block version.now slot number r.0) }
    ensures head { IfOk result (λ r. r.1 ≡ head_for key block version.now number) }
{
    formed(version);
    stamp_ranges(version.stamp);
    let data = data_piece(alloc, version)?;
    let head = Head {
        block,
        stamp: version.stamp,
        number,
        data_check: digest_of(key, &data),
    };
    let bytes = head_piece(alloc, key, &head)?;
    let fresh = Fresh {
        slot: u64::from(slot),
        head: bytes,
        data,
    };
    Ok((fresh, head))
}

// What the types of a stamp's parts tell.
fn stamp_ranges(stamp: Stamp)
    ensures time { stamp.time < 2 ^ 64 }
    ensures client { stamp.client < 2 ^ 32 }
    ensures verifier { length stamp.verifier ≡ 32 }
{}

// What the types of a version's parts tell.
fn formed(version: &Version)
    ensures { IsFormed version.now }
{
    let _digests = version.sum.hashes();
    let _bytes = version.fragment.as_slice();
}

/// Remembers the slots of versions that were added.
pub fn remember(index: &mut SlabIndex, free: &mut [bool], new: Vec<NewSlots>)
    ensures index { index.new ≡ with_new new.items index.old }
    ensures free { free.new ≡ without_new new.items free.old }
{
    for slots in new {
        unlist(free, slots.slot);
        set_block(index, slots.block, slots.list);
    }
}

// Makes these the slots of a block, if there is such a block.
fn set_block(index: &mut SlabIndex, block: u32, list: SlotList)
    ensures { index.new ≡ with_kept index.old block list }
{
    if (block as usize) < index.len() {
        index.set(block, list);
    }
}
