ghost use Rattle.std.specs.Prelude.{◌≤◌, ◌<◌, ◌^◌, length, All, IsTrue};
ghost use Rattle.slab_layout.specs.Shapes.{slab_len};
ghost use Rattle.memory_file.specs.Steps.{seen_of};
ghost use Rattle.slab_node.specs.Batches.{HasSizes, AreApart};

use crate::draws::Draws;
use crate::fault::RunFault;
use crate::pool::{PLACES, Pool, State, slot_of};
use crate::slab::{BLOCKS, Slab};
use memory_file::{Fate, MemoryFile};
use slab_codec::head_piece;
use slab_file::SlabFile;
use slab_layout::{Head, Shape};
use slab_node::{Fresh, write_over};
use sqlite_disk::digest_of;
use stamp_order::Stamp;
use std::alloc::Global;

/// Goes on with an open slab: in each round, marks are taken away and a batch is written. Returns what a crash leaves,
/// and after which step it came.
pub fn live(
    alloc: Global,
    slab: &mut Slab,
    from_below: bool,
    draws: &mut Draws,
) -> Result<(Vec<u8>, usize), RunFault> {
    let shape = slab.shape();
    let mut pool = Pool::of(&slab.opened.free);
    let mut number = slab.opened.last_number;
    let rounds = 1 + draws.below(4);
    for _ in 0..rounds {
        let going = take_away(alloc, &mut pool, draws)?;
        let batch = batch_of(
            alloc,
            slab.header.key,
            from_below,
            &mut pool,
            &mut number,
            draws,
        )?;
        put(&mut slab.file, shape, &going, &batch)?;
        pool.turn(State::Going, State::Free);
    }
    crash(alloc, &slab.file, draws)
}

// About every third slot that is marked: its mark is to be taken away.
fn take_away(alloc: Global, pool: &mut Pool, draws: &mut Draws) -> Result<Vec<u64>, RunFault> {
    let mut going = Vec::new(alloc);
    for place in 0..PLACES {
        if pool.state(place) == State::Marked && draws.below(3) == 0 {
            going.push(slot_of(place))?;
            pool.set(place, State::Going);
        }
    }
    Ok(going)
}

// Whether the file has all bytes of the slab.
fn has_room(file: &MemoryFile, shape: Shape) -> bool
    requires small { slab_len shape < 2 ^ 63 }
    requires some { 1 ≤ shape.count }
    ensures { IsTrue result → slab_len shape ≤ length (seen_of file.now) }
{
    file.bytes().len() as u64 >= shape.slab_len()
}

// A batch of versions of blocks that follow each other, for slots that are free: those of the greatest numbers, or those
// of the lowest, each lower than the one before.
fn batch_of(
    alloc: Global,
    key: u64,
    from_below: bool,
    pool: &mut Pool,
    number: &mut u64,
    draws: &mut Draws,
) -> Result<Vec<Fresh>, RunFault> {
    let free = pool.free_count();
    let count = free.min(1 + draws.below(3));
    let mut skipped = if from_below { free - count } else { 0 };
    let first = draws.below(BLOCKS);
    let mut batch = Vec::new(alloc);
    for place in 0..PLACES {
        if pool.state(place) != State::Free || batch.len() as u64 >= count {
            continue;
        }
        if skipped > 0 {
            skipped -= 1;
            continue;
        }
        *number = number.wrapping_add(1);
        let block = first.wrapping_add(batch.len() as u64) % BLOCKS;
        batch.push(fresh(alloc, key, block as u32, slot_of(place), *number, draws)?)?;
        pool.set(place, State::Marked);
    }
    Ok(batch)
}

// The version of this number, for a slot of its own.
fn fresh(
    alloc: Global,
    key: u64,
    block: u32,
    slot: u64,
    number: u64,
    draws: &mut Draws,
) -> Result<Fresh, RunFault> {
    let byte = draws.below(256) as u8;
    let data = vec![in alloc; byte; 104]?;
    let head = Head {
        block,
        stamp: Stamp {
            time: number,
            client: draws.below(4) as u32,
            verifier: [byte; 32],
        },
        number,
        data_check: digest_of(key, &data),
    };
    Ok(Fresh {
        slot,
        head: head_piece(alloc, key, &head)?,
        data,
    })
}

// Takes marks away and writes a batch, if each of its versions has a place of its own.
fn put(file: &mut MemoryFile, shape: Shape, going: &[u64], batch: &[Fresh]) -> Result<(), RunFault>
    requires { slab_len shape < 2 ^ 63 }
{
    if shape.count == 0 || shape.data_len() == 0 {
        return Err(RunFault::NoPlace);
    }
    if !has_room(file, shape)
        || !file.may_be_used()
        || !are_slots(shape, going)
        || !all_fit(shape, batch)
        || !are_apart(batch)
    {
        return Err(RunFault::NoPlace);
    }
    write_over(file, shape, going, batch)?;
    Ok(())
}

// Whether there are these slots.
fn are_slots(shape: Shape, slots: &[u64]) -> bool
    ensures { IsTrue result → All (λ i. i < shape.count) slots.now }
{
    for slot in slots {
        if *slot >= shape.count {
            return false;
        }
    }
    true
}

// Whether each version has a slot, and pieces of the right lengths.
fn all_fit(shape: Shape, batch: &[Fresh]) -> bool
    requires small { slab_len shape < 2 ^ 63 }
    requires some { 1 ≤ shape.count }
    ensures { IsTrue result → All (λ f. HasSizes shape f) batch.now }
{
    for fresh in batch {
        if !fits(shape, fresh) {
            return false;
        }
    }
    true
}

fn fits(shape: Shape, fresh: &Fresh) -> bool
    requires small { slab_len shape < 2 ^ 63 }
    requires some { 1 ≤ shape.count }
    ensures { IsTrue result → HasSizes shape fresh.now }
{
    fresh.slot < shape.count
        && fresh.head.len() == 72
        && fresh.data.len() as u64 == shape.data_len()
}

// Whether each slot lies before the one in front of it.
fn are_apart(batch: &[Fresh]) -> bool
    ensures { IsTrue result → AreApart batch.now }
{
    for i in 1..batch.len() {
        if batch[i].slot >= batch[i - 1].slot {
            return false;
        }
    }
    true
}

// Lets a crash come after some step.
fn crash(
    alloc: Global,
    file: &MemoryFile,
    draws: &mut Draws,
) -> Result<(Vec<u8>, usize), RunFault> {
    let step = draws.below(file.steps().len() as u64 + 1) as usize;
    let fates = fates_of(alloc, draws)?;
    Ok((file.left_after(step, &fates)?, step))
}

// The fates of the writes that aren't safe: at most a mark of each place, and three heads and data.
fn fates_of(alloc: Global, draws: &mut Draws) -> Result<Vec<Fate>, RunFault> {
    let mut fates = Vec::new(alloc);
    for _ in 0..14 {
        let fate = match draws.below(4) {
            0 => Fate::Lost,
            1 => Fate::FirstHalf,
            2 => Fate::Whole,
            _ => Fate::Filled(draws.below(4) as u8),
        };
        fates.push(fate)?;
    }
    Ok(fates)
}
