//! The operations of a batch.
ghost use Rattle.std.specs.Prelude.{◌≡◌, ◌≤◌, ◌<◌, ◌+◌, length, IfOk, OnOk};
ghost use Rattle.std.specs.List.{All};
ghost use Rattle.wire_forms.specs.Ops.{Fits};
ghost use Rattle.store_device.specs.Told.{AreApart};
ghost use Rattle.store_tests.specs.Drawn.{AreBelow};

use crate::draws::Draws;
use crate::unmade::Unmade;
use cross_sum::Bytes;
use quorum_rules::Config;
use std::alloc::Global;
use wire_forms::Op;

/// How many blocks a batch is drawn of at most: as many as it may have operations.
const MOST_BLOCKS: u32 = 64;

/// A batch: of each of the first blocks, in their order, nothing, a read, or a write of bytes that are drawn.
pub fn drawn_batch(alloc: Global, config: &Config, draws: &mut Draws) -> Result<Vec<Op>, Unmade>
    ensures few { IfOk result (λ ops. length ops.items ≤ 64) }
    ensures fits { IfOk result (λ ops. All (Fits config.now) ops.items) }
    ensures apart { IfOk result (λ ops. AreApart ops.items) }
{
    let mut ops = Vec::new(alloc);
    for block in 0..config.blocks().min(MOST_BLOCKS) {
        draw_next(alloc, config, &mut ops, block, draws)?;
    }
    Ok(ops)
}

/// A batch that reads the first blocks, in their order.
pub fn all_reads(alloc: Global, config: &Config) -> Result<Vec<Op>, Unmade>
    ensures few { IfOk result (λ ops. length ops.items ≤ 64) }
    ensures fits { IfOk result (λ ops. All (Fits config.now) ops.items) }
    ensures apart { IfOk result (λ ops. AreApart ops.items) }
{
    let mut ops = Vec::new(alloc);
    for block in 0..config.blocks().min(MOST_BLOCKS) {
        read_next(config, &mut ops, block)?;
    }
    Ok(ops)
}

// Draws what is done on the next block.
#[tactic(auto, using(crate::proofs::Drawn::one_block_on, crate::proofs::Drawn::one_more))]
fn draw_next(
    alloc: Global,
    config: &Config,
    ops: &mut Vec<Op>,
    block: u32,
    draws: &mut Draws,
) -> Result<(), Unmade>
    requires block { block < config.now.blocks }
    requires ops { AreBelow config.now block ops.old.items }
    ensures { OnOk result (AreBelow config.now (block + 1) ops.new.items) }
{
    match draws.below(3) {
        0 => Ok(()),
        1 => read_next(config, ops, block),
        _ => {
            let value = drawn_value(alloc, config, draws)?;
            ops.push(Op::Write { block, value })?;
            Ok(())
        }
    }
}

// A read of the next block.
#[tactic(auto, using(crate::proofs::Drawn::one_more))]
fn read_next(config: &Config, ops: &mut Vec<Op>, block: u32) -> Result<(), Unmade>
    requires block { block < config.now.blocks }
    requires ops { AreBelow config.now block ops.old.items }
    ensures { OnOk result (AreBelow config.now (block + 1) ops.new.items) }
{
    ops.push(Op::Read { block })?;
    Ok(())
}

// The bytes of a block.
fn drawn_value(alloc: Global, config: &Config, draws: &mut Draws) -> Result<Bytes, Unmade>
    ensures { IfOk result (λ value. length value ≡ config.now.size) }
{
    let mut value = Vec::with_capacity(alloc, config.size() as usize)?;
    for _k in 0..config.size() {
        value.push(draws.byte())?;
    }
    Ok(Bytes::shared(value)?)
}
