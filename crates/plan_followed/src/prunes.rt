//! Which blocks nodes prune after a phase of a plan, and by which stamps.

ghost use Rattle.std.specs.Prelude.{◌≡◌, ◌<◌, ◌++◌, All, IfOk, IfSome, List, length};
ghost use Rattle.stamp_order.specs.Stamps.{◌≼◌};
ghost use Rattle.plan_followed.specs.Prunings.{ArePrunings};
ghost use Rattle.plan_followed.specs.Tops.{IsOneOf, AreTops, AreListed};

use lists::NoMemory;
use stamp_order::Stamp;
use std::alloc::Global;

/// A block, and a stamp that a read of it gave, or by which it is pruned.
#[derive(Clone, Copy, Debug, PartialEq, Eq)]
pub struct BlockStamp {
    /// The block's number, from 0 on.
    pub block: u32,
    /// The stamp.
    pub stamp: Stamp,
}

/// What nodes prune after a phase: each block that was read in the phase, blocks ascending, by the greatest stamp that any
/// read of it gave so far. `blocks` is how many blocks there are; `late` has what the reads of the phase that ends gave, and
/// `early` what those of the phases before gave.
pub fn prunings(
    alloc: Global,
    blocks: u32,
    early: &[BlockStamp],
    late: &[BlockStamp],
) -> Result<Vec<BlockStamp>, NoMemory>
    requires early { All (λ x. x.block < blocks) early.now }
    requires late { All (λ x. x.block < blocks) late.now }
    ensures { IfOk result (λ ps. ArePrunings (late.now ++ early.now) late.now ps.items) }
{
    let mut tops = tops_of(alloc, blocks, late)?;
    raise(&mut tops, early);
    listed(alloc, blocks, &tops)
}

/// The greatest stamp that each block has, by block.
fn tops_of(alloc: Global, blocks: u32, given: &[BlockStamp]) -> Result<Vec<Option<Stamp>>, NoMemory>
    requires { All (λ x. x.block < blocks) given.now }
    ensures length { IfOk result (λ tops. length tops.items ≡ blocks) }
    ensures tops { IfOk result (λ tops. AreTops given.now given.now tops.items) }
{
    let mut tops = vec![in alloc; None; blocks as usize]?;
    for read in given {
        let block = read.block as usize;
        tops[block] = Some(greater(tops[block], &read.stamp));
    }
    Ok(tops)
}

/// Raises the stamps of the blocks that have one.
fn raise(tops: &mut [Option<Stamp>], given: &[BlockStamp])
    requires { All (λ x. x.block < length tops.old) given.now }
    ensures { (fresh reads : List BlockStamp) → AreTops fresh reads tops.old
        → AreTops fresh (reads ++ given.now) tops.new }
{
    for read in given {
        let block = read.block as usize;
        if let Some(top) = tops[block] {
            tops[block] = Some(greater(Some(top), &read.stamp));
        }
    }
}

/// The blocks that have a stamp.
fn listed(alloc: Global, blocks: u32, tops: &[Option<Stamp>]) -> Result<Vec<BlockStamp>, NoMemory>
    requires { length tops.now ≡ blocks }
    ensures { IfOk result (λ ps. AreListed blocks tops.now ps.items) }
{
    let mut listed = Vec::new(alloc);
    for block in 0..blocks {
        if let Some(stamp) = tops[block as usize] {
            listed.push(BlockStamp { block, stamp })?;
        }
    }
    Ok(listed)
}

/// The greater one of two stamps.
fn greater(top: Option<Stamp>, stamp: &Stamp) -> Stamp
    ensures one { IsOneOf top stamp.now result }
    ensures top { IfSome top (λ t. t ≼ result) }
    ensures stamp { stamp.now ≼ result }
{
    match top {
        Some(top) => { if stamp.cmp(&top).is_le() { top } else { *stamp } }
        None => *stamp,
    }
}
