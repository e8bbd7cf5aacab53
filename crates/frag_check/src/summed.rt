ghost use Rattle.std.specs.Prelude.{◌≡◌, map, IfOk, length};
ghost use Rattle.gf_field.specs.Fragments.{fragments_of};
ghost use Rattle.ida_code.specs.Sums.{sum_of};
ghost use Rattle.frag_check.specs.Summing.{summed_of};

use cross_sum::{Bytes, CrossSum, NoMemory, Shares};
use ida_lanes::Code;
use std::alloc::Global;

/// The fragments of a block, with their cross checksum.
#[derive(Drop)]
pub struct Summed {
    pub shares: Shares,
    pub sum: CrossSum,
}

/// The fragments of a block and its cross checksum, each made once.
pub fn summed_block(alloc: Global, code: &Code, block: &Bytes) -> Result<Summed, NoMemory>
    ensures count { IfOk result (λ s. length s.shares ≡ code.now.n) }
    ensures shares { IfOk result (λ s. s.shares ≡ fragments_of code.now.n code.now.m block.now) }
    ensures sum { IfOk result (λ s. s.sum ≡ sum_of code.now.n code.now.m block.now) }
{
    let shares = code.encode(alloc, block)?;
    let sum = CrossSum::of_fragments(alloc, shares.as_slice())?;
    Ok(Summed { shares, sum })
}

/// The fragments of each block and its cross checksum, in order. The fragments of all blocks are digested together.
pub fn summed_blocks(alloc: Global, code: &Code, blocks: &[Bytes]) -> Result<Vec<Summed>, NoMemory>
    ensures { IfOk result (λ all. all.items ≡ map (summed_of code.now.n code.now.m) blocks.now) }
{
    let mut shares = Vec::with_capacity(alloc, blocks.len())?;
    for block in blocks {
        shares.push(code.encode(alloc, block)?)?;
    }
    let sums = CrossSum::of_blocks(alloc, &shares)?;
    let mut all = Vec::with_capacity(alloc, blocks.len())?;
    for (shares, sum) in shares.into_iter().zip(sums) {
        all.push(Summed { shares, sum })?;
    }
    Ok(all)
}
