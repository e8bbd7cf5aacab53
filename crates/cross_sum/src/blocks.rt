//! The cross checksums of several blocks.
ghost use Rattle.std.specs.Prelude.{◌≡◌, map, IfOk};
ghost use Rattle.std.specs.List.{flat_map};
ghost use Rattle.cross_sum.specs.Digest.{digest};

use crate::bytes::Bytes;
use crate::digests::digests_of;
use crate::part::Shares;
use crate::sum::{CrossSum, Hash, copies_of};
use lists::NoMemory;
use std::alloc::Global;

impl CrossSum {
    /// The cross checksum of each block's fragments, in order. Neighbours of one length are digested together, whichever blocks they
    /// are of.
    #[tactic(auto, using(crate::proofs::Runs::first_block, crate::proofs::Runs::other_blocks))]
    pub fn of_blocks(alloc: Global, blocks: &[Shares]) -> Result<Vec<CrossSum>, NoMemory>
        ensures { IfOk result (λ sums. sums.items ≡ map (map digest) blocks.now) }
    {
        let digests = digests_of(alloc, fragments_of_all(alloc, blocks)?.as_slice())?;
        let mut sums = Vec::with_capacity(alloc, blocks.len())?;
        let mut rest = digests.as_slice();
        for shares in blocks {
            let (own, others) = rest.split_at(shares.len());
            sums.push(with_digests(alloc, own, shares)?)?;
            rest = others;
        }
        Ok(sums)
    }
}

/// The cross checksum of a block's fragments, which have these digests.
fn with_digests(alloc: Global, digests: &[Hash], shares: &Shares) -> Result<CrossSum, NoMemory>
    requires { digests.now ≡ map digest shares.now }
    ensures { IfOk result (λ sum. sum ≡ map digest shares.now) }
{
    let digests = Vec::from_slice(alloc, digests)?;
    let strings = copies_of(alloc, shares.as_slice())?;
    CrossSum::of_vec(digests, strings, None)
}

/// Copies of the fragments of all blocks, one block's after the other's.
fn fragments_of_all(alloc: Global, blocks: &[Shares]) -> Result<Vec<Bytes>, NoMemory>
    ensures { IfOk result (λ all. all.items ≡ flat_map (λ block. block) blocks.now) }
{
    let mut all = Vec::new(alloc);
    for shares in blocks {
        let mut copies = copies_of(alloc, shares.as_slice())?.into_vec();
        all.append(&mut copies)?;
    }
    Ok(all)
}
