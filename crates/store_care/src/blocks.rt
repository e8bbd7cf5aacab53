//! Operations of one batch: on blocks that rise.
ghost use Rattle.std.specs.Prelude.{◌≡◌, ◌+◌, ◌≤◌, ◌∷◌, ◌++◌, [], length, IfOk, OnOk};
ghost use Rattle.quorum_rules.specs.Limits.{Numbers};
ghost use Rattle.wire_forms.specs.Ops.{Fits};
ghost use Rattle.protocol.specs.Seen.{block_of};
ghost use Rattle.store_care.specs.Batches.{AreBelow};
ghost use Rattle.store_care.specs.Given.{reads_from};

use lists::NoMemory;
use std::alloc::Global;
use wire_forms::Op;

/// How many blocks are looked at in one go at most.
pub const MOST_BLOCKS: u32 = 64;

/// Reads of `count` blocks from this one on.
#[tactic(auto, using(crate::proofs::Rising::none_below))]
pub(crate) fn reads_of(alloc: Global, first: u32, count: u32) -> Result<Vec<Op>, NoMemory>
    requires { first + count ≤ 268435456 }
    ensures batch { IfOk result (λ ops. (c : Numbers) → first + count ≤ c.blocks
        → AreBelow c (first + count) ops.items) }
    ensures reads { IfOk result (λ ops. ops.items ≡ reads_from first count) }
{
    let mut ops = Vec::with_capacity(alloc, count as usize)?;
    for block in first..first + count {
        add(&mut ops, Op::Read { block })?;
    }
    Ok(ops)
}

/// Adds an operation on a block above those of the others.
pub(crate) fn add(ops: &mut Vec<Op>, op: Op) -> Result<(), NoMemory>
    ensures batch { OnOk result ((c : Numbers) → AreBelow c (block_of op) ops.old.items → Fits c op
        → AreBelow c (block_of op + 1) ops.new.items) }
    ensures items { OnOk result (ops.new.items ≡ ops.old.items ++ op ∷ []) }
{
    ops.push(op)?;
    Ok(())
}

/// The block of an operation.
pub(crate) fn block_of(op: &Op) -> u32
    ensures { result ≡ block_of op.now }
{
    match op {
        Op::Read { block } | Op::Write { block, .. } => *block,
    }
}
