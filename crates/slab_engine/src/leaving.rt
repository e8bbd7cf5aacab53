ghost use Rattle.std.specs.Prelude.{◌≡◌, ◌++◌, IfOk};
ghost use Rattle.slab_engine.specs.Seen.{slots_in};

use lists::NoMemory;
use stamp_order::Stamp;
use std::alloc::Global;

/// A version that is to go, or whose mark is taken away.
#[derive(Clone, Copy)]
pub struct Leaving {
    /// The block, counted from 0.
    pub block: u32,
    /// The slot, counted from 0.
    pub slot: u32,
    /// The version's stamp.
    pub stamp: Stamp,
}

/// That of a block, the versions below the greatest one up to this stamp are needed no longer.
#[derive(Clone, Copy)]
pub struct Prune {
    pub block: u32,
    pub stamp: Stamp,
}

/// The slots of versions.
pub fn slots_of(alloc: Global, leaving: &[Leaving]) -> Result<Vec<u64>, NoMemory>
    ensures { IfOk result (λ slots. slots.items ≡ slots_in leaving.now) }
{
    match leaving.iter().map(|one| u64::from(one.slot)).collect(alloc) {
        Ok(slots) => Ok(slots),
        Err(_) => Err(NoMemory),
    }
}

/// What was cleared, and then what leaves.
pub fn joined(
    alloc: Global,
    cleared: &[Leaving],
    leaving: &[Leaving],
) -> Result<Vec<Leaving>, NoMemory>
    ensures { IfOk result (λ list. list.items ≡ cleared.now ++ leaving.now) }
{
    let mut list = Vec::with_capacity(alloc, cleared.len())?;
    list.extend_from_slice(cleared)?;
    list.extend_from_slice(leaving)?;
    Ok(list)
}
