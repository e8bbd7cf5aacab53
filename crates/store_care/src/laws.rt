//! What settling and filling are in a store's life: laws, each the contract of a function that does nothing.
ghost use Rattle.store_care.specs.Settling.{SettledBlocksHold};
ghost use Rattle.store_care.specs.Filling.{FilledAreRebuilt};

use disk_model::Disk;

/// Where `settle_all` finds a block settled, `n-t` nodes that are up keep one stamp of it, and none that is up keeps a greater one. So by
/// `store_device::laws::settled_blocks_forget` no write that was cut off before takes effect later, whatever operations are cut off from
/// then on.
pub fn settled_blocks_hold<D: Disk>()
    ensures { SettledBlocksHold D }
{}

/// A disk that held nothing but first versions, and that `fill_disk` filled without missing a block, keeps of each block what
/// `store_device::laws::nodes_are_rebuilt` wants of a node that gets another disk: the first version, and that of the latest acknowledged
/// operation.
pub fn filled_are_rebuilt<D: Disk, E: Disk>()
    ensures { FilledAreRebuilt D E.pending E.seen }
{
    store_device::laws::sessions_are_lives::<D>();
    block_turns::lives_are_linearizable();
}
