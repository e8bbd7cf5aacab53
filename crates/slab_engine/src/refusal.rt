ghost use Rattle.std.specs.Prelude.{◌≡◌};

use lists::NoMemory;

/// Why a node on a slab did not answer a batch of asks.
#[derive(Clone, Copy, Debug, PartialEq, Eq)]
pub enum SlabRefusal {
    /// No memory was found. Nothing was written.
    NoMemory,
    /// There are fewer free slots than versions to add. Nothing was written.
    Full,
    /// There is no space for heads or data, or they couldn't be written. No version was added, and the node goes on.
    NoSpace,
    /// A sync failed, or a write of marks. The node is to be opened again.
    DiskFault,
    /// An earlier call met a fault of the disk.
    Broken,
}

impl From<NoMemory> for SlabRefusal {
    ghost use Rattle.slab_engine.specs.declared.refusal.SlabRefusal.TheVariants.{NoMemory};

    ghost from_gives = { λ _ e. e ≡ NoMemory };

    fn from(_: NoMemory) -> SlabRefusal {
        SlabRefusal::NoMemory
    }
}
