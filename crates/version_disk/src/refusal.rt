ghost use Rattle.std.specs.Prelude.{◌≡◌};

use disk_model::DiskFault;
use lists::NoMemory;

/// Why a node on a disk did not take an ask or a prune.
#[derive(Clone, Copy, Debug, PartialEq, Eq)]
pub enum StoreRefusal {
    /// No memory was found. Nothing changed.
    NoMemory,
    /// The disk failed. The node is to be opened again.
    DiskFault,
    /// An earlier call met a fault of the disk.
    Broken,
    /// The disk has no room for the slot. Nothing changed.
    Full,
}

impl From<NoMemory> for StoreRefusal {
    ghost use Rattle.version_disk.specs.declared.refusal.StoreRefusal.TheVariants.{NoMemory};

    ghost from_gives = { λ _ e. e ≡ NoMemory };

    fn from(_: NoMemory) -> StoreRefusal {
        StoreRefusal::NoMemory
    }
}

impl From<DiskFault> for StoreRefusal {
    ghost use Rattle.version_disk.specs.declared.refusal.StoreRefusal.TheVariants.{DiskFault};

    ghost from_gives = { λ _ e. e ≡ DiskFault };

    fn from(_: DiskFault) -> StoreRefusal {
        StoreRefusal::DiskFault
    }
}
