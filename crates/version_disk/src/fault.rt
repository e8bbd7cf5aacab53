ghost use Rattle.std.specs.Prelude.{◌≡◌};

use disk_model::DiskFault;
use lists::NoMemory;
use std::alloc::AllocError;

/// Why a disk was not opened.
#[derive(Clone, Copy, Debug, PartialEq, Eq)]
pub(crate) enum OpenFault {
    NoMemory,
    DiskFault,
    /// This slot is the first bad one.
    Damaged { slot: u64 },
}

impl From<NoMemory> for OpenFault {
    ghost use Rattle.version_disk.specs.declared.fault.OpenFault.TheVariants.{NoMemory};

    ghost from_gives = { λ _ e. e ≡ NoMemory };

    fn from(_: NoMemory) -> OpenFault {
        OpenFault::NoMemory
    }
}

impl From<AllocError> for OpenFault {
    ghost use Rattle.version_disk.specs.declared.fault.OpenFault.TheVariants.{NoMemory};

    ghost from_gives = { λ _ e. e ≡ NoMemory };

    fn from(_: AllocError) -> OpenFault {
        OpenFault::NoMemory
    }
}

impl From<DiskFault> for OpenFault {
    ghost use Rattle.version_disk.specs.declared.fault.OpenFault.TheVariants.{DiskFault};

    ghost from_gives = { λ _ e. e ≡ DiskFault };

    fn from(_: DiskFault) -> OpenFault {
        OpenFault::DiskFault
    }
}
