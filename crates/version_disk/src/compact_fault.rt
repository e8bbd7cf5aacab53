ghost use Rattle.std.specs.Prelude.{◌≡◌};

use disk_model::DiskFault;
use lists::NoMemory;
use std::alloc::{AllocError, AllocFailed};

/// Why the shortest journal of a node was not written.
#[derive(Clone, Copy, Debug, PartialEq, Eq)]
pub enum CompactFault {
    /// No memory was found for a part of the journal.
    NoMemory,
    /// A call of the disk failed.
    DiskFault,
    /// The disk has no room for the journal. Nothing was written.
    Full,
    /// The disk is not empty. Nothing was written.
    NotEmpty,
    /// An earlier call of the node met a fault of its own disk. Nothing was written.
    Broken,
}

/// The same, and the disk, which is given back. It may hold a part of the journal, which is good for nothing.
#[derive(Drop)]
pub struct CompactRefusal<E> {
    pub why: CompactFault,
    pub disk: E,
}

impl From<NoMemory> for CompactFault {
    ghost use Rattle.version_disk.specs.declared.compact_fault.CompactFault.TheVariants.{NoMemory};

    ghost from_gives = { λ _ e. e ≡ NoMemory };

    fn from(_: NoMemory) -> CompactFault {
        CompactFault::NoMemory
    }
}

impl From<AllocError> for CompactFault {
    ghost use Rattle.version_disk.specs.declared.compact_fault.CompactFault.TheVariants.{NoMemory};

    ghost from_gives = { λ _ e. e ≡ NoMemory };

    fn from(_: AllocError) -> CompactFault {
        CompactFault::NoMemory
    }
}

impl<T: Drop> From<AllocFailed<T>> for CompactFault {
    ghost use Rattle.version_disk.specs.declared.compact_fault.CompactFault.TheVariants.{NoMemory};

    ghost from_gives = { λ _ e. e ≡ NoMemory };

    fn from(_: AllocFailed<T>) -> CompactFault {
        CompactFault::NoMemory
    }
}

impl From<DiskFault> for CompactFault {
    ghost use Rattle.version_disk.specs.declared.compact_fault.CompactFault.TheVariants.{DiskFault};

    ghost from_gives = { λ _ e. e ≡ DiskFault };

    fn from(_: DiskFault) -> CompactFault {
        CompactFault::DiskFault
    }
}
