ghost use Rattle.std.specs.Prelude.{◌≡◌};
ghost use Rattle.slab_reading.specs.Opened.{open_fault};

use slab_file::FileFault;

/// Why something was not read.
#[derive(Clone, Copy, Debug, PartialEq, Eq)]
pub enum ReadFault {
    /// No memory was found.
    NoMemory,
    /// A call of the file failed.
    Failed(FileFault),
}

/// Why a slab was not opened.
#[derive(Clone, Copy, Debug, PartialEq, Eq)]
pub enum OpenFault {
    /// No memory was found.
    NoMemory,
    /// A call of the file failed.
    Failed(FileFault),
    /// This slot, counted from 0, is marked, and its head doesn't fit its check.
    Damaged(u64),
}

impl From<ReadFault> for OpenFault {
    ghost from_gives = { λ fault e. e ≡ open_fault fault };

    fn from(fault: ReadFault) -> OpenFault {
        match fault {
            ReadFault::NoMemory => OpenFault::NoMemory,
            ReadFault::Failed(fault) => OpenFault::Failed(fault),
        }
    }
}
