use lists::NoMemory as NoRoom;
use slab_file::FileFault;
use slab_node::BatchFault;
use slab_reading::{OpenFault, ReadFault};
use std::alloc::{AllocError, AllocFailed};

/// Why a sequence has no line.
#[derive(Debug, Drop)]
pub enum RunFault {
    NoMemory,
    File(FileFault),
    Batch(BatchFault),
    Open(OpenFault),
    Read(ReadFault),
    /// The configuration isn't valid.
    NoConfig,
    /// The first bytes are no header.
    NoHeader,
    /// A version has no place in the slab.
    NoPlace,
}

impl From<NoRoom> for RunFault {
    fn from(_: NoRoom) -> RunFault {
        RunFault::NoMemory
    }
}

impl From<AllocError> for RunFault {
    fn from(_: AllocError) -> RunFault {
        RunFault::NoMemory
    }
}

impl<T: Drop> From<AllocFailed<T>> for RunFault {
    fn from(_: AllocFailed<T>) -> RunFault {
        RunFault::NoMemory
    }
}

impl From<FileFault> for RunFault {
    fn from(fault: FileFault) -> RunFault {
        RunFault::File(fault)
    }
}

impl From<BatchFault> for RunFault {
    fn from(fault: BatchFault) -> RunFault {
        RunFault::Batch(fault)
    }
}

impl From<OpenFault> for RunFault {
    fn from(fault: OpenFault) -> RunFault {
        RunFault::Open(fault)
    }
}

impl From<ReadFault> for RunFault {
    fn from(fault: ReadFault) -> RunFault {
        RunFault::Read(fault)
    }
}
