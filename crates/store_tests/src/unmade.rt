//! A case that could not be made.
use lists::NoMemory;
use std::alloc::{AllocError, AllocFailed};

/// No memory was found, or what stands in a line is no cluster's.
#[derive(Clone, Copy)]
pub struct Unmade;

impl From<NoMemory> for Unmade {
    fn from(_: NoMemory) -> Unmade {
        Unmade
    }
}

impl From<AllocError> for Unmade {
    fn from(_: AllocError) -> Unmade {
        Unmade
    }
}

impl<T: Drop> From<AllocFailed<T>> for Unmade {
    fn from(_: AllocFailed<T>) -> Unmade {
        Unmade
    }
}
