//! A session that could not be made.
use hex::FromHexError;
use lists::NoMemory;
use std::alloc::AllocError;

/// No memory was found, or what stands in a row is no session's.
#[derive(Clone, Copy)]
pub struct Unmade;

impl From<NoMemory> for Unmade {
    fn from(_: NoMemory) -> Unmade {
        Unmade
    }
}

impl From<AllocError> for Unmade {
    fn from(_: AllocError) -> Unmade {
        Unmade
    }
}

impl From<FromHexError> for Unmade {
    fn from(_: FromHexError) -> Unmade {
        Unmade
    }
}
