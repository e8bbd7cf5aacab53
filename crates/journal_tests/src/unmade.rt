use line_forms::ScriptRefusal;
use lists::NoMemory;
use std::alloc::AllocError;

/// The journals could not be made: no memory was found, or a part of them isn't what it should be.
#[derive(Clone, Copy, Debug)]
pub struct Unmade;

impl From<NoMemory> for Unmade {
    fn from(_: NoMemory) -> Unmade {
        Unmade
    }
}

impl From<AllocError> for Unmade {
    fn from(_: AllocError) -> Unmade {
        Unmade
    }
}

impl From<ScriptRefusal> for Unmade {
    fn from(_: ScriptRefusal) -> Unmade {
        Unmade
    }
}
