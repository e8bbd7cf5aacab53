//! How a session goes on, and why it ends.
use crate::filling::TakeRefusal;
use lists::NoMemory;
use std::alloc::AllocError;

/// Whether a session goes on.
#[derive(Clone, Copy, Debug, PartialEq, Eq)]
pub enum Served {
    /// A request was served, and another one may follow.
    Next,
    /// The client has left, or the input has ended where a request would begin.
    Over,
}

/// Why a session ended before its client left.
#[derive(Clone, Copy, Debug, PartialEq, Eq)]
pub enum SessionEnd {
    /// No memory was found.
    NoMemory,
    /// The source failed.
    ReadFault,
    /// The sink failed.
    WriteFault,
    /// At this place of the input, where a request begins, stand four bytes that begin none.
    BadMagic { at: u64 },
    /// The input ends within the request that begins at this place, its data included.
    CutRequest { at: u64 },
    /// A byte follows the 2^31-th request.
    TooManyRequests,
}

impl From<NoMemory> for SessionEnd {
    ghost use Rattle.std.specs.Prelude.{◌≡◌};
    ghost use Rattle.nbd_front.specs.declared.ending.SessionEnd.TheVariants.{NoMemory as NoMemoryEnd};

    ghost from_gives = { λ _ e. e ≡ NoMemoryEnd };

    fn from(_: NoMemory) -> SessionEnd {
        SessionEnd::NoMemory
    }
}

impl From<AllocError> for SessionEnd {
    ghost use Rattle.std.specs.Prelude.{◌≡◌};
    ghost use Rattle.nbd_front.specs.declared.ending.SessionEnd.TheVariants.{NoMemory as NoMemoryEnd};

    ghost from_gives = { λ _ e. e ≡ NoMemoryEnd };

    fn from(_: AllocError) -> SessionEnd {
        SessionEnd::NoMemory
    }
}

impl From<TakeRefusal> for SessionEnd {
    ghost use Rattle.std.specs.Prelude.{◌≡◌};
    ghost use Rattle.nbd_front.specs.Ends.{end_of};

    ghost from_gives = { λ r e. e ≡ end_of r };

    fn from(refusal: TakeRefusal) -> SessionEnd {
        match refusal {
            TakeRefusal::NoMemory => SessionEnd::NoMemory,
            TakeRefusal::ReadFault => SessionEnd::ReadFault,
        }
    }
}
