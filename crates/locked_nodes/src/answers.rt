//! What a cell answers.
ghost use Rattle.std.specs.Prelude.{◌≡◌};
ghost use Rattle.locked_nodes.specs.Cells.{number_of, reply_told};
ghost use Rattle.locked_nodes.specs.declared.answers.CellRefusal.TheVariants as refusals;

use journals::Silence;
use lists::NoMemory;
use std::alloc::AllocError;
use wire_forms::Message;

/// What the caller of a node hears, with the number of the node's entry.
pub enum Told {
    Answered { number: u64, reply: Message },
    Silent { number: u64, why: Silence },
}

// By hand, since a derived drop is proved anew wherever one is let go.
impl Drop for Told {
    fn drop(self) {
        match self {
            Told::Answered {
                number: _number,
                reply: _reply,
            } => {}
            Told::Silent {
                number: _number,
                why: _why,
            } => {}
        }
    }
}

impl Told {
    /// The number of the node's entry, and the reply, if there is one.
    pub fn into_reply(self) -> (u64, Option<Message>)
        ensures number { result.0 ≡ number_of self }
        ensures reply { result.1 ≡ reply_told self }
    {
        match self {
            Told::Answered { number, reply } => (number, Some(reply)),
            Told::Silent { number, why: _ } => (number, None),
        }
    }
}

/// What became of the oldest ask that is held back, with the number of the node's entry.
#[derive(Clone, Copy, Debug, PartialEq, Eq)]
pub enum Late {
    /// No ask is held back.
    NoMail,
    /// The node handled it.
    Delivered { number: u64 },
    /// It found the node crashed or lying, or crashed it.
    Lost { number: u64 },
}

/// What became of a prune.
#[derive(Clone, Copy, Debug, PartialEq, Eq)]
pub enum Pruning {
    /// The node lies or has crashed.
    Skipped,
    /// It has dropped versions, if there were any to drop, and this is the number of its entry.
    Pruned { number: u64 },
}

/// Why a cell did nothing.
#[derive(Clone, Copy, Debug, PartialEq, Eq)]
pub enum CellRefusal {
    /// No memory was found.
    NoMemory,
    /// The cell's pass has drawn all its numbers.
    ClockFull,
}

impl From<NoMemory> for CellRefusal {
    ghost from_gives = { λ _ e. e ≡ refusals.NoMemory };

    fn from(_: NoMemory) -> CellRefusal {
        CellRefusal::NoMemory
    }
}

impl From<AllocError> for CellRefusal {
    ghost from_gives = { λ _ e. e ≡ refusals.NoMemory };

    fn from(_: AllocError) -> CellRefusal {
        CellRefusal::NoMemory
    }
}
