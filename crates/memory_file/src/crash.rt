ghost use Rattle.std.specs.Prelude.{◌≡◌, length, IfOk, OnOk};
ghost use Rattle.sqlite_disk.specs.Disk.{Torn};
ghost use Rattle.memory_file.specs.Steps.{seen_after, Tears, LeftBy};

use crate::step::{Step, lengthen, put_piece};
use cross_sum::Bytes;
use lists::NoMemory;
use std::alloc::Global;

/// What becomes of a write that isn't safe, when a crash comes.
#[derive(Clone, Copy, Debug, PartialEq, Eq)]
pub enum Fate {
    /// Nothing of it is left.
    Lost,
    /// The first half of its bytes is left.
    FirstHalf,
    /// All of it is left.
    Whole,
    /// Its range has this byte everywhere.
    Filled(u8),
}

/// What a crash leaves after steps from these bytes, where these are the fates of what isn't safe then, the oldest
/// first.
pub(crate) fn replay(
    alloc: Global,
    first: &[u8],
    steps: &[Step],
    fates: &[Fate],
) -> Result<Vec<u8>, NoMemory>
    ensures { IfOk result (λ left. LeftBy first.now (λ b. b ≡ first.now) steps.now left.items) }
{
    let mut seen = Vec::from_slice(alloc, first)?;
    let mut left = Vec::from_slice(alloc, first)?;
    let mut unsafe_ones = 0usize;
    for step in steps {
        play(step, &mut seen, &mut left, fate_of(fates, unsafe_ones))?;
        unsafe_ones = counted(step, unsafe_ones);
    }
    Ok(left)
}

// Does a step to what a read gives, and to what a crash leaves.
#[tactic(auto, using(crate::proofs::Pieces::torn_itself, crate::specs::Laws::torn_longer))]
fn play(step: &Step, seen: &mut Vec<u8>, left: &mut Vec<u8>, fate: Fate) -> Result<(), NoMemory>
    ensures seen { OnOk result (seen.new.items ≡ seen_after step.now seen.old.items) }
    ensures left { OnOk result
        (Tears step.now seen.old.items left.old.items left.new.items) }
{
    match step {
        Step::Wrote(at, piece) => {
            tear(left, *at, piece, fate)?;
            put_piece(seen, *at, piece.as_slice())
        }
        Step::Lengthened(len) => {
            stretch(left, *len, fate)?;
            lengthen(seen, *len)
        }
        Step::Synced => {
            left.clear();
            left.extend_from_slice(seen)?;
            Ok(())
        }
    }
}

// Lets a lengthening have its fate.
#[tactic(auto, using(crate::proofs::Pieces::torn_itself, crate::specs::Laws::torn_longer))]
fn stretch(left: &mut Vec<u8>, len: u64, fate: Fate) -> Result<(), NoMemory>
    ensures { OnOk result (Torn len 0 left.old.items left.new.items) }
{
    match fate {
        Fate::Lost => Ok(()),
        _ => lengthen(left, len),
    }
}

// How many steps aren't safe after one more.
fn counted(step: &Step, unsafe_ones: usize) -> usize {
    match step {
        Step::Synced => 0,
        _ => unsafe_ones.saturating_add(1),
    }
}

// The fate at a place of the list.
fn fate_of(fates: &[Fate], place: usize) -> Fate {
    fates.get(place).copied().unwrap_or(Fate::Lost)
}

// Lets a write have its fate.
#[tactic(auto, using(crate::proofs::Pieces::torn_itself, crate::proofs::Pieces::torn_part))]
fn tear(left: &mut Vec<u8>, at: u64, piece: &Bytes, fate: Fate) -> Result<(), NoMemory>
    ensures { OnOk result (Torn at (length piece.now) left.old.items left.new.items) }
{
    match fate {
        Fate::Lost => Ok(()),
        Fate::FirstHalf => put_piece(left, at, &piece.as_slice()[..piece.len() / 2]),
        Fate::Whole => put_piece(left, at, piece.as_slice()),
        Fate::Filled(byte) => {
            let filled = vec![in *left.allocator(); byte; piece.len()]?;
            put_piece(left, at, &filled)
        }
    }
}
