ghost use Rattle.std.specs.Prelude.{◌≡◌, ◌≢◌, ◌≤◌, ◌↔◌, IsTrue, Err, IfOk, OnOk, OnErr, IsErrOf, length, List, ℕ};
ghost use Rattle.outside_io.specs.Causes.{Rose};
ghost use Rattle.outside_io.specs.Given.{GaveAtMost};
ghost use Rattle.nbd_front.specs.Arrivals.{GaveUpTo, GaveFewer};

use outside_io::{Failed, Source};
use std::alloc::{AllocError, Global};

/// Why bytes were not taken.
#[derive(Clone, Copy, Debug, PartialEq, Eq)]
pub enum TakeRefusal {
    /// No memory was found.
    NoMemory,
    /// The source failed.
    ReadFault,
}

impl From<AllocError> for TakeRefusal {
    ghost use Rattle.nbd_front.specs.declared.filling.TakeRefusal.TheVariants.{NoMemory};

    ghost from_gives = { λ _ e. e ≡ NoMemory };

    fn from(_: AllocError) -> TakeRefusal {
        TakeRefusal::NoMemory
    }
}

/// How many bytes are asked for at once.
const ROOM: usize = 16_384;

/// Reads so many bytes, or those up to the end of the input where these are fewer. Memory is taken for what comes, piece by
/// piece.
pub fn take_bytes<S: Source>(
    alloc: Global,
    source: &mut S,
    len: u32,
) -> Result<Vec<u8>, TakeRefusal>
    ensures bytes { IfOk result (λ taken.
        GaveUpTo len (S.left source.old) (S.left source.new) taken.items) }
    ensures fault { IsErrOf result TakeRefusal.ReadFault
        → Rose S.last (S.faults source.old) (S.faults source.new) }
    ensures fewer { IsErrOf result TakeRefusal.ReadFault
        → GaveFewer len (S.left source.old) (S.left source.new) }
    ensures most { IsErrOf result TakeRefusal.NoMemory
        → GaveAtMost len (S.left source.old) (S.left source.new) }
    ensures calm { result ≢ Err TakeRefusal.ReadFault → S.faults source.new ≡ S.faults source.old }
    ensures later { S.faults source.old ≤ S.faults source.new }
{
    let len = len as usize;
    let mut taken = Vec::new(alloc);
    let mut room = [0u8; ROOM];
    while taken.len() < len {
        let wanted = ROOM.min(len - taken.len());
        match source.read(&mut room[..wanted]) {
            Err(_) => return Err(TakeRefusal::ReadFault),
            Ok(0) => return Ok(taken),
            Ok(count) => taken.extend_from_slice(&room[..count])?,
        }
    }
    Ok(taken)
}

/// Reads so many bytes and drops them. None of the input is left where there are fewer: then it answers false.
pub fn drop_bytes<S: Source>(source: &mut S, len: u32) -> Result<bool, Failed>
    ensures bytes { IfOk result (λ all.
        (bytes : List ℕ) × GaveUpTo len (S.left source.old) (S.left source.new) bytes
        × (IsTrue all ↔ (length bytes ≡ len))) }
    ensures cause { OnErr result (Rose S.last (S.faults source.old) (S.faults source.new)) }
    ensures fewer { OnErr result (GaveFewer len (S.left source.old) (S.left source.new)) }
    ensures calm { OnOk result (S.faults source.new ≡ S.faults source.old) }
    ensures later { S.faults source.old ≤ S.faults source.new }
{
    let len = len as usize;
    let mut dropped = 0;
    let mut room = [0u8; ROOM];
    while dropped < len {
        let wanted = ROOM.min(len - dropped);
        match source.read(&mut room[..wanted])? {
            0 => return Ok(false),
            count => dropped += count,
        }
    }
    Ok(true)
}
