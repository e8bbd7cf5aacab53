ghost use Rattle.std.specs.Prelude.{◌≡◌, ◌≢◌, ◌<◌, ◌≤◌, ◌+◌, Err, length, true, IfOk, OnOk, IsErrOf};
ghost use Rattle.std.specs.Io.KnownBytes.{Consumes, IsAtEnd};
ghost use Rattle.outside_io.specs.Causes.{Rose, RoseByOne};
ghost use Rattle.outside_io.specs.Given.{GaveAtMost, GaveExactly};

use crate::source::Source;
use lists::NoMemory;
use std::alloc::{AllocError, Global};

/// How many bytes an input has at most.
pub const LIMIT: usize = 4_194_304;

/// How many bytes are asked for at once.
const ROOM: usize = 16_384;

/// Why an input was not read.
#[derive(Clone, Copy, Debug, PartialEq, Eq)]
pub enum ReadRefusal {
    /// No memory was found.
    NoMemory,
    /// The source failed.
    ReadFault,
    /// The source gave more bytes than an input may have.
    TooLong,
}

impl From<AllocError> for ReadRefusal {
    ghost use Rattle.outside_io.specs.declared.reading.ReadRefusal.TheVariants.{NoMemory};

    ghost from_gives = { λ _ e. e ≡ NoMemory };

    fn from(_: AllocError) -> ReadRefusal {
        ReadRefusal::NoMemory
    }
}

impl From<NoMemory> for ReadRefusal {
    ghost use Rattle.outside_io.specs.declared.reading.ReadRefusal.TheVariants.{NoMemory};

    ghost from_gives = { λ _ e. e ≡ NoMemory };

    fn from(_: NoMemory) -> ReadRefusal {
        ReadRefusal::NoMemory
    }
}

// How many bytes are asked for after so many: no more than one above the limit in all.
fn wanted_at(have: usize) -> usize
    requires { have ≤ LIMIT }
    ensures some { 0 < result }
    ensures fits { result ≤ ROOM }
    ensures most { have + result ≤ LIMIT + 1 }
{
    ROOM.min(LIMIT + 1 - have)
}

/// Reads a source to its end. It first takes memory for the longest input: where none is found, nothing is read. It takes at most
/// one byte more than the limit, and each turn takes at least one.
pub fn read_all<S: Source>(alloc: Global, source: &mut S) -> Result<Vec<u8>, ReadRefusal>
    ensures bytes { IfOk result (λ input.
        Consumes (S.left source.old) (S.left source.new) input.items) }
    ensures ended { OnOk result (IsAtEnd (S.left source.new)) }
    ensures short { IfOk result (λ input. length input.items ≤ LIMIT) }
    ensures unread { IsErrOf result ReadRefusal.NoMemory → source.new ≡ source.old }
    // the last read is the one that failed, which came before the limit was passed
    ensures stopped { IsErrOf result ReadRefusal.ReadFault → S.failed source.new ≡ true }
    ensures counted { IsErrOf result ReadRefusal.ReadFault
        → RoseByOne S.last (S.faults source.old) (S.faults source.new) }
    ensures fault { IsErrOf result ReadRefusal.ReadFault
        → Rose S.last (S.faults source.old) (S.faults source.new) }
    ensures first { IsErrOf result ReadRefusal.ReadFault
        → GaveAtMost LIMIT (S.left source.old) (S.left source.new) }
    ensures long { IsErrOf result ReadRefusal.TooLong
        → GaveExactly (LIMIT + 1) (S.left source.old) (S.left source.new) }
    ensures most { GaveAtMost (LIMIT + 1) (S.left source.old) (S.left source.new) }
    ensures calm { result ≢ Err ReadRefusal.ReadFault → S.faults source.new ≡ S.faults source.old }
    ensures later { S.faults source.old ≤ S.faults source.new }
{
    let mut input = Vec::with_capacity(alloc, LIMIT + 1)?;
    let mut room = [0u8; ROOM];
    for _ in 0..LIMIT + 1 {
        let wanted = wanted_at(input.len());
        match source.read(&mut room[..wanted]) {
            Err(_) => return Err(ReadRefusal::ReadFault),
            Ok(0) => return Ok(input),
            Ok(count) => {
                let _ = input.extend_from_slice(&room[..count]);
                if input.len() > LIMIT {
                    return Err(ReadRefusal::TooLong);
                }
            }
        }
    }
    Err(ReadRefusal::TooLong)
}
