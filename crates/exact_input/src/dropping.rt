ghost use Rattle.std.specs.Prelude.{◌≡◌, ◌≤◌, ◌↔◌, IsTrue, IfOk, OnOk, OnErr, length, List, ℕ};
ghost use Rattle.outside_io.specs.Causes.{Rose};
ghost use Rattle.exact_input.specs.Counts.{GaveUpTo, GaveFewer};

use outside_io::{Failed, Source};

/// How many bytes are asked for at once.
const ROOM: usize = 16_384;

/// Reads so many bytes and drops them. Where the input has fewer, it is read to its end, and the answer is false.
pub fn drop_bytes<S: Source>(source: &mut S, len: u32) -> Result<bool, Failed>
    ensures bytes { IfOk result (λ all.
        (bytes : List ℕ) × GaveUpTo len (S.left source.old) (S.left source.new) bytes
        × (IsTrue all ↔ (length bytes ≡ len))) }
    ensures cause { OnErr result (Rose S.last (S.faults source.old) (S.faults source.new)) }
    ensures fewer { OnErr result (GaveFewer len (S.left source.old) (S.left source.new)) }
    ensures calm { OnOk result (S.faults source.new ≡ S.faults source.old) }
    ensures later { S.faults source.old ≤ S.faults source.new }
{
    let len = len as usize;
    let mut dropped = 0;
    let mut room = [0u8; ROOM];
    while dropped < len {
        let wanted = ROOM.min(len - dropped);
        match source.read(&mut room[..wanted])? {
            0 => return Ok(false),
            count => dropped += count,
        }
    }
    Ok(true)
}
