ghost use Rattle.std.specs.Prelude.{◌≡◌, ◌≤◌, length, take, IfOk, OnOk, OnErr};
ghost use Rattle.outside_io.specs.Causes.{Rose};
ghost use Rattle.exact_input.specs.Counts.{GaveUpTo, GaveFewer};

use outside_io::{Failed, Source};

/// Reads bytes until the room is full or the input ends, and answers how many. It reads none behind them. What it read before the source
/// failed is lost.
pub fn fill<S: Source>(source: &mut S, room: &mut [u8]) -> Result<usize, Failed>
    ensures count { IfOk result (λ count. count ≤ length room.new) }
    ensures len { length room.new ≡ length room.old }
    ensures bytes { IfOk result (λ count. GaveUpTo (length room.new) (S.left source.old)
        (S.left source.new) (take count room.new)) }
    ensures fewer { OnErr result (GaveFewer (length room.old) (S.left source.old) (S.left source.new)) }
    ensures cause { OnErr result (Rose S.last (S.faults source.old) (S.faults source.new)) }
    ensures calm { OnOk result (S.faults source.new ≡ S.faults source.old) }
    ensures later { S.faults source.old ≤ S.faults source.new }
{
    let mut count = 0;
    while count < room.len() {
        match source.read(&mut room[count..])? {
            0 => return Ok(count),
            more => count += more,
        }
    }
    Ok(count)
}
