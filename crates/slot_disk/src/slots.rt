ghost use Rattle.std.specs.Prelude.{◌≡◌, ◌≤◌, ◌<◌, ◌+◌, ◌-◌, ◌*◌, ◌^◌, [], ◌∷◌, ◌++◌, length, OnOk, slice_index};
ghost use Rattle.outside_io.specs.Causes.{HasCause};
ghost use Rattle.disk_model.specs.Crash.{settled, LeavesOnly};
ghost use Rattle.slot_disk.specs.Bodies.{bodies, bodies_in, IsClosedAt, AreWithFirst};
ghost use Rattle.slot_disk.specs.Gates.{AreOpenBetween};

use disk_model::{Disk, DiskFault};

/// Adds so many slots behind so many open ones. The piece has the body of each, of so many bytes, and one byte 0 behind it; the gates
/// between the bodies are opened in it.
///
/// The bodies, the gates between them and the closed gate behind the last one are safe before the gate in front of them is opened by a
/// write of one byte, with which all of them are there.
pub fn add_slots<D: Disk>(
    disk: &mut D,
    body: u64,
    count: u64,
    more: u64,
    piece: &mut [u8],
) -> Result<(), DiskFault>
    requires settled { D.pending disk.old ≡ settled (D.seen disk.old) }
    requires closed { IsClosedAt body (D.seen disk.old) count }
    requires some { 1 ≤ more }
    requires whole { length piece.old ≡ more * (body + 1) }
    requires zero { slice_index piece.old (length piece.old - 1) ≡ 0 }
    requires room { (count + more) * (body + 1) + 1 ≤ D.most disk.old }
    ensures settled { OnOk result (D.pending disk.new ≡ settled (D.seen disk.new)) }
    ensures added { OnOk result (bodies body (D.seen disk.new)
        ≡ bodies body (D.seen disk.old) ++ bodies_in body more piece.old) }
    ensures closed { OnOk result (IsClosedAt body (D.seen disk.new) (count + more)) }
    ensures room { D.most disk.new ≡ D.most disk.old }
    // a crash at any moment of the call leaves the slots from before it, and the first few of the new ones behind them
    ensures any_moment { LeavesOnly D.moment D.left_since disk.old disk.new
        (AreWithFirst body (bodies body (D.seen disk.old)) (bodies_in body more piece.old)) }
    ensures cause { HasCause D.last (D.faults disk.old) (D.faults disk.new) result }
{
    let room = disk.room();
    let gate = gate_at(body, count, more, room);
    open_between(piece, body, more);
    disk.write_at(gate + 1, piece)?;
    disk.sync()?;
    disk.write_at(gate, &[1])?;
    disk.sync()
}

// Opens the gates between so many bodies of a piece.
fn open_between(piece: &mut [u8], body: u64, more: u64)
    requires whole { length piece.old ≡ more * (body + 1) }
    ensures len { length piece.new ≡ length piece.old }
    ensures bodies { bodies_in body more piece.new ≡ bodies_in body more piece.old }
    ensures opened { AreOpenBetween body more piece.new }
    ensures last { slice_index piece.new (length piece.old - 1)
        ≡ slice_index piece.old (length piece.old - 1) }
{
    for k in 1..more {
        piece[(k * (body + 1) - 1) as usize] = 1;
    }
}

// Where the gate of a slot stands, when that slot and the others up to so many more fit a room.
fn gate_at(body: u64, count: u64, more: u64, room: u64) -> u64
    requires fits { (count + more) * (body + 1) + 1 ≤ room }
    requires some { 1 ≤ more }
    requires small { room < 2 ^ 63 }
    ensures gate { result ≡ count * (body + 1) }
    ensures below { result < room }
{
    count * (body + 1)
}
