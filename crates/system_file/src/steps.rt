//! What is asked of a file, by its calls, each of which may do a part.
ghost use Rattle.std.specs.Prelude.{◌≡◌, ◌≤◌, ◌<◌, ◌+◌, ◌^◌, List, ℕ, length, IsTrue, OnOk};
ghost use Rattle.sqlite_disk.specs.Disk.{Holds, CountsFault, CountsFaultIf};
ghost use Rattle.sqlite_disk.specs.Events.{replay};
ghost use Rattle.system_file.specs.Doings.{LooksOnly, WritesAt, Lengthens};

use sqlite_disk::Calls;
use std::io;

/// Fills the room with the bytes from a place on.
pub(crate) fn read_whole<C: Calls>(calls: &mut C, at: usize, room: &mut [u8]) -> io::Result<()>
    ensures some { (start : List ℕ)
        → LooksOnly start (C.Calls.history calls.old) (C.Calls.history calls.new) }
    ensures read { OnOk result ((start : List ℕ)
        → IsTrue (replay start (C.Calls.history calls.new)).is_honest
        → 0 < length room.old → Holds (replay start (C.Calls.history calls.old)).seen at room.new) }
    ensures faults { (start : List ℕ) → CountsFaultIf
        (IsTrue (replay start (C.Calls.history calls.old)).is_honest
        → at + length room.old ≤ length (replay start (C.Calls.history calls.old)).seen) result
        (replay start (C.Calls.history calls.old)).faults (replay start (C.Calls.history calls.new)).faults }
{
    let mut done = 0;
    while done < room.len() {
        done += calls.read_some(at.saturating_add(done), &mut room[done..])?;
    }
    Ok(())
}

/// Writes all of a piece from a place on.
pub(crate) fn write_whole<C: Calls>(calls: &mut C, at: usize, piece: &[u8]) -> io::Result<()>
    ensures some { (start : List ℕ)
        → WritesAt at (length piece.now) start (C.Calls.history calls.old) (C.Calls.history calls.new) }
    ensures written { OnOk result ((start : List ℕ) → 0 < length piece.now
        → Holds (replay start (C.Calls.history calls.new)).seen at piece.now) }
    ensures faults { (start : List ℕ) → CountsFault result
        (replay start (C.Calls.history calls.old)).faults (replay start (C.Calls.history calls.new)).faults }
{
    let mut done = 0;
    while done < piece.len() {
        done += calls.write_some(at.saturating_add(done), &piece[done..])?;
    }
    Ok(())
}

/// Sets the length, if the file is shorter.
pub(crate) fn make_longer<C: Calls>(calls: &mut C, len: usize) -> io::Result<()>
    ensures some { (start : List ℕ)
        → Lengthens len start (C.Calls.history calls.old) (C.Calls.history calls.new) }
    ensures long { OnOk result ((start : List ℕ)
        → IsTrue (replay start (C.Calls.history calls.new)).is_honest
        → len ≤ length (replay start (C.Calls.history calls.new)).seen) }
    ensures faults { (start : List ℕ) → CountsFault result
        (replay start (C.Calls.history calls.old)).faults (replay start (C.Calls.history calls.new)).faults }
{
    if calls.len()? < len {
        calls.resize(len)?;
    }
    Ok(())
}
