ghost use Rattle.std.specs.Prelude.{◌≡◌, ◌≤◌, ◌<◌, ◌+◌, length, IsTrue, IfOk, IfErr, OnOk};
ghost use Rattle.sqlite_disk.specs.Disk.{Holds, MoreFaults};
ghost use Rattle.slab_reading.specs.Opened.{IfReadFailed};
ghost use Rattle.slab_reading.specs.Reading.{OnlyReads};

use crate::fault::ReadFault;
use slab_file::SlabFile;
use std::alloc::Global;

/// Reads so many bytes from a place on. They are taken as the system gives them.
pub fn read_piece<F: SlabFile>(
    alloc: Global,
    file: &mut F,
    at: u64,
    len: usize,
) -> Result<Vec<u8>, ReadFault>
    requires { IsTrue (F.SlabFile.is_usable file.old) }
    ensures len { IfOk result (λ piece. length piece.items ≡ len) }
    ensures read { IfOk result (λ piece. IsTrue (F.SlabFile.is_clean file.new) → 0 < len
        → Holds (F.SlabFile.seen file.old) at piece.items) }
    // a call that fails is counted where the file is clean and has the bytes
    ensures calm { OnOk result (F.SlabFile.faults file.new ≡ F.SlabFile.faults file.old) }
    ensures cause { IfErr result (IfReadFailed (IsTrue (F.SlabFile.is_clean file.new)
        → at + len ≤ length (F.SlabFile.seen file.old)
        → MoreFaults (F.SlabFile.faults file.old) (F.SlabFile.faults file.new))) }
    ensures reads { OnlyReads F.SlabFile.seen F.SlabFile.may_leave F.SlabFile.moment
        F.SlabFile.left_since F.SlabFile.is_usable F.SlabFile.is_clean file.old file.new }
{
    let mut piece = zeros(alloc, len)?;
    fill(file, at, &mut piece)?;
    Ok(piece)
}

/// So many bytes that are 0.
pub fn zeros(alloc: Global, len: usize) -> Result<Vec<u8>, ReadFault>
    ensures len { IfOk result (λ piece. length piece.items ≡ len) }
    ensures cause { IfErr result (λ fault. fault ≡ ReadFault.NoMemory) }
{
    match vec![in alloc; 0u8; len] {
        Ok(piece) => Ok(piece),
        Err(_) => Err(ReadFault::NoMemory),
    }
}

// Fills the room with the bytes from a place on.
fn fill<F: SlabFile>(file: &mut F, at: u64, room: &mut [u8]) -> Result<(), ReadFault>
    requires { IsTrue (F.SlabFile.is_usable file.old) }
    ensures read { OnOk result (IsTrue (F.SlabFile.is_clean file.new) → 0 < length room.old
        → Holds (F.SlabFile.seen file.old) at room.new) }
    // a call that fails is counted where the file is clean and has the bytes
    ensures calm { OnOk result (F.SlabFile.faults file.new ≡ F.SlabFile.faults file.old) }
    ensures cause { IfErr result (IfReadFailed (IsTrue (F.SlabFile.is_clean file.new)
        → at + length room.old ≤ length (F.SlabFile.seen file.old)
        → MoreFaults (F.SlabFile.faults file.old) (F.SlabFile.faults file.new))) }
    ensures reads { OnlyReads F.SlabFile.seen F.SlabFile.may_leave F.SlabFile.moment
        F.SlabFile.left_since F.SlabFile.is_usable F.SlabFile.is_clean file.old file.new }
{
    match file.read_at(at, room) {
        Ok(()) => Ok(()),
        Err(fault) => Err(ReadFault::Failed(fault)),
    }
}
