ghost use Rattle.std.specs.Prelude.{◌≡◌, ◌≤◌, ◌<◌, ◌+◌, ◌^◌, ◌==◌, false, length, IsTrue, IfOk, IfErr, IfSome, IfNone};
ghost use Rattle.sqlite_disk.specs.Disk.{Holds, MoreFaults};
ghost use Rattle.sqlite_disk.specs.Digest.{digest};
ghost use Rattle.slab_layout.specs.Shapes.{part, data_len, slab_len};
ghost use Rattle.slab_index.specs.Slots.{version_at};
ghost use Rattle.slab_reading.specs.Opened.{DataFit, IfReadFailed};
ghost use Rattle.slab_reading.specs.Reading.{OnlyReads};

use crate::fault::ReadFault;
use crate::piece::zeros;
use slab_codec::read_version;
use slab_file::SlabFile;
use slab_index::Kept;
use slab_layout::Shape;
use std::alloc::Global;
use wire_forms::Version;

/// Reads the version whose data a slot has, for the node of this number. None where the bytes that come don't fit their
/// check: the node has lost the version.
#[tactic(auto, using(crate::proofs::Pieces::data_were_read))]
pub fn read_slot<F: SlabFile>(
    alloc: Global,
    file: &mut F,
    shape: Shape,
    key: u64,
    number: u8,
    kept: &Kept,
) -> Result<Option<Version>, ReadFault>
    requires usable { IsTrue (F.SlabFile.is_usable file.old) }
    requires small { slab_len shape < 2 ^ 63 }
    requires nodes { shape.nodes < 2 ^ 32 }
    requires slot { kept.now.slot < shape.count }
    requires some { 0 < data_len shape }
    ensures version { IfOk result (λ found. IfSome found (λ version.
        IsTrue (F.SlabFile.is_clean file.new)
        → version ≡ version_at shape (F.SlabFile.seen file.old) kept.now)) }
    // where the file is clean and the data that it has fit, it isn't lost without a fault
    ensures lost { IfOk result (λ found. IfNone found (IsTrue (F.SlabFile.is_clean file.old)
        → slab_len shape ≤ length (F.SlabFile.seen file.old)
        → DataFit shape key (F.SlabFile.seen file.old) kept.now
        → MoreFaults (F.SlabFile.faults file.old) (F.SlabFile.faults file.new))) }
    ensures cause { IfErr result (IfReadFailed (IsTrue (F.SlabFile.is_clean file.new)
        → slab_len shape ≤ length (F.SlabFile.seen file.old)
        → MoreFaults (F.SlabFile.faults file.old) (F.SlabFile.faults file.new))) }
    ensures reads { OnlyReads F.SlabFile.seen F.SlabFile.may_leave F.SlabFile.moment
        F.SlabFile.left_since F.SlabFile.is_usable F.SlabFile.is_clean file.old file.new }
{
    let mut room = zeros(alloc, shape.data_len() as usize)?;
    let at = shape.data_at(u64::from(kept.slot));
    if !read_data(file, key, kept.data_check, at, &mut room)? {
        return Ok(None);
    }
    match read_version(alloc, shape.nodes as u32, number, &kept.stamp(), &room) {
        Ok(version) => Ok(Some(version)),
        Err(_) => Err(ReadFault::NoMemory),
    }
}

// Fills the room with the bytes from a place on, and tells whether they fit a check.
pub(crate) fn read_data<F: SlabFile>(
    file: &mut F,
    key: u64,
    check: u64,
    at: u64,
    room: &mut [u8],
) -> Result<bool, ReadFault>
    requires usable { IsTrue (F.SlabFile.is_usable file.old) }
    requires some { 0 < length room.old }
    ensures fits { IfOk result (λ fits. fits ≡ (digest key room.new == check)) }
    ensures read { IfOk result (λ fits. IsTrue fits → IsTrue (F.SlabFile.is_clean file.new)
        → Holds (F.SlabFile.seen file.old) at room.new) }
    ensures lost { IfOk result (λ fits. fits ≡ false → IsTrue (F.SlabFile.is_clean file.old)
        → at + length room.old ≤ length (F.SlabFile.seen file.old)
        → check ≡ digest key (part (F.SlabFile.seen file.old) at (length room.old))
        → MoreFaults (F.SlabFile.faults file.old) (F.SlabFile.faults file.new)) }
    ensures cause { IfErr result (IfReadFailed (IsTrue (F.SlabFile.is_clean file.new)
        → at + length room.old ≤ length (F.SlabFile.seen file.old)
        → MoreFaults (F.SlabFile.faults file.old) (F.SlabFile.faults file.new))) }
    ensures reads { OnlyReads F.SlabFile.seen F.SlabFile.may_leave F.SlabFile.moment
        F.SlabFile.left_since F.SlabFile.is_usable F.SlabFile.is_clean file.old file.new }
{
    match file.read_checked(key, check, at, room) {
        Ok(fits) => Ok(fits),
        Err(fault) => Err(ReadFault::Failed(fault)),
    }
}
