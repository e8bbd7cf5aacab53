ghost use Rattle.std.specs.Prelude.{◌≡◌, ◌⊎◌, ◌≤◌, ◌<◌, ◌^◌, false, length, IsTrue, IfOk, IfErr};
ghost use Rattle.sqlite_disk.specs.Disk.{MoreFaults};
ghost use Rattle.slab_layout.specs.Shapes.{data_len, slab_len};
ghost use Rattle.slab_reading.specs.Opened.{SlotFits, SlotDataFit, IsNoHead, IfReadFailed};
ghost use Rattle.slab_reading.specs.Reading.{OnlyReads};

use crate::fault::ReadFault;
use crate::piece::{read_piece, zeros};
use crate::version::read_data;
use slab_codec::{HEAD_LEN, read_head};
use slab_file::SlabFile;
use slab_layout::Shape;
use std::alloc::Global;

/// Reads the head and the data of a slot, and tells whether both fit their checks. Nothing is written.
pub fn check_slot<F: SlabFile>(
    alloc: Global,
    file: &mut F,
    shape: Shape,
    key: u64,
    slot: u64,
) -> Result<bool, ReadFault>
    requires usable { IsTrue (F.SlabFile.is_usable file.old) }
    requires small { slab_len shape < 2 ^ 63 }
    requires slot { slot < shape.count }
    requires some { 0 < data_len shape }
    ensures fits { IfOk result (λ fits. IsTrue fits → IsTrue (F.SlabFile.is_clean file.new)
        → SlotFits shape key (F.SlabFile.seen file.old) slot) }
    // where the file is clean and head and data fit, they are only found damaged with a fault
    ensures damaged { IfOk result (λ fits. fits ≡ false → IsTrue (F.SlabFile.is_clean file.new)
        → IsNoHead shape key (F.SlabFile.seen file.old) slot
        ⊎ (slab_len shape ≤ length (F.SlabFile.seen file.old)
        → SlotDataFit shape key (F.SlabFile.seen file.old) slot
        → MoreFaults (F.SlabFile.faults file.old) (F.SlabFile.faults file.new))) }
    ensures cause { IfErr result (IfReadFailed (IsTrue (F.SlabFile.is_clean file.new)
        → slab_len shape ≤ length (F.SlabFile.seen file.old)
        → MoreFaults (F.SlabFile.faults file.old) (F.SlabFile.faults file.new))) }
    ensures reads { OnlyReads F.SlabFile.seen F.SlabFile.may_leave F.SlabFile.moment
        F.SlabFile.left_since F.SlabFile.is_usable F.SlabFile.is_clean file.old file.new }
{
    let bytes = read_piece(alloc, file, shape.head_at(slot), HEAD_LEN)?;
    let Some(head) = read_head(key, &bytes) else {
        return Ok(false);
    };
    let mut room = zeros(alloc, shape.data_len() as usize)?;
    read_data(file, key, head.data_check, shape.data_at(slot), &mut room)
}
