//! How a batch of versions gets into a slab, while others leave it.

ghost use Rattle.std.specs.Prelude.{◌≡◌, ◌≤◌, ◌<◌, ◌^◌, true, length, All, IsTrue, OnOk, IfErr};
ghost use Rattle.sqlite_disk.specs.Disk.{Only, CountsFault, MoreFaults};
ghost use Rattle.disk_model.specs.Crash.{LeavesOnly};
ghost use Rattle.slab_layout.specs.Shapes.{data_len, slab_len};
ghost use Rattle.slab_node.specs.Left.{nothing};
ghost use Rattle.slab_node.specs.Changes.{ChangesOnly, AreUnmarked, is_among};
ghost use Rattle.slab_node.specs.Batches.{HasSizes, AreApart, is_in, IsMidwayOver, IsWritten};
ghost use Rattle.slab_node.specs.Faults.{IfUnwritten};

use crate::batch::{Fresh, write_batch};
use crate::batch_fault::BatchFault;
use crate::clearing::clear_marks;
use slab_file::{FileFault, SlabFile};
use slab_layout::Shape;

/// Takes the marks of slots away and writes a batch of versions into free slots, for two syncs. All of it is safe at
/// the return. Where heads or data can't be written, the marks are taken away for one more sync, and the file goes on.
pub fn write_over<F: SlabFile>(
    file: &mut F,
    shape: Shape,
    going: &[u64],
    batch: &[Fresh],
) -> Result<(), BatchFault>
    requires usable { IsTrue (F.SlabFile.is_usable file.old) }
    requires long { IsTrue (F.SlabFile.is_clean file.old)
        → slab_len shape ≤ length (F.SlabFile.seen file.old) }
    requires small { slab_len shape < 2 ^ 63 }
    requires going { All (λ i. i < shape.count) going.now }
    requires sizes { All (λ f. HasSizes shape f) batch.now }
    requires some { 0 < data_len shape }
    requires apart { AreApart batch.now }
    ensures written { OnOk result (IsTrue (F.SlabFile.is_clean file.new)
        → IsWritten shape (is_among going.now) batch.now
        (F.SlabFile.seen file.old) (F.SlabFile.seen file.new)) }
    ensures safe { OnOk result (Only (F.SlabFile.seen file.new) (F.SlabFile.may_leave file.new)) }
    ensures usable { OnOk result (IsTrue (F.SlabFile.is_usable file.new)) }
    // the marks are taken away all the same, and no other mark changes
    ensures unwritten { IfErr result (IfUnwritten (IsTrue (F.SlabFile.is_usable file.new)
        × ChangesOnly shape (is_in batch.now) (is_among going.now) nothing
        (F.SlabFile.seen file.old) (F.SlabFile.seen file.new)
        × (IsTrue (F.SlabFile.is_clean file.new)
        → AreUnmarked shape (is_among going.now) (F.SlabFile.seen file.new)))) }
    ensures unwritten_safe { IfErr result
        (IfUnwritten (Only (F.SlabFile.seen file.new) (F.SlabFile.may_leave file.new))) }
    ensures clean { F.SlabFile.is_clean file.new ≡ F.SlabFile.is_clean file.old }
    ensures cause { CountsFault result (F.SlabFile.faults file.old) (F.SlabFile.faults file.new) }
    // a crash at any moment leaves marks of the batch only with its heads and data, and where the others are gone
    ensures any_moment { IsTrue (F.SlabFile.is_clean file.new)
        → Only (F.SlabFile.seen file.old) (F.SlabFile.may_leave file.old)
        → LeavesOnly F.SlabFile.moment F.SlabFile.left_since file.old file.new
        (IsMidwayOver shape (is_among going.now) batch.now (F.SlabFile.seen file.old)) }
{
    if let Err(_) = clear_marks(file, shape, going) {
        return Err(BatchFault::Broken);
    }
    match write_batch(file, shape, batch) {
        Ok(()) => Ok(()),
        Err(BatchFault::Broken) => Err(BatchFault::Broken),
        Err(BatchFault::Unwritten(fault)) => Err(made_safe(file, fault)),
    }
}

// Makes what was written safe, where a batch couldn't be written. Answers why it wasn't.
fn made_safe<F: SlabFile>(file: &mut F, fault: FileFault) -> BatchFault
    requires usable { IsTrue (F.SlabFile.is_usable file.old) }
    ensures usable { IfUnwritten (IsTrue (F.SlabFile.is_usable file.new)) result }
    ensures safe { IfUnwritten (Only (F.SlabFile.seen file.new) (F.SlabFile.may_leave file.new))
        result }
    ensures bytes { F.SlabFile.seen file.new ≡ F.SlabFile.seen file.old }
    ensures clean { F.SlabFile.is_clean file.new ≡ F.SlabFile.is_clean file.old }
    ensures faults { F.SlabFile.faults file.old ≤ F.SlabFile.faults file.new }
    ensures any_moment { LeavesOnly F.SlabFile.moment F.SlabFile.left_since file.old file.new
        (F.SlabFile.may_leave file.old) }
{
    match file.sync() {
        Ok(()) => BatchFault::Unwritten(fault),
        Err(_) => BatchFault::Broken,
    }
}
