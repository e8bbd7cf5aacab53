ghost use Rattle.std.specs.Prelude.{◌≡◌, ◌≤◌, ◌<◌, ◌^◌, true, length, IsTrue, IfOk, IfErr, OnOk};
ghost use Rattle.sqlite_disk.specs.Disk.{MoreFaults};
ghost use Rattle.slab_layout.specs.Shapes.{is_marked, slab_len};
ghost use Rattle.slab_index.specs.Slots.{IsIndexOf};
ghost use Rattle.slab_reading.specs.Opened.{AreFree, IsLastNumber, HeadsFit, IsNoHead, IfDamaged, IfFailed, IsOpenedFrom};
ghost use Rattle.slab_reading.specs.Reading.{OnlyReads};

use crate::fault::OpenFault;
use crate::opened::Opened;
use crate::run::read_run;
use slab_file::SlabFile;
use slab_layout::Shape;
use std::alloc::Global;

/// How many slots are read at a time.
const RUN: u64 = 1024;

/// Reads what the marks of a slab and the heads of its marked slots tell. A marked slot of a block that there isn't is
/// left out of the index, and it isn't free. Nothing is written.
pub fn read_index<F: SlabFile>(
    alloc: Global,
    file: &mut F,
    shape: Shape,
    key: u64,
) -> Result<Opened, OpenFault>
    requires usable { IsTrue (F.SlabFile.is_usable file.old) }
    requires small { slab_len shape < 2 ^ 63 }
    requires few { shape.count ≤ 2 ^ 32 }
    ensures index { IfOk result (λ opened. IsTrue (F.SlabFile.is_clean file.new)
        → IsIndexOf shape (F.SlabFile.seen file.old) opened.index) }
    ensures free { IfOk result (λ opened. IsTrue (F.SlabFile.is_clean file.new)
        → AreFree shape (F.SlabFile.seen file.old) opened.free.items) }
    ensures last { IfOk result (λ opened. IsTrue (F.SlabFile.is_clean file.new)
        → IsLastNumber shape (F.SlabFile.seen file.old) opened.last_number) }
    ensures heads { OnOk result (IsTrue (F.SlabFile.is_clean file.new)
        → HeadsFit shape key (F.SlabFile.seen file.old)) }
    ensures damaged { IfErr result (IfDamaged (λ slot. (slot < shape.count)
        × (IsTrue (F.SlabFile.is_clean file.new)
        → (is_marked shape (F.SlabFile.seen file.old) slot ≡ true)
        × IsNoHead shape key (F.SlabFile.seen file.old) slot))) }
    ensures cause { IfErr result (IfFailed (IsTrue (F.SlabFile.is_clean file.new)
        → slab_len shape ≤ length (F.SlabFile.seen file.old)
        → MoreFaults (F.SlabFile.faults file.old) (F.SlabFile.faults file.new))) }
    ensures reads { OnlyReads F.SlabFile.seen F.SlabFile.may_leave F.SlabFile.moment
        F.SlabFile.left_since F.SlabFile.is_usable F.SlabFile.is_clean file.old file.new }
{
    let mut opened = Opened::empty(alloc, shape)?;
    read_runs(alloc, file, shape, key, &mut opened)?;
    Ok(opened)
}

// Reads all slots, a run of them at a time, the last run first.
fn read_runs<F: SlabFile>(
    alloc: Global,
    file: &mut F,
    shape: Shape,
    key: u64,
    opened: &mut Opened,
) -> Result<(), OpenFault>
    requires usable { IsTrue (F.SlabFile.is_usable file.old) }
    requires small { slab_len shape < 2 ^ 63 }
    requires few { shape.count ≤ 2 ^ 32 }
    requires count { length opened.old.free.items ≡ shape.count }
    ensures opened { OnOk result (IsTrue (F.SlabFile.is_clean file.new)
        → IsOpenedFrom shape key (F.SlabFile.seen file.old) shape.count opened.old
        → IsOpenedFrom shape key (F.SlabFile.seen file.old) 0 opened.new) }
    ensures damaged { IfErr result (IfDamaged (λ slot. (slot < shape.count)
        × (IsTrue (F.SlabFile.is_clean file.new)
        → (is_marked shape (F.SlabFile.seen file.old) slot ≡ true)
        × IsNoHead shape key (F.SlabFile.seen file.old) slot))) }
    ensures cause { IfErr result (IfFailed (IsTrue (F.SlabFile.is_clean file.new)
        → slab_len shape ≤ length (F.SlabFile.seen file.old)
        → MoreFaults (F.SlabFile.faults file.old) (F.SlabFile.faults file.new))) }
    ensures reads { OnlyReads F.SlabFile.seen F.SlabFile.may_leave F.SlabFile.moment
        F.SlabFile.left_since F.SlabFile.is_usable F.SlabFile.is_clean file.old file.new }
{
    for i in 0..shape.count.div_ceil(RUN) {
        let end = shape.count - RUN * i;
        read_run(
            alloc,
            file,
            shape,
            key,
            end.saturating_sub(RUN),
            end,
            opened,
        )?;
    }
    Ok(())
}
