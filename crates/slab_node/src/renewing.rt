//! How blocks are renewed: what a node has of them is replaced.

ghost use Rattle.std.specs.Prelude.{◌≡◌, ◌≤◌, ◌<◌, ◌^◌, true, false, length, All, IsTrue, OnOk, IfErr};
ghost use Rattle.sqlite_disk.specs.Disk.{Only, CountsFault};
ghost use Rattle.disk_model.specs.Crash.{LeavesOnly};
ghost use Rattle.slab_layout.specs.Shapes.{answers_for, data_len, slab_len};
ghost use Rattle.slab_node.specs.Left.{nothing};
ghost use Rattle.slab_node.specs.Changes.{ChangesOnly, is_among};
ghost use Rattle.slab_node.specs.Batches.{HasSizes, AreApart};
ghost use Rattle.slab_node.specs.Renewals.{IsRewritten, IsRewrittenInPart};
ghost use Rattle.slab_node.specs.Faults.{IfUnwritten};

use crate::batch::Fresh;
use crate::batch_fault::BatchFault;
use crate::clearing::put_answers;
use crate::over::write_over;
use slab_file::{FileFault, SlabFile};
use slab_layout::Shape;

/// Renews blocks, for four syncs: the marks of slots are taken away, a batch of versions is written into free slots, and
/// then the node answers for these blocks. All of it is safe at the return. Until the batch is safe, the node answers
/// for none of these blocks, and neither does it after an error.
pub fn renew_blocks<F: SlabFile>(
    file: &mut F,
    shape: Shape,
    blocks: &[u32],
    going: &[u64],
    batch: &[Fresh],
) -> Result<(), BatchFault>
    requires usable { IsTrue (F.SlabFile.is_usable file.old) }
    requires long { IsTrue (F.SlabFile.is_clean file.old)
        → slab_len shape ≤ length (F.SlabFile.seen file.old) }
    requires small { slab_len shape < 2 ^ 63 }
    requires blocks { All (λ b. b < shape.blocks) blocks.now }
    requires going { All (λ i. i < shape.count) going.now }
    requires sizes { All (λ f. HasSizes shape f) batch.now }
    requires some { 0 < data_len shape }
    requires apart { AreApart batch.now }
    ensures rewritten { OnOk result (IsTrue (F.SlabFile.is_clean file.new)
        → IsRewritten shape (is_among blocks.now) (is_among going.now) batch.now
        (F.SlabFile.seen file.old) (F.SlabFile.seen file.new)) }
    ensures answered { OnOk result (IsTrue (F.SlabFile.is_clean file.new)
        → All (λ b. answers_for shape (F.SlabFile.seen file.new) b ≡ true) blocks.now) }
    ensures safe { OnOk result (Only (F.SlabFile.seen file.new) (F.SlabFile.may_leave file.new)) }
    ensures usable { OnOk result (IsTrue (F.SlabFile.is_usable file.new)) }
    ensures unwritten { IfErr result (IfUnwritten (IsTrue (F.SlabFile.is_usable file.new)
        × Only (F.SlabFile.seen file.new) (F.SlabFile.may_leave file.new))) }
    ensures clean { F.SlabFile.is_clean file.new ≡ F.SlabFile.is_clean file.old }
    ensures cause { CountsFault result (F.SlabFile.faults file.old) (F.SlabFile.faults file.new) }
    // so a crash at any moment leaves the old versions, or the node doesn't answer, or it answers from the new ones
    ensures any_moment { IsTrue (F.SlabFile.is_clean file.new)
        → Only (F.SlabFile.seen file.old) (F.SlabFile.may_leave file.old)
        → LeavesOnly F.SlabFile.moment F.SlabFile.left_since file.old file.new
        (IsRewrittenInPart shape (is_among blocks.now) (is_among going.now) batch.now
        (F.SlabFile.seen file.old)) }
{
    if let Err(_) = answer_safely(file, shape, blocks, false) {
        return Err(BatchFault::Broken);
    }
    write_over(file, shape, going, batch)?;
    match answer_safely(file, shape, blocks, true) {
        Ok(()) => Ok(()),
        Err(_) => Err(BatchFault::Broken),
    }
}

// Writes for which blocks the node answers, and makes it safe.
fn answer_safely<F: SlabFile>(
    file: &mut F,
    shape: Shape,
    blocks: &[u32],
    answers: bool,
) -> Result<(), FileFault>
    requires usable { IsTrue (F.SlabFile.is_usable file.old) }
    requires long { IsTrue (F.SlabFile.is_clean file.old)
        → slab_len shape ≤ length (F.SlabFile.seen file.old) }
    requires small { slab_len shape < 2 ^ 63 }
    requires blocks { All (λ b. b < shape.blocks) blocks.now }
    ensures told { OnOk result (IsTrue (F.SlabFile.is_clean file.new)
        → All (λ b. answers_for shape (F.SlabFile.seen file.new) b ≡ answers) blocks.now) }
    ensures bytes { ChangesOnly shape nothing nothing (is_among blocks.now)
        (F.SlabFile.seen file.old) (F.SlabFile.seen file.new) }
    ensures safe { OnOk result (Only (F.SlabFile.seen file.new) (F.SlabFile.may_leave file.new)) }
    ensures usable { OnOk result (IsTrue (F.SlabFile.is_usable file.new)) }
    ensures clean { F.SlabFile.is_clean file.new ≡ F.SlabFile.is_clean file.old }
    ensures cause { CountsFault result (F.SlabFile.faults file.old) (F.SlabFile.faults file.new) }
    ensures any_moment { Only (F.SlabFile.seen file.old) (F.SlabFile.may_leave file.old)
        → LeavesOnly F.SlabFile.moment F.SlabFile.left_since file.old file.new
        (ChangesOnly shape nothing nothing (is_among blocks.now) (F.SlabFile.seen file.old)) }
{
    put_answers(file, shape, blocks, answers)?;
    file.sync()
}
