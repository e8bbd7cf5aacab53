//! How marks are taken away, and how a node stops to answer for blocks.

ghost use Rattle.std.specs.Prelude.{◌≡◌, ◌≤◌, ◌<◌, ◌^◌, ◌==◌, ℕ, List, length, All, IsTrue, OnOk};
ghost use Rattle.sqlite_disk.specs.Disk.{Only, CountsFault};
ghost use Rattle.disk_model.specs.Crash.{LeavesOnly};
ghost use Rattle.slab_layout.specs.Shapes.{answers_for, slab_len};
ghost use Rattle.slab_node.specs.Left.{nothing};
ghost use Rattle.slab_node.specs.Changes.{ChangesOnly, AreUnmarked, is_among};

use slab_file::{FileFault, SlabFile};
use slab_layout::Shape;

/// Takes the marks of slots away. Nothing of it is safe at the return.
pub fn clear_marks<F: SlabFile>(file: &mut F, shape: Shape, slots: &[u64]) -> Result<(), FileFault>
    requires usable { IsTrue (F.SlabFile.is_usable file.old) }
    requires long { IsTrue (F.SlabFile.is_clean file.old)
        → slab_len shape ≤ length (F.SlabFile.seen file.old) }
    requires small { slab_len shape < 2 ^ 63 }
    requires slots { All (λ i. i < shape.count) slots.now }
    ensures cleared { OnOk result (IsTrue (F.SlabFile.is_clean file.new)
        → AreUnmarked shape (is_among slots.now) (F.SlabFile.seen file.new)) }
    // nothing but the marks of these slots changes
    ensures bytes { ChangesOnly shape nothing (is_among slots.now) nothing
        (F.SlabFile.seen file.old) (F.SlabFile.seen file.new) }
    ensures usable { IsTrue (F.SlabFile.is_usable file.new) }
    ensures clean { F.SlabFile.is_clean file.new ≡ F.SlabFile.is_clean file.old }
    ensures cause { CountsFault result (F.SlabFile.faults file.old) (F.SlabFile.faults file.new) }
    // nor in what a crash at any moment leaves
    ensures any_moment { Only (F.SlabFile.seen file.old) (F.SlabFile.may_leave file.old)
        → LeavesOnly F.SlabFile.moment F.SlabFile.left_since file.old file.new
        (ChangesOnly shape nothing (is_among slots.now) nothing (F.SlabFile.seen file.old)) }
    // a crash at the return leaves each of these marks as it was or taken away
    ensures left { IsTrue (F.SlabFile.is_clean file.new)
        → Only (F.SlabFile.seen file.old) (F.SlabFile.may_leave file.old)
        → (c : List ℕ) → F.SlabFile.may_leave file.new c
        → ChangesOnly shape nothing (is_among slots.now) nothing (F.SlabFile.seen file.new) c }
{
    for slot in slots {
        file.write_at(shape.mark_at(*slot), &[0])?;
    }
    Ok(())
}

/// Writes for which blocks the node answers: for each of these, or for none of them. Nothing of it is safe at the
/// return.
pub fn put_answers<F: SlabFile>(
    file: &mut F,
    shape: Shape,
    blocks: &[u32],
    answers: bool,
) -> Result<(), FileFault>
    requires usable { IsTrue (F.SlabFile.is_usable file.old) }
    requires long { IsTrue (F.SlabFile.is_clean file.old)
        → slab_len shape ≤ length (F.SlabFile.seen file.old) }
    requires small { slab_len shape < 2 ^ 63 }
    requires blocks { All (λ b. b < shape.blocks) blocks.now }
    ensures told { OnOk result (IsTrue (F.SlabFile.is_clean file.new)
        → All (λ b. answers_for shape (F.SlabFile.seen file.new) b ≡ answers) blocks.now) }
    // nothing else changes
    ensures bytes { ChangesOnly shape nothing nothing (is_among blocks.now)
        (F.SlabFile.seen file.old) (F.SlabFile.seen file.new) }
    ensures usable { IsTrue (F.SlabFile.is_usable file.new) }
    ensures clean { F.SlabFile.is_clean file.new ≡ F.SlabFile.is_clean file.old }
    ensures cause { CountsFault result (F.SlabFile.faults file.old) (F.SlabFile.faults file.new) }
    // nor in what a crash at any moment leaves
    ensures any_moment { Only (F.SlabFile.seen file.old) (F.SlabFile.may_leave file.old)
        → LeavesOnly F.SlabFile.moment F.SlabFile.left_since file.old file.new
        (ChangesOnly shape nothing nothing (is_among blocks.now) (F.SlabFile.seen file.old)) }
{
    let byte = answer_byte(answers);
    for block in blocks {
        file.write_at(shape.answer_at(u64::from(*block)), &[byte])?;
    }
    Ok(())
}

// The byte of a block for which the node answers, or doesn't.
fn answer_byte(answers: bool) -> u8
    ensures { (result == 1) ≡ answers }
{
    if answers { 1 } else { 0 }
}
