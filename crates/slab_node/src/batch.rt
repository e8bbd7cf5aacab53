//! How a batch of versions gets into a slab.

ghost use Rattle.std.specs.Prelude.{◌≡◌, ◌⊎◌, ◌≤◌, ◌<◌, ◌^◌, ℕ, Bool, true, List, length, All, IsTrue, OnOk, IfErr};
ghost use Rattle.sqlite_disk.specs.Disk.{Only, CountsFault};
ghost use Rattle.disk_model.specs.Crash.{LeavesOnly};
ghost use Rattle.slab_layout.specs.Shapes.{is_marked, data_len, slab_len};
ghost use Rattle.slab_node.specs.Left.{nothing};
ghost use Rattle.slab_node.specs.Changes.{ChangesOnly};
ghost use Rattle.slab_node.specs.Batches.{HasSizes, IsThere, AreApart, is_in, IsMidway, IsWritten};
ghost use Rattle.slab_node.specs.Faults.{IfUnwritten};

use crate::batch_fault::BatchFault;
use slab_file::{FileFault, SlabFile};
use slab_layout::Shape;

/// A version that gets a slot: the bytes of its head and its data.
#[derive(Drop)]
pub struct Fresh {
    pub slot: u64,
    pub head: Vec<u8>,
    pub data: Vec<u8>,
}

/// Writes the heads and the data of versions into free slots. Nothing of them is safe at the return.
pub fn put_bodies<F: SlabFile>(file: &mut F, shape: Shape, batch: &[Fresh]) -> Result<(), FileFault>
    requires usable { IsTrue (F.SlabFile.is_usable file.old) }
    requires long { IsTrue (F.SlabFile.is_clean file.old)
        → slab_len shape ≤ length (F.SlabFile.seen file.old) }
    requires small { slab_len shape < 2 ^ 63 }
    requires sizes { All (λ f. HasSizes shape f) batch.now }
    requires some { 0 < data_len shape }
    requires apart { AreApart batch.now }
    ensures there { OnOk result (IsTrue (F.SlabFile.is_clean file.new)
        → All (λ f. IsThere shape (F.SlabFile.seen file.new) f) batch.now) }
    ensures longer { length (F.SlabFile.seen file.old) ≤ length (F.SlabFile.seen file.new) }
    // nothing but these heads and data changes
    ensures bytes { ChangesOnly shape (is_in batch.now) nothing nothing
        (F.SlabFile.seen file.old) (F.SlabFile.seen file.new) }
    ensures usable { IsTrue (F.SlabFile.is_usable file.new) }
    ensures clean { F.SlabFile.is_clean file.new ≡ F.SlabFile.is_clean file.old }
    ensures cause { CountsFault result (F.SlabFile.faults file.old) (F.SlabFile.faults file.new) }
    // nor in what a crash at any moment leaves, beside marks that aren't safe
    ensures any_moment { (loose : ℕ → Bool)
        → ((c : List ℕ) → F.SlabFile.may_leave file.old c
        → ChangesOnly shape nothing loose nothing (F.SlabFile.seen file.old) c)
        → LeavesOnly F.SlabFile.moment F.SlabFile.left_since file.old file.new
        (ChangesOnly shape (is_in batch.now) loose nothing (F.SlabFile.seen file.old)) }
{
    for fresh in batch {
        put_body(file, shape, fresh)?;
    }
    Ok(())
}

// Writes the head and the data of one version into its slot.
fn put_body<F: SlabFile>(file: &mut F, shape: Shape, fresh: &Fresh) -> Result<(), FileFault>
    requires usable { IsTrue (F.SlabFile.is_usable file.old) }
    requires long { IsTrue (F.SlabFile.is_clean file.old)
        → slab_len shape ≤ length (F.SlabFile.seen file.old) }
    requires small { slab_len shape < 2 ^ 63 }
    requires sizes { HasSizes shape fresh.now }
    requires some { 0 < data_len shape }
    ensures there { OnOk result (IsTrue (F.SlabFile.is_clean file.new)
        → IsThere shape (F.SlabFile.seen file.new) fresh.now) }
    ensures others { OnOk result ((other : Fresh) → IsTrue (F.SlabFile.is_clean file.new)
        → other.slot < shape.count → (other.slot ≡ fresh.now.slot → ⊥)
        → IsThere shape (F.SlabFile.seen file.old) other
        → IsThere shape (F.SlabFile.seen file.new) other) }
    ensures longer { length (F.SlabFile.seen file.old) ≤ length (F.SlabFile.seen file.new) }
    ensures bytes { (bodies : ℕ → Bool) (base : List ℕ) → bodies fresh.now.slot ≡ true
        → ChangesOnly shape bodies nothing nothing base (F.SlabFile.seen file.old)
        → ChangesOnly shape bodies nothing nothing base (F.SlabFile.seen file.new) }
    ensures usable { IsTrue (F.SlabFile.is_usable file.new) }
    ensures clean { F.SlabFile.is_clean file.new ≡ F.SlabFile.is_clean file.old }
    ensures cause { CountsFault result (F.SlabFile.faults file.old) (F.SlabFile.faults file.new) }
    ensures any_moment { (bodies loose : ℕ → Bool) (base : List ℕ)
        → bodies fresh.now.slot ≡ true
        → ((c : List ℕ) → F.SlabFile.may_leave file.old c
        → ChangesOnly shape bodies loose nothing base c)
        → LeavesOnly F.SlabFile.moment F.SlabFile.left_since file.old file.new
        (ChangesOnly shape bodies loose nothing base) }
{
    file.write_at(shape.head_at(fresh.slot), &fresh.head)?;
    file.write_at(shape.data_at(fresh.slot), &fresh.data)
}

/// Marks the slots of versions whose heads and data are safe. No mark is safe at the return.
pub fn put_marks<F: SlabFile>(file: &mut F, shape: Shape, batch: &[Fresh]) -> Result<(), FileFault>
    requires usable { IsTrue (F.SlabFile.is_usable file.old) }
    requires long { IsTrue (F.SlabFile.is_clean file.old)
        → slab_len shape ≤ length (F.SlabFile.seen file.old) }
    requires small { slab_len shape < 2 ^ 63 }
    requires slots { All (λ f. HasSizes shape f) batch.now }
    ensures marked { OnOk result (IsTrue (F.SlabFile.is_clean file.new)
        → All (λ f. is_marked shape (F.SlabFile.seen file.new) f.slot ≡ true) batch.now) }
    // nothing but the marks of these slots changes
    ensures bytes { ChangesOnly shape nothing (is_in batch.now) nothing
        (F.SlabFile.seen file.old) (F.SlabFile.seen file.new) }
    ensures usable { IsTrue (F.SlabFile.is_usable file.new) }
    ensures clean { F.SlabFile.is_clean file.new ≡ F.SlabFile.is_clean file.old }
    ensures cause { CountsFault result (F.SlabFile.faults file.old) (F.SlabFile.faults file.new) }
    // nor in what a crash at any moment leaves
    ensures any_moment { Only (F.SlabFile.seen file.old) (F.SlabFile.may_leave file.old)
        → LeavesOnly F.SlabFile.moment F.SlabFile.left_since file.old file.new
        (ChangesOnly shape nothing (is_in batch.now) nothing (F.SlabFile.seen file.old)) }
{
    for fresh in batch {
        file.write_at(shape.mark_at(fresh.slot), &[1])?;
    }
    Ok(())
}

// Makes what was written safe, marks the slots, and makes the marks safe.
fn mark_batch<F: SlabFile>(file: &mut F, shape: Shape, batch: &[Fresh]) -> Result<(), FileFault>
    requires usable { IsTrue (F.SlabFile.is_usable file.old) }
    requires long { IsTrue (F.SlabFile.is_clean file.old)
        → slab_len shape ≤ length (F.SlabFile.seen file.old) }
    requires small { slab_len shape < 2 ^ 63 }
    requires sizes { All (λ f. HasSizes shape f) batch.now }
    ensures marked { OnOk result (IsTrue (F.SlabFile.is_clean file.new)
        → All (λ f. is_marked shape (F.SlabFile.seen file.new) f.slot ≡ true) batch.now) }
    ensures bytes { OnOk result (ChangesOnly shape nothing (is_in batch.now) nothing
        (F.SlabFile.seen file.old) (F.SlabFile.seen file.new)) }
    ensures safe { OnOk result (Only (F.SlabFile.seen file.new) (F.SlabFile.may_leave file.new)) }
    ensures usable { OnOk result (IsTrue (F.SlabFile.is_usable file.new)) }
    ensures clean { F.SlabFile.is_clean file.new ≡ F.SlabFile.is_clean file.old }
    ensures cause { CountsFault result (F.SlabFile.faults file.old) (F.SlabFile.faults file.new) }
    // a crash leaves what it could leave before, or nothing but the marks of these slots is other than was written
    ensures any_moment { LeavesOnly F.SlabFile.moment F.SlabFile.left_since file.old file.new
        (λ c. F.SlabFile.may_leave file.old c
        ⊎ ChangesOnly shape nothing (is_in batch.now) nothing (F.SlabFile.seen file.old) c) }
{
    file.sync()?;
    put_marks(file, shape, batch)?;
    file.sync()
}

/// Writes a batch of versions into free slots, for two syncs. They are safe at the return.
pub fn write_batch<F: SlabFile>(
    file: &mut F,
    shape: Shape,
    batch: &[Fresh],
) -> Result<(), BatchFault>
    requires usable { IsTrue (F.SlabFile.is_usable file.old) }
    requires long { IsTrue (F.SlabFile.is_clean file.old)
        → slab_len shape ≤ length (F.SlabFile.seen file.old) }
    requires small { slab_len shape < 2 ^ 63 }
    requires sizes { All (λ f. HasSizes shape f) batch.now }
    requires some { 0 < data_len shape }
    requires apart { AreApart batch.now }
    ensures written { OnOk result (IsTrue (F.SlabFile.is_clean file.new)
        → IsWritten shape nothing batch.now
        (F.SlabFile.seen file.old) (F.SlabFile.seen file.new)) }
    ensures safe { OnOk result (Only (F.SlabFile.seen file.new) (F.SlabFile.may_leave file.new)) }
    ensures usable { OnOk result (IsTrue (F.SlabFile.is_usable file.new)) }
    // the marks are as they were
    ensures unwritten { IfErr result (IfUnwritten (IsTrue (F.SlabFile.is_usable file.new)
        × ChangesOnly shape (is_in batch.now) nothing nothing
        (F.SlabFile.seen file.old) (F.SlabFile.seen file.new))) }
    ensures clean { F.SlabFile.is_clean file.new ≡ F.SlabFile.is_clean file.old }
    ensures cause { CountsFault result (F.SlabFile.faults file.old) (F.SlabFile.faults file.new) }
    // a crash at any moment leaves marks of the batch only with its heads and data
    ensures any_moment { (loose : ℕ → Bool) → IsTrue (F.SlabFile.is_clean file.new)
        → ((c : List ℕ) → F.SlabFile.may_leave file.old c
        → ChangesOnly shape nothing loose nothing (F.SlabFile.seen file.old) c)
        → LeavesOnly F.SlabFile.moment F.SlabFile.left_since file.old file.new
        (IsMidway shape loose batch.now (F.SlabFile.seen file.old)) }
{
    if let Err(fault) = put_bodies(file, shape, batch) {
        return Err(BatchFault::Unwritten(fault));
    }
    match mark_batch(file, shape, batch) {
        Ok(()) => Ok(()),
        Err(_) => Err(BatchFault::Broken),
    }
}
