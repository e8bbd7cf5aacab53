ghost use Rattle.std.specs.Prelude.{◌≡◌, ◌≤◌, ◌<◌, ◌+◌, ◌*◌, ◌^◌, ℕ, List, true, false, length, slice_index, IsTrue, IfOk, IfErr, OnOk};
ghost use Rattle.sqlite_disk.specs.Disk.{Holds, MoreFaults};
ghost use Rattle.slab_layout.specs.Shapes.{head_at, mark_at, is_marked, slab_len};
ghost use Rattle.slab_reading.specs.Opened.{AddsSlot, AreNoHead, IsRun, IsNoHead, IsOpenedFrom, IfDamaged, IfFailed, IfReadFailed};
ghost use Rattle.slab_reading.specs.Reading.{OnlyReads};

use crate::fault::{OpenFault, ReadFault};
use crate::opened::Opened;
use crate::piece::{read_piece, zeros};
use slab_codec::{HEAD_LEN, read_head};
use slab_file::SlabFile;
use slab_layout::Shape;
use std::alloc::Global;

/// Reads the marks of neighbouring slots, and their heads if any of them is marked, and adds what they tell.
pub(crate) fn read_run<F: SlabFile>(
    alloc: Global,
    file: &mut F,
    shape: Shape,
    key: u64,
    first: u64,
    end: u64,
    opened: &mut Opened,
) -> Result<(), OpenFault>
    requires usable { IsTrue (F.SlabFile.is_usable file.old) }
    requires small { slab_len shape < 2 ^ 63 }
    requires some { first < end }
    requires within { end ≤ shape.count }
    requires few { shape.count ≤ 2 ^ 32 }
    requires count { length opened.old.free.items ≡ shape.count }
    ensures opened { OnOk result (IsTrue (F.SlabFile.is_clean file.new)
        → IsOpenedFrom shape key (F.SlabFile.seen file.old) end opened.old
        → IsOpenedFrom shape key (F.SlabFile.seen file.old) first opened.new) }
    ensures damaged { IfErr result (IfDamaged (λ slot. (slot < shape.count)
        × (IsTrue (F.SlabFile.is_clean file.new)
        → (is_marked shape (F.SlabFile.seen file.old) slot ≡ true)
        × IsNoHead shape key (F.SlabFile.seen file.old) slot))) }
    ensures calm { OnOk result (F.SlabFile.faults file.new ≡ F.SlabFile.faults file.old) }
    ensures cause { IfErr result (IfFailed (IsTrue (F.SlabFile.is_clean file.new)
        → slab_len shape ≤ length (F.SlabFile.seen file.old)
        → MoreFaults (F.SlabFile.faults file.old) (F.SlabFile.faults file.new))) }
    ensures reads { OnlyReads F.SlabFile.seen F.SlabFile.may_leave F.SlabFile.moment
        F.SlabFile.left_since F.SlabFile.is_usable F.SlabFile.is_clean file.old file.new }
    ensures count { length opened.new.free.items ≡ shape.count }
{
    let marks = read_piece(alloc, file, shape.mark_at(first), (end - first) as usize)?;
    let heads = read_heads(alloc, file, shape, first, &marks)?;
    add_run(shape, key, first, &marks, &heads, opened)
}

// Reads the heads of neighbouring slots, if any of them is marked.
fn read_heads<F: SlabFile>(
    alloc: Global,
    file: &mut F,
    shape: Shape,
    first: u64,
    marks: &[u8],
) -> Result<Vec<u8>, ReadFault>
    requires usable { IsTrue (F.SlabFile.is_usable file.old) }
    requires small { slab_len shape < 2 ^ 63 }
    requires some { 0 < length marks.now }
    requires within { first + length marks.now ≤ shape.count }
    ensures len { IfOk result (λ heads. length heads.items ≡ 72 * length marks.now) }
    ensures read { IfOk result (λ heads. IsTrue (F.SlabFile.is_clean file.new)
        → (i : ℕ) → i < length marks.now → slice_index marks.now i ≡ 1
        → Holds (F.SlabFile.seen file.old) (head_at shape first) heads.items) }
    ensures calm { OnOk result (F.SlabFile.faults file.new ≡ F.SlabFile.faults file.old) }
    ensures cause { IfErr result (IfReadFailed (IsTrue (F.SlabFile.is_clean file.new)
        → slab_len shape ≤ length (F.SlabFile.seen file.old)
        → MoreFaults (F.SlabFile.faults file.old) (F.SlabFile.faults file.new))) }
    ensures reads { OnlyReads F.SlabFile.seen F.SlabFile.may_leave F.SlabFile.moment
        F.SlabFile.left_since F.SlabFile.is_usable F.SlabFile.is_clean file.old file.new }
{
    let len = HEAD_LEN * marks.len();
    if any_marked(marks) {
        return read_piece(alloc, file, shape.head_at(first), len);
    }
    zeros(alloc, len)
}

// Whether any mark is set.
fn any_marked(marks: &[u8]) -> bool
    ensures { result ≡ false → (i : ℕ) → i < length marks.now → slice_index marks.now i ≡ 1 → ⊥ }
{
    for mark in marks {
        if *mark == 1 {
            return true;
        }
    }
    false
}

// Adds the slots of these marks and heads, the last one first.
fn add_run(
    shape: Shape,
    key: u64,
    first: u64,
    marks: &[u8],
    heads: &[u8],
    opened: &mut Opened,
) -> Result<(), OpenFault>
    requires small { slab_len shape < 2 ^ 63 }
    requires within { first + length marks.now ≤ shape.count }
    requires len { length heads.now ≡ 72 * length marks.now }
    requires few { shape.count ≤ 2 ^ 32 }
    requires count { length opened.old.free.items ≡ shape.count }
    ensures opened { OnOk result ((bytes : List ℕ) → IsRun shape bytes first marks.now heads.now
        → IsOpenedFrom shape key bytes (first + length marks.now) opened.old
        → IsOpenedFrom shape key bytes first opened.new) }
    ensures damaged { IfErr result (IfDamaged (λ slot. (slot < shape.count)
        × ((bytes : List ℕ) → IsRun shape bytes first marks.now heads.now
        → (is_marked shape bytes slot ≡ true) × IsNoHead shape key bytes slot))) }
    ensures cause { IfErr result (IfFailed ⊥) }
    ensures count { length opened.new.free.items ≡ shape.count }
{
    for i in 0..marks.len() {
        let place = marks.len() - 1 - i;
        let head = &heads[72 * place..72 * place + 72];
        add_slot(key, first + place as u64, marks[place], head, opened)?;
    }
    Ok(())
}

// Adds a slot with this mark and these bytes for a head.
fn add_slot(
    key: u64,
    slot: u64,
    mark: u8,
    head: &[u8],
    opened: &mut Opened,
) -> Result<(), OpenFault>
    requires len { length head.now ≡ 72 }
    requires slot { slot < length opened.old.free.items }
    requires few { slot < 2 ^ 32 }
    ensures added { OnOk result (AddsSlot key slot mark head.now opened.old opened.new) }
    ensures count { length opened.new.free.items ≡ length opened.old.free.items }
    ensures cause { IfErr result (IfFailed ⊥) }
    ensures damaged { IfErr result (IfDamaged (λ damaged. (damaged ≡ slot) × (mark ≡ 1)
        × AreNoHead key head.now)) }
{
    if mark != 1 {
        opened.add_free(slot);
        return Ok(());
    }
    match read_head(key, head) {
        Some(head) => Ok(opened.add_marked(slot as u32, &head)?),
        None => Err(OpenFault::Damaged(slot)),
    }
}
