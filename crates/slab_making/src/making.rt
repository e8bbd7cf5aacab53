ghost use Rattle.std.specs.Prelude.{◌≡◌, ◌≤◌, ◌<◌, ◌==◌, ◌^◌, ℕ, List, length, IsTrue, OnOk};
ghost use Rattle.sqlite_disk.specs.Disk.{Only, Torn, Holds};
ghost use Rattle.disk_model.specs.Crash.{LeavesOnly};
ghost use Rattle.slab_layout.specs.Shapes.{shape_of, slab_len};
ghost use Rattle.slab_making.specs.Made.{IsNewSlab, IsBlank, IsWholeOrNone, BeginsWithZero, IsShort};

use crate::fault::MakeFault;
use crate::filling::fill;
use slab_codec::{Header, header_piece};
use slab_file::SlabFile;
use slab_layout::Shape;
use std::alloc::Global;

/// Makes a new slab of a file, for three syncs. No slot is marked, and the node answers for all blocks, or for none. All
/// of it is safe at the return. The header is written last: where a crash leaves it, the slab is whole.
pub fn make_slab<F: SlabFile>(
    alloc: Global,
    file: &mut F,
    header: &Header,
    answers: bool,
) -> Result<(), MakeFault>
    requires usable { IsTrue (F.SlabFile.is_usable file.old) }
    ensures made { OnOk result (IsTrue (F.SlabFile.is_clean file.new)
        → IsNewSlab header.now.config header.now.number header.now.key answers
        (F.SlabFile.seen file.new)) }
    ensures safe { OnOk result (Only (F.SlabFile.seen file.new) (F.SlabFile.may_leave file.new)) }
    ensures usable { OnOk result (IsTrue (F.SlabFile.is_usable file.new)) }
    ensures clean { IsTrue (F.SlabFile.is_clean file.new) → IsTrue (F.SlabFile.is_clean file.old) }
    // from a file that is too short for a header
    ensures any_moment { IsTrue (F.SlabFile.is_clean file.new)
        → ((c : List ℕ) → F.SlabFile.may_leave file.old c → IsShort c)
        → LeavesOnly F.SlabFile.moment F.SlabFile.left_since file.old file.new
        (IsWholeOrNone header.now.config header.now.number header.now.key answers) }
{
    let piece = match header_piece(alloc, header) {
        Ok(piece) => piece,
        Err(_) => return Err(MakeFault::NoMemory),
    };
    begin(file)?;
    lay_out(alloc, file, Shape::of(&header.config), answers)?;
    put_header(file, &piece)
}

// Makes the first byte of a file 0, and makes it safe.
fn begin<F: SlabFile>(file: &mut F) -> Result<(), MakeFault>
    requires usable { IsTrue (F.SlabFile.is_usable file.old) }
    ensures zero { OnOk result (IsTrue (F.SlabFile.is_clean file.new)
        → BeginsWithZero (F.SlabFile.seen file.new)) }
    ensures safe { OnOk result (Only (F.SlabFile.seen file.new) (F.SlabFile.may_leave file.new)) }
    ensures usable { OnOk result (IsTrue (F.SlabFile.is_usable file.new)) }
    ensures clean { IsTrue (F.SlabFile.is_clean file.new) → IsTrue (F.SlabFile.is_clean file.old) }
    ensures any_moment { IsTrue (F.SlabFile.is_clean file.new)
        → ((c : List ℕ) → F.SlabFile.may_leave file.old c → IsShort c)
        → LeavesOnly F.SlabFile.moment F.SlabFile.left_since file.old file.new IsShort }
{
    file.lengthen(1)?;
    file.write_at(0, &[0])?;
    file.sync()?;
    Ok(())
}

// Writes all but the header, and makes it safe.
fn lay_out<F: SlabFile>(
    alloc: Global,
    file: &mut F,
    shape: Shape,
    answers: bool,
) -> Result<(), MakeFault>
    requires usable { IsTrue (F.SlabFile.is_usable file.old) }
    requires small { slab_len shape < 2 ^ 63 }
    requires some { 1 ≤ shape.count }
    ensures blank { OnOk result (IsTrue (F.SlabFile.is_clean file.new)
        → IsBlank shape answers (F.SlabFile.seen file.new)) }
    ensures safe { OnOk result (Only (F.SlabFile.seen file.new) (F.SlabFile.may_leave file.new)) }
    ensures usable { OnOk result (IsTrue (F.SlabFile.is_usable file.new)) }
    ensures clean { IsTrue (F.SlabFile.is_clean file.new) → IsTrue (F.SlabFile.is_clean file.old) }
    ensures any_moment { IsTrue (F.SlabFile.is_clean file.new)
        → ((c : List ℕ) → F.SlabFile.may_leave file.old c → BeginsWithZero c)
        → LeavesOnly F.SlabFile.moment F.SlabFile.left_since file.old file.new BeginsWithZero }
{
    file.lengthen(shape.slab_len())?;
    put_blank(alloc, file, shape, answers)?;
    file.sync()?;
    Ok(())
}

// Writes for which blocks the node answers, and that no slot is marked.
fn put_blank<F: SlabFile>(
    alloc: Global,
    file: &mut F,
    shape: Shape,
    answers: bool,
) -> Result<(), MakeFault>
    requires usable { IsTrue (F.SlabFile.is_usable file.old) }
    requires small { slab_len shape < 2 ^ 63 }
    requires long { IsTrue (F.SlabFile.is_clean file.old)
        → slab_len shape ≤ length (F.SlabFile.seen file.old) }
    ensures blank { OnOk result (IsTrue (F.SlabFile.is_clean file.new)
        → IsBlank shape answers (F.SlabFile.seen file.new)) }
    ensures usable { IsTrue (F.SlabFile.is_usable file.new) }
    ensures clean { F.SlabFile.is_clean file.new ≡ F.SlabFile.is_clean file.old }
    ensures any_moment { ((c : List ℕ) → F.SlabFile.may_leave file.old c → BeginsWithZero c)
        → LeavesOnly F.SlabFile.moment F.SlabFile.left_since file.old file.new BeginsWithZero }
{
    fill(alloc, file, 4096, shape.blocks, answer_byte(answers))?;
    fill(alloc, file, 4096 + shape.blocks, shape.count, 0)
}

// The byte of a block for which the node answers, or doesn't.
fn answer_byte(answers: bool) -> u8
    ensures { (result == 1) ≡ answers }
{
    if answers { 1 } else { 0 }
}

// Writes a header, and makes it safe.
fn put_header<F: SlabFile>(file: &mut F, piece: &[u8]) -> Result<(), MakeFault>
    requires usable { IsTrue (F.SlabFile.is_usable file.old) }
    requires some { 0 < length piece.now }
    requires within { IsTrue (F.SlabFile.is_clean file.old)
        → length piece.now ≤ length (F.SlabFile.seen file.old) }
    ensures written { OnOk result (Holds (F.SlabFile.seen file.new) 0 piece.now) }
    ensures others { Torn 0 (length piece.now)
        (F.SlabFile.seen file.old) (F.SlabFile.seen file.new) }
    ensures safe { OnOk result (Only (F.SlabFile.seen file.new) (F.SlabFile.may_leave file.new)) }
    ensures usable { OnOk result (IsTrue (F.SlabFile.is_usable file.new)) }
    ensures clean { F.SlabFile.is_clean file.new ≡ F.SlabFile.is_clean file.old }
    ensures any_moment { Only (F.SlabFile.seen file.old) (F.SlabFile.may_leave file.old)
        → LeavesOnly F.SlabFile.moment F.SlabFile.left_since file.old file.new
        (Torn 0 (length piece.now) (F.SlabFile.seen file.old)) }
{
    file.write_at(0, piece)?;
    file.sync()?;
    Ok(())
}
