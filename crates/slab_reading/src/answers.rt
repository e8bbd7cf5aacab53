ghost use Rattle.std.specs.Prelude.{◌≡◌, ◌≤◌, ◌<◌, ◌^◌, ◌==◌, length, map, IsTrue, IfOk, IfErr};
ghost use Rattle.sqlite_disk.specs.Disk.{MoreFaults};
ghost use Rattle.slab_layout.specs.Shapes.{slab_len};
ghost use Rattle.slab_reading.specs.Opened.{AreAnswers, IfReadFailed};
ghost use Rattle.slab_reading.specs.Reading.{OnlyReads};

use crate::fault::ReadFault;
use crate::piece::read_piece;
use slab_file::SlabFile;
use slab_layout::Shape;
use std::alloc::Global;

/// Reads for which blocks the node answers: one `bool` for each block. Nothing is written.
#[tactic(auto, using(crate::proofs::Pieces::answers_read))]
pub fn read_answers<F: SlabFile>(
    alloc: Global,
    file: &mut F,
    shape: Shape,
) -> Result<Vec<bool>, ReadFault>
    requires usable { IsTrue (F.SlabFile.is_usable file.old) }
    requires small { slab_len shape < 2 ^ 63 }
    requires some { 1 ≤ shape.blocks }
    ensures answers { IfOk result (λ answers. IsTrue (F.SlabFile.is_clean file.new)
        → AreAnswers shape (F.SlabFile.seen file.old) answers.items) }
    ensures cause { IfErr result (IfReadFailed (IsTrue (F.SlabFile.is_clean file.new)
        → slab_len shape ≤ length (F.SlabFile.seen file.old)
        → MoreFaults (F.SlabFile.faults file.old) (F.SlabFile.faults file.new))) }
    ensures reads { OnlyReads F.SlabFile.seen F.SlabFile.may_leave F.SlabFile.moment
        F.SlabFile.left_since F.SlabFile.is_usable F.SlabFile.is_clean file.old file.new }
{
    let bytes = read_piece(alloc, file, shape.answer_at(0), shape.blocks as usize)?;
    are_one(alloc, &bytes)
}

// Whether each byte is 1.
fn are_one(alloc: Global, bytes: &[u8]) -> Result<Vec<bool>, ReadFault>
    ensures list { IfOk result (λ list. list.items ≡ map (λ b. b == 1) bytes.now) }
    ensures cause { IfErr result (λ fault. fault ≡ ReadFault.NoMemory) }
{
    match bytes.iter().map(|byte| *byte == 1).collect(alloc) {
        Ok(list) => Ok(list),
        Err(_) => Err(ReadFault::NoMemory),
    }
}
