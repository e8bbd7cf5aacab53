//! How a range of a file gets one byte all over.

ghost use Rattle.std.specs.Prelude.{◌≡◌, ◌≤◌, ◌<◌, ◌+◌, ◌*◌, ◌^◌, ℕ, List, length, replicate, IsTrue, IfOk, OnOk};
ghost use Rattle.sqlite_disk.specs.Disk.{Torn, Holds};
ghost use Rattle.disk_model.specs.Crash.{LeavesOnly};
ghost use Rattle.slab_making.specs.Made.{AreAll, BeginsWithZero};

use crate::fault::MakeFault;
use slab_file::SlabFile;
use std::alloc::Global;

// How many bytes are written at once.
const PIECE: usize = 65_536;

/// Writes one byte over a range, in pieces. Nothing of it is safe at the return.
pub fn fill<F: SlabFile>(
    alloc: Global,
    file: &mut F,
    at: u64,
    count: u64,
    byte: u8,
) -> Result<(), MakeFault>
    requires usable { IsTrue (F.SlabFile.is_usable file.old) }
    requires within { IsTrue (F.SlabFile.is_clean file.old)
        → at + count ≤ length (F.SlabFile.seen file.old) }
    requires small { at + count < 2 ^ 63 }
    requires behind { 0 < at }
    ensures filled { OnOk result (IsTrue (F.SlabFile.is_clean file.new)
        → AreAll at count byte (F.SlabFile.seen file.new)) }
    ensures others { Torn at count (F.SlabFile.seen file.old) (F.SlabFile.seen file.new) }
    ensures usable { IsTrue (F.SlabFile.is_usable file.new) }
    ensures clean { F.SlabFile.is_clean file.new ≡ F.SlabFile.is_clean file.old }
    // the first byte stays 0 in what a crash at any moment leaves
    ensures any_moment { ((c : List ℕ) → F.SlabFile.may_leave file.old c → BeginsWithZero c)
        → LeavesOnly F.SlabFile.moment F.SlabFile.left_since file.old file.new BeginsWithZero }
{
    let piece = piece_of(alloc, byte)?;
    for i in 0..count.div_ceil(PIECE as u64) {
        let done = i * PIECE as u64;
        let len = (count - done).min(PIECE as u64);
        put_part(file, at + done, &piece[..len as usize])?;
    }
    Ok(())
}

// A piece of one byte all over.
fn piece_of(alloc: Global, byte: u8) -> Result<Vec<u8>, MakeFault>
    ensures { IfOk result (λ piece. piece.items ≡ replicate 65536 byte) }
{
    match vec![in alloc; byte; PIECE] {
        Ok(piece) => Ok(piece),
        Err(_) => Err(MakeFault::NoMemory),
    }
}

// Writes a piece.
fn put_part<F: SlabFile>(file: &mut F, at: u64, piece: &[u8]) -> Result<(), MakeFault>
    requires usable { IsTrue (F.SlabFile.is_usable file.old) }
    requires within { IsTrue (F.SlabFile.is_clean file.old) → at + length piece.now
        ≤ length (F.SlabFile.seen file.old) }
    requires behind { 0 < at }
    ensures written { OnOk result (0 < length piece.now
        → Holds (F.SlabFile.seen file.new) at piece.now) }
    ensures others { Torn at (length piece.now) (F.SlabFile.seen file.old) (F.SlabFile.seen file.new) }
    ensures usable { IsTrue (F.SlabFile.is_usable file.new) }
    ensures clean { F.SlabFile.is_clean file.new ≡ F.SlabFile.is_clean file.old }
    ensures any_moment { ((c : List ℕ) → F.SlabFile.may_leave file.old c → BeginsWithZero c)
        → LeavesOnly F.SlabFile.moment F.SlabFile.left_since file.old file.new BeginsWithZero }
{
    file.write_at(at, piece)?;
    Ok(())
}
