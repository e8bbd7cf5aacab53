//! Bytes that are written, read, synced and found again.
ghost use Rattle.std.specs.Prelude.{IsTrue};

use slab_file::{FileFault, SlabFile};
use sqlite_disk::digest_of;
use std::{fs, io};
use system_file::{UnknownContents, create, open};

const PATH: &str = "system_file_room/bytes";

/// A place of the file, and a piece.
const PIECES: [(u64, &str); 3] = [(0, "first"), (9_000, "middle"), (9_998, "it")];

/// Writes pieces into a new file, reads them before and after it is opened anew, and reads them by the system's own call.
pub fn try_bytes(rt: &HostRuntime) -> io::Result<()> {
    match create(rt, PATH, 0, &UnknownContents) {
        Ok(mut file) => tell(rt, "written", write_all(&mut file))?,
        Err(refusal) => println!(rt; "{refusal}")?,
    }
    match open(rt, PATH, 1, &UnknownContents) {
        Ok(mut file) => tell(rt, "opened anew", read_all(&mut file))?,
        Err(refusal) => println!(rt; "{refusal}")?,
    }
    let bytes = fs::read(rt, PATH)?;
    let zeros = bytes.iter().filter(|byte| **byte == 0).count();
    println!(rt; "{} bytes, {zeros} of them 0", bytes.len())
}

fn tell(rt: &HostRuntime, what: &str, done: Result<u32, FileFault>) -> io::Result<()> {
    match done {
        Ok(pieces) => println!(rt; "{what}: {pieces} pieces are there"),
        Err(fault) => println!(rt; "{what}: {fault:?}"),
    }
}

// Makes the file 10,000 bytes long, writes the pieces and reads them, and syncs.
fn write_all<F: SlabFile>(file: &mut F) -> Result<u32, FileFault>
    requires { IsTrue (F.SlabFile.is_usable file.old) }
{
    file.lengthen(10_000)?;
    for (at, piece) in PIECES.iter() {
        let piece = piece.as_bytes();
        if file.len()? < at.saturating_add(piece.len() as u64) {
            return Err(FileFault::Failed);
        }
        file.write_at(*at, piece)?;
    }
    file.sync()?;
    file.lengthen(500)?;
    read_all(file)
}

// How many of the pieces are there, if nothing is behind the end, and another byte doesn't fit a piece's check.
fn read_all<F: SlabFile>(file: &mut F) -> Result<u32, FileFault>
    requires { IsTrue (F.SlabFile.is_usable file.old) }
{
    let mut found = 0u32;
    for (at, piece) in PIECES.iter() {
        if is_there(file, *at, piece.as_bytes())? {
            found = found.saturating_add(1);
        }
    }
    let mut room = [0; 2];
    if file.len()? != 10_000 || file.read_at(9_999, &mut room).is_ok() {
        return Err(FileFault::Failed);
    }
    Ok(found)
}

// Whether a piece is there, fits its check, and doesn't fit another one.
fn is_there<F: SlabFile>(file: &mut F, at: u64, piece: &[u8]) -> Result<bool, FileFault>
    requires usable { IsTrue (F.SlabFile.is_usable file.old) }
    ensures usable { IsTrue (F.SlabFile.is_usable file.new) }
{
    let mut room = [0; 6];
    let room = &mut room[..piece.len().min(6)];
    file.read_at(at, room)?;
    if room.is_empty() || &*room != piece {
        return Ok(false);
    }
    let check = digest_of(5, piece);
    if !file.read_checked(5, check, at, room)? {
        return Ok(false);
    }
    let other = file.read_checked(5, check.wrapping_add(1), at, room)?;
    Ok(!other)
}
