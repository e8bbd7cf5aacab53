ghost use Rattle.std.specs.Prelude.{◌≡◌, OnOk, OnErr};
ghost use Rattle.memory_file.specs.Pieces.{put_piece, lengthened};

use cross_sum::Bytes;
use disk_model::overwrite::overwrite;
use lists::NoMemory;

/// What happened to a file.
#[derive(Drop)]
pub enum Step {
    /// A piece was written at a place.
    Wrote(u64, Bytes),
    /// The file was made so long, if it was shorter. The new bytes are 0.
    Lengthened(u64),
    /// All bytes became safe.
    Synced,
}

/// Writes a piece at a place, or at the end where the place lies behind it.
pub(crate) fn put_piece(bytes: &mut Vec<u8>, at: u64, piece: &[u8]) -> Result<(), NoMemory>
    ensures ok { OnOk result (bytes.new.items ≡ put_piece bytes.old.items at piece.now) }
    ensures err { OnErr result (bytes.new.items ≡ bytes.old.items) }
{
    let end = bytes.len() as u64;
    overwrite(bytes, at.min(end) as usize, piece)
}

/// Makes the bytes so many, if they are fewer.
pub(crate) fn lengthen(bytes: &mut Vec<u8>, len: u64) -> Result<(), NoMemory>
    ensures ok { OnOk result (bytes.new.items ≡ lengthened bytes.old.items len) }
    ensures err { OnErr result (bytes.new.items ≡ bytes.old.items) }
{
    let more = len.saturating_sub(bytes.len() as u64);
    let zeros = vec![in *bytes.allocator(); 0u8; more as usize]?;
    bytes.extend_from_slice(&zeros)?;
    Ok(())
}
