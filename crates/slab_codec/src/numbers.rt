//! Numbers in bytes, the high byte first.

ghost use Rattle.std.specs.Prelude.{◌≡◌, ◌≤◌, ◌+◌, ◌↔◌, ◌++◌, length, slice_range, IsTrue, OnOk};
ghost use Rattle.std.specs.Int.{w32, w64, to_be_bytes};
ghost use Rattle.slot_disk.specs.Slots.{word_at, long_at};

use lists::NoMemory;

/// Adds bytes to a piece.
pub(crate) fn put_bytes(piece: &mut Vec<u8>, bytes: &[u8]) -> Result<(), NoMemory>
    ensures { OnOk result (piece.new.items ≡ piece.old.items ++ bytes.now) }
{
    piece.extend_from_slice(bytes)?;
    Ok(())
}

/// Adds a number of 4 bytes.
pub(crate) fn put_word(piece: &mut Vec<u8>, number: u32) -> Result<(), NoMemory>
    ensures { OnOk result (piece.new.items ≡ piece.old.items ++ to_be_bytes w32 number) }
{
    put_bytes(piece, &number.to_be_bytes())
}

/// Adds a number of 8 bytes.
pub(crate) fn put_long(piece: &mut Vec<u8>, number: u64) -> Result<(), NoMemory>
    ensures { OnOk result (piece.new.items ≡ piece.old.items ++ to_be_bytes w64 number) }
{
    put_bytes(piece, &number.to_be_bytes())
}

/// Whether these are the same bytes.
pub(crate) fn same_bytes(some: &[u8], other: &[u8]) -> bool
    ensures { IsTrue result ↔ (some.now ≡ other.now) }
{
    some == other
}

/// The number of the 4 bytes from a place on.
pub(crate) fn read_word(bytes: &[u8], at: usize) -> u32
    requires { at + 4 ≤ length bytes.now }
    ensures { result ≡ word_at bytes.now at }
{
    u32::from_be_bytes([bytes[at], bytes[at + 1], bytes[at + 2], bytes[at + 3]])
}

/// The number of the 8 bytes from a place on.
pub(crate) fn read_long(bytes: &[u8], at: usize) -> u64
    requires { at + 8 ≤ length bytes.now }
    ensures { result ≡ long_at bytes.now at }
{
    u64::from_be_bytes([
        bytes[at],
        bytes[at + 1],
        bytes[at + 2],
        bytes[at + 3],
        bytes[at + 4],
        bytes[at + 5],
        bytes[at + 6],
        bytes[at + 7],
    ])
}

/// The 32 bytes from a place on.
pub(crate) fn read_hash(bytes: &[u8], at: usize) -> [u8; 32]
    requires { at + 32 ≤ length bytes.now }
    ensures { result ≡ slice_range bytes.now at (at + 32) }
{
    let mut hash = [0; 32];
    hash.copy_from_slice(&bytes[at..at + 32]);
    hash
}
