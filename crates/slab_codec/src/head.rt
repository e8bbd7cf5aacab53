ghost use Rattle.std.specs.Prelude.{◌≡◌, ◌≤◌, ◌<◌, ◌↔◌, length, take, drop, IsTrue, IfOk, IfSome, IfNone};
ghost use Rattle.sqlite_disk.specs.Digest.{digest};
ghost use Rattle.std.specs.List.{AllByRecursion};
ghost use Rattle.slab_layout.specs.Heads.{covered, head_in, head_bytes, HasPlace, FitsCheck};
ghost use Rattle.slab_layout.specs.declared.head.Head.{Head as SeenHead};

use crate::numbers::{put_bytes, put_long, put_word, read_hash, read_long, read_word, same_bytes};
use lists::NoMemory;
use slab_layout::Head;
use sqlite_disk::digest_of;
use stamp_order::Stamp;
use std::alloc::Global;

/// How many bytes a head has.
pub const HEAD_LEN: usize = 72;

/// The 72 bytes of a head, in a slab of this key.
pub fn head_piece(alloc: Global, key: u64, head: &Head) -> Result<Vec<u8>, NoMemory>
    ensures { IfOk result (λ piece. piece.items ≡ head_bytes key head.now) }
{
    let mut piece = covered_piece(alloc, head)?;
    let check = digest_of(key, &piece);
    put_long(&mut piece, check)?;
    Ok(piece)
}

// What the check of a head covers.
fn covered_piece(alloc: Global, head: &Head) -> Result<Vec<u8>, NoMemory>
    ensures { IfOk result (λ piece. piece.items ≡ covered head.now) }
{
    let mut piece = Vec::with_capacity(alloc, HEAD_LEN)?;
    put_word(&mut piece, head.block)?;
    put_long(&mut piece, head.stamp.time)?;
    put_word(&mut piece, head.stamp.client)?;
    put_bytes(&mut piece, &head.stamp.verifier)?;
    put_long(&mut piece, head.number)?;
    put_long(&mut piece, head.data_check)?;
    Ok(piece)
}

/// The head that these 72 bytes tell, if they fit their check.
pub fn read_head(key: u64, bytes: &[u8]) -> Option<Head>
    requires { length bytes.now ≡ 72 }
    ensures some { IfSome result (λ h. bytes.now ≡ head_bytes key h) }
    ensures is { IfSome result (λ h. h ≡ head_in bytes.now) }
    ensures none { IfNone result
        ((h : SeenHead) → HasPlace h → bytes.now ≡ head_bytes key h → ⊥) }
{
    byte_ranges(bytes);
    if fits_check(key, bytes) {
        return Some(told_head(bytes));
    }
    None
}

// Whether the bytes fit their check.
fn fits_check(key: u64, bytes: &[u8]) -> bool
    requires { 64 ≤ length bytes.now }
    ensures { IsTrue result ↔ FitsCheck key bytes.now }
{
    same_bytes(tail(bytes, 64), &digest_before(key, bytes).to_be_bytes())
}

// The digest of the bytes that the check covers.
fn digest_before(key: u64, bytes: &[u8]) -> u64
    requires { 64 ≤ length bytes.now }
    ensures { result ≡ digest key (take 64 bytes.now) }
{
    digest_of(key, &bytes[..64])
}

// The bytes from a place on.
fn tail(bytes: &[u8], at: usize) -> &[u8]
    requires { at ≤ length bytes.now }
    ensures { result.now ≡ drop at bytes.now }
{
    &bytes[at..]
}

// What the bytes tell, whether they fit their check or not.
fn told_head(bytes: &[u8]) -> Head
    requires { length bytes.now ≡ 72 }
    ensures { result ≡ head_in bytes.now }
{
    Head {
        block: read_word(bytes, 0),
        stamp: Stamp {
            time: read_long(bytes, 4),
            client: read_word(bytes, 12),
            verifier: read_hash(bytes, 16),
        },
        number: read_long(bytes, 48),
        data_check: read_long(bytes, 56),
    }
}

// What the type of bytes tells.
fn byte_ranges(bytes: &[u8])
    ensures { AllByRecursion (λ b. b < 256) bytes.now }
{}
