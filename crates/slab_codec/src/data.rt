ghost use Rattle.std.specs.Prelude.{◌≡◌, ◌≤◌, ◌*◌, ◌++◌, length, IfOk, OnOk};
ghost use Rattle.cross_sum.specs.Digest.{flat};
ghost use Rattle.slot_disk.specs.Slots.{digests};
ghost use Rattle.slab_layout.specs.Data.{data_of, version_in};

use crate::numbers::read_hash;
use cross_sum::{Bytes, CrossSum, Hash};
use lists::NoMemory;
use stamp_order::Stamp;
use std::alloc::Global;
use wire_forms::Version;

/// The data of a version: the digests of all fragments, and its fragment.
pub fn data_piece(alloc: Global, version: &Version) -> Result<Vec<u8>, NoMemory>
    ensures { IfOk result (λ piece. piece.items ≡ data_of version.now) }
{
    let digests = version.sum.hashes();
    let fragment = version.fragment.as_slice();
    let mut piece = Vec::with_capacity(alloc, 32 * digests.len() + fragment.len())?;
    write_digests(&mut piece, digests)?;
    piece.extend_from_slice(fragment)?;
    Ok(piece)
}

/// The version of this stamp whose data these are, in a cluster of so many nodes, read by the node of this number. Its
/// fragment is digested once, here, if it is the one that its cross checksum names.
pub fn read_version(
    alloc: Global,
    nodes: u32,
    number: u8,
    stamp: &Stamp,
    bytes: &[u8],
) -> Result<Version, NoMemory>
    requires { 32 * nodes ≤ length bytes.now }
    ensures { IfOk result (λ version. version ≡ version_in nodes stamp.now bytes.now) }
{
    let fragment = Bytes::of(alloc, &bytes[32 * nodes as usize..])?;
    let sum = read_digests(alloc, nodes as usize, number, &fragment, bytes)?;
    Ok(Version {
        stamp: *stamp,
        sum,
        fragment,
    })
}

// Adds digests to other bytes.
fn write_digests(piece: &mut Vec<u8>, list: &[Hash]) -> Result<(), NoMemory>
    ensures { OnOk result (piece.new.items ≡ piece.old.items ++ flat list.now) }
{
    for digest in list {
        piece.extend_from_slice(digest)?;
    }
    Ok(())
}

// Reads so many digests, beside which fragment `number` stands.
#[tactic(auto, using(slot_disk::proofs::lemmas::Codec::digests_more))]
fn read_digests(
    alloc: Global,
    count: usize,
    number: u8,
    fragment: &Bytes,
    bytes: &[u8],
) -> Result<CrossSum, NoMemory>
    requires { 32 * count ≤ length bytes.now }
    ensures { IfOk result (λ sum. sum ≡ digests count bytes.now) }
{
    let mut list = Vec::with_capacity(alloc, count)?;
    for i in 0..count {
        list.push(read_hash(bytes, 32 * i))?;
    }
    CrossSum::of_hashes_beside(alloc, list.as_slice(), number, fragment)
}
