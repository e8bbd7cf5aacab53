//! The bytes that are written for a slot: its body and one byte 0.

ghost use Rattle.std.specs.Prelude.{◌≡◌, ◌<◌, ◌^◌, [], ◌∷◌, ◌++◌, length, IfOk, OnOk};
ghost use Rattle.quorum_rules.specs.Limits.{share_of};
ghost use Rattle.cross_sum.specs.Digest.{flat};
ghost use Rattle.slot_disk.specs.Slots.{head_of, body_of, version_of, version_slot, prune_slot, Fits, IsPieceOf};

use crate::body::body_size;
use cross_sum::{Bytes, CrossSum, Hash};
use lists::NoMemory;
use quorum_rules::Config;
use stamp_order::Stamp;
use std::alloc::Global;
use wire_forms::Version;

/// The piece of an accepted version.
pub fn version_piece(
    alloc: Global,
    config: &Config,
    block: u32,
    version: &Version,
) -> Result<Vec<u8>, NoMemory>
    requires count { length version.now.sum ≡ config.now.n }
    requires share { length version.now.fragment ≡ share_of config.now }
    ensures piece { IfOk result (λ piece. IsPieceOf (version_slot block version.now) piece.items) }
    ensures fits { OnOk result (Fits config.now (version_slot block version.now)) }
{
    let mut piece = Vec::with_capacity(alloc, body_size(config) as usize + 1)?;
    write_version(&mut piece, config, block, version)?;
    Ok(piece)
}

/// Adds the piece of an accepted version to other pieces.
pub fn write_version(
    piece: &mut Vec<u8>,
    config: &Config,
    block: u32,
    version: &Version,
) -> Result<(), NoMemory>
    requires count { length version.now.sum ≡ config.now.n }
    requires share { length version.now.fragment ≡ share_of config.now }
    ensures piece { OnOk result (piece.new.items
        ≡ piece.old.items ++ (body_of (version_slot block version.now) ++ 0 ∷ [])) }
    ensures fits { OnOk result (Fits config.now (version_slot block version.now)) }
{
    piece.reserve(body_size(config) as usize + 1)?;
    write_body(
        piece,
        config,
        block,
        &version.stamp,
        &version.sum,
        &version.fragment,
    )?;
    piece.push(0)?;
    Ok(())
}

/// Adds the body of a version of this stamp, cross checksum and fragment to other bytes.
pub fn write_body(
    piece: &mut Vec<u8>,
    config: &Config,
    block: u32,
    stamp: &Stamp,
    sum: &CrossSum,
    fragment: &Bytes,
) -> Result<(), NoMemory>
    requires count { length sum.now ≡ config.now.n }
    requires share { length fragment.now ≡ share_of config.now }
    ensures body { OnOk result (piece.new.items ≡ piece.old.items
        ++ body_of (version_slot block (version_of stamp.now sum.now fragment.now))) }
    ensures fits { OnOk result
        (Fits config.now (version_slot block (version_of stamp.now sum.now fragment.now))) }
{
    stamp_ranges(*stamp);
    write_head(piece, 0, block, stamp)?;
    write_digests(piece, sum.hashes())?;
    piece.extend_from_slice(fragment.as_slice())?;
    Ok(())
}

/// The piece of a prune. Zero bytes stand in the place of digests and fragment, which nobody reads.
pub fn prune_piece(
    alloc: Global,
    config: &Config,
    block: u32,
    stamp: &Stamp,
) -> Result<Vec<u8>, NoMemory>
    ensures piece { IfOk result (λ piece.
        IsPieceOf (prune_slot config.now block stamp.now) piece.items) }
    ensures fits { OnOk result (Fits config.now (prune_slot config.now block stamp.now)) }
{
    stamp_ranges(*stamp);
    let mut piece = Vec::with_capacity(alloc, body_size(config) as usize + 1)?;
    write_head(&mut piece, 1, block, stamp)?;
    let zeros = vec![in alloc; 0; 32 * config.n() as usize + config.share() as usize + 1]?;
    piece.extend_from_slice(&zeros)?;
    Ok(piece)
}

// Adds the first bytes of a body.
fn write_head(piece: &mut Vec<u8>, kind: u8, block: u32, stamp: &Stamp) -> Result<(), NoMemory>
    ensures { OnOk result (piece.new.items ≡ piece.old.items ++ head_of kind block stamp.now) }
{
    piece.push(kind)?;
    piece.extend_from_slice(&block.to_be_bytes())?;
    piece.extend_from_slice(&stamp.time.to_be_bytes())?;
    piece.extend_from_slice(&stamp.client.to_be_bytes())?;
    piece.extend_from_slice(&stamp.verifier)?;
    Ok(())
}

// Adds digests to a piece.
fn write_digests(piece: &mut Vec<u8>, list: &[Hash]) -> Result<(), NoMemory>
    ensures { OnOk result (piece.new.items ≡ piece.old.items ++ flat list.now) }
{
    for digest in list {
        piece.extend_from_slice(digest)?;
    }
    Ok(())
}

// The ranges that the type of a stamp tells.
fn stamp_ranges(stamp: Stamp)
    ensures time { stamp.time < 2 ^ 64 }
    ensures client { stamp.client < 2 ^ 32 }
    ensures verifier { length stamp.verifier ≡ 32 }
{}
