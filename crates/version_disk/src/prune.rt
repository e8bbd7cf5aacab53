//! Many prunes at once: what they drop, and the slots that are written.

ghost use Rattle.std.specs.Prelude.{◌≡◌, ◌≤◌, ◌<◌, ◌+◌, ◌^◌, true, false, [], ◌++◌, All, length, vec_capacity, IfOk, IfErr, OnOk, IsErrOf};
ghost use Rattle.outside_io.specs.Causes.{Rose};
ghost use Rattle.disk_model.specs.Crash.{LeavesOnly};
ghost use Rattle.slot_disk.specs.Slots.{body_len, prune_slot, IsPieceOf, pieces_of};
ghost use Rattle.version_disk.specs.Batches.{AreWritten, prune_slots};
ghost use Rattle.version_disk.specs.Compacted.{AreFitting};
ghost use Rattle.version_disk.specs.Deeds.{after_deed, drops, slots_among, pruning, after_prunes, slots_by_prunes, AreDone, AreDoneInPart};
ghost use Rattle.version_disk.specs.Deeds.Deed.{Prunes};
ghost use Rattle.version_disk.specs.Kept.{IsKept, AreGoodIn};
ghost use Rattle.version_disk.specs.Refusals.{IfFailed, IfCalm};
ghost use Rattle.version_disk.specs.Stored.{all_fit};

use crate::add::have_places;
use crate::keep::keep_deeds;
use crate::refusal::StoreRefusal;
use disk_model::Disk;
use lists::NoMemory;
use node_core::Node;
use quorum_rules::Config;
use slot_disk::body::body_size;
use slot_disk::piece::prune_piece;
use stamp_order::Stamp;
use std::alloc::Global;

/// That a block is pruned by a stamp.
#[derive(Clone, Copy, Debug, PartialEq, Eq)]
pub struct Prune {
    pub block: u32,
    pub stamp: Stamp,
}

/// The pieces of the slots that are written, and how many there are.
#[derive(Drop)]
struct Written {
    pieces: Vec<u8>,
    count: u64,
}

/// Prunes blocks, one after the other, and writes the slots of the prunes that drop a version to a disk, as many for two syncs. Also
/// answers how many there are. The memory is taken before anything is dropped.
pub(crate) fn prune_all<D: Disk>(
    alloc: Global,
    node: &mut Node,
    disk: &mut D,
    count: u64,
    prunes: &[Prune],
) -> Result<u64, StoreRefusal>
    requires kept { IsKept D.pending D.seen node.old.config node.old.number node.old count
        disk.old }
    requires there { All (λ p. p.block < node.old.config.blocks) prunes.now }
    ensures more { IfOk result (λ more. more ≡ length (slots_by_prunes node.old prunes.now)) }
    ensures state { OnOk result (node.new ≡ after_prunes node.old prunes.now) }
    ensures done { OnOk result (AreDone node.old.config node.old.number node.old (pruning prunes.now)
        (D.seen disk.old) (D.seen disk.new)) }
    ensures kept { IfOk result (λ more. IsKept D.pending D.seen node.old.config node.old.number
        node.new (count + more) disk.new) }
    ensures small { IfOk result (λ more. count + more < 2 ^ 64) }
    ensures untouched { OnOk result
        (slots_by_prunes node.old prunes.now ≡ [] → disk.new ≡ disk.old) }
    ensures config { node.new.config ≡ node.old.config }
    ensures number { node.new.number ≡ node.old.number }
    ensures not_broken { IsErrOf result StoreRefusal.Broken → ⊥ }
    ensures full { IsErrOf result StoreRefusal.Full → all_fit (body_len node.old.config) count
        (length prunes.now) (D.most disk.old) ≡ false }
    ensures fits { OnOk result (all_fit (body_len node.old.config) count (length prunes.now)
        (D.most disk.old) ≡ true) }
    ensures fits_failed { IfErr result (IfFailed (all_fit (body_len node.old.config) count
        (length prunes.now) (D.most disk.old) ≡ true)) }
    ensures calm { IfErr result (IfCalm (node.new ≡ node.old)) }
    ensures calm_disk { IfErr result (IfCalm (disk.new ≡ disk.old)) }
    ensures room { D.most disk.new ≡ D.most disk.old }
    ensures any_moment { LeavesOnly D.moment D.left_since disk.old disk.new
        (AreDoneInPart node.old.config node.old.number node.old (pruning prunes.now)
        (D.seen disk.old)) }
    ensures later { D.faults disk.old ≤ D.faults disk.new }
    ensures cause { IfErr result (IfFailed (Rose D.last (D.faults disk.old) (D.faults disk.new))) }
{
    let config = *node.config();
    if !have_places(node, disk, count, prunes.len() as u64) {
        return Err(StoreRefusal::Full);
    }
    let pieces = pieces_for(alloc, &config, prunes)?;
    let mut written = room_for(alloc, pieces.len())?;
    prune_each(node, prunes, &pieces, &mut written);
    let Written {
        mut pieces,
        count: more,
    } = written;
    keep_deeds(disk, &config, node.number(), count, more, &mut pieces)?;
    Ok(more)
}

// The pieces of all of these prunes.
fn pieces_for(alloc: Global, config: &Config, prunes: &[Prune]) -> Result<Vec<u8>, NoMemory>
    ensures pieces { IfOk result
        (λ pieces. pieces.items ≡ pieces_of (prune_slots config.now prunes.now)) }
    ensures fits { OnOk result (AreFitting config.now (prune_slots config.now prunes.now)) }
{
    let mut pieces = Vec::new(alloc);
    for prune in prunes {
        let piece = prune_piece(alloc, config, prune.block, &prune.stamp)?;
        pieces.extend_from_slice(&piece)?;
    }
    Ok(pieces)
}

// Room for so many bytes of pieces.
fn room_for(alloc: Global, len: usize) -> Result<Written, NoMemory>
    ensures none { IfOk result (λ written. written.pieces.items ≡ []) }
    ensures nought { IfOk result (λ written. written.count ≡ 0) }
    ensures room { IfOk result (λ written. len ≤ vec_capacity written.pieces) }
{
    Ok(Written {
        pieces: Vec::with_capacity(alloc, len)?,
        count: 0,
    })
}

// Prunes blocks, one after the other. Of their pieces those are written for which there are slots, where there is room for all.
fn prune_each(node: &mut Node, prunes: &[Prune], pieces: &[u8], written: &mut Written)
    requires there { All (λ p. p.block < node.old.config.blocks) prunes.now }
    requires pieces { pieces.now ≡ pieces_of (prune_slots node.old.config prunes.now) }
    requires good { AreGoodIn node.old.config node.old.number
        (prune_slots node.old.config prunes.now) }
    requires none { written.old.pieces.items ≡ [] }
    requires nought { written.old.count ≡ 0 }
    requires room { length pieces.now ≤ vec_capacity written.old.pieces }
    ensures state { node.new ≡ after_prunes node.old prunes.now }
    ensures written { AreWritten node.old (pruning prunes.now) written.new.pieces.items
        written.new.count }
    ensures few { written.new.count ≤ length prunes.now }
    ensures config { node.new.config ≡ node.old.config }
    ensures number { node.new.number ≡ node.old.number }
{
    let size = body_size(node.config()) as usize + 1;
    let mut rest = pieces;
    for prune in prunes {
        let (piece, behind) = rest.split_at(size);
        prune_next(node, prune, piece, written);
        rest = behind;
    }
}

// Prunes one block more. Its piece is written if a version is dropped.
fn prune_next(node: &mut Node, prune: &Prune, piece: &[u8], written: &mut Written)
    requires there { prune.now.block < node.old.config.blocks }
    requires piece { IsPieceOf (prune_slot node.old.config prune.now.block prune.now.stamp)
        piece.now }
    requires room { length written.old.pieces.items + length piece.now
        ≤ vec_capacity written.old.pieces }
    requires count { written.old.count + 1 < 2 ^ 64 }
    ensures state { node.new ≡ after_deed node.old (Prunes prune.now.block prune.now.stamp) }
    ensures pieces { written.new.pieces.items ≡ written.old.pieces.items
        ++ pieces_of (slots_among node.old (Prunes prune.now.block prune.now.stamp)) }
    ensures count { written.new.count ≡ written.old.count
        + length (slots_among node.old (Prunes prune.now.block prune.now.stamp)) }
    ensures capacity { vec_capacity written.old.pieces ≤ vec_capacity written.new.pieces }
{
    if drops(node, prune) {
        let _ = written.pieces.extend_from_slice(piece);
        written.count += 1;
    }
}

// Prunes one block. Whether a version is dropped.
fn drops(node: &mut Node, prune: &Prune) -> bool
    requires { prune.now.block < node.old.config.blocks }
    ensures drops { result ≡ drops node.old prune.now.block prune.now.stamp }
    ensures state { node.new ≡ after_deed node.old (Prunes prune.now.block prune.now.stamp) }
{
    let before = node.later_count(prune.block);
    node.prune(prune.block, &prune.stamp);
    node.later_count(prune.block) < before
}
