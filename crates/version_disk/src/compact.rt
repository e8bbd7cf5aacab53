//! The shortest journal of a node, on an empty disk.

ghost use Rattle.std.specs.Prelude.{◌≡◌, ◌≤◌, ◌<◌, ◌+◌, ◌-◌, ◌*◌, ◌^◌, [], ◌∷◌, ◌++◌, nat_le, length, min, Some, IfErr, OnOk, IsErrOf, slice_get};
ghost use Rattle.outside_io.specs.Causes.{Rose, HasCause};
ghost use Rattle.disk_model.specs.Crash.{settled};
ghost use Rattle.quorum_rules.specs.Limits.{share_of};
ghost use Rattle.node_core.specs.Seen.{versions_in};
ghost use Rattle.node_core.specs.Lent.{lent};
ghost use Rattle.version_disk.specs.Compacted.{slots_in, kept_slots, open_slots, compacted_len, AreWhole, AreFitting};
ghost use Rattle.version_disk.specs.CompactFaults.{IfDiskFailed, IsWant};
ghost use Rattle.slot_disk.specs.Slots.{body_len, body_of, version_slot, Fits};

use crate::compact_fault::CompactFault;
use disk_model::{Disk, DiskFault};
use node_core::{LentVersion, Node};
use slot_disk::body::body_size;
use slot_disk::piece::write_body;
use std::alloc::Global;

/// So many bytes of a journal, or a slot more, are written at once.
const CHUNK: usize = 1 << 20;

/// Writes the slots of the versions that a node keeps to an empty disk, block by block, and a closed gate, and syncs them.
pub(crate) fn write_journal<E: Disk>(
    alloc: Global,
    node: &Node,
    disk: &mut E,
) -> Result<(), CompactFault>
    requires whole { AreWhole node.now.config (kept_slots node.now) }
    requires count { length node.now.blocks ≡ node.now.config.blocks }
    ensures journal { OnOk result
        (E.seen disk.new ≡ open_slots (kept_slots node.now) ++ 0 ∷ []) }
    ensures fitting { OnOk result (AreFitting node.now.config (kept_slots node.now)) }
    ensures durable { OnOk result (E.pending disk.new ≡ settled (E.seen disk.new)) }
    ensures empty { OnOk result (E.seen disk.old ≡ []) }
    ensures not_empty { IsErrOf result CompactFault.NotEmpty → 1 ≤ length (E.seen disk.old) }
    ensures fits { OnOk result (compacted_len node.now ≤ E.most disk.old) }
    ensures full { IsErrOf result CompactFault.Full → E.most disk.old < compacted_len node.now }
    ensures not_broken { IsErrOf result CompactFault.Broken → ⊥ }
    ensures room { E.most disk.new ≡ E.most disk.old }
    ensures later { E.faults disk.old ≤ E.faults disk.new }
    ensures cause { IfErr result (IfDiskFailed (Rose E.last (E.faults disk.old) (E.faults disk.new))) }
{
    if disk.len()? != 0 {
        return Err(CompactFault::NotEmpty);
    }
    if !has_place(node, disk) {
        return Err(CompactFault::Full);
    }
    let mut ahead = Vec::new(alloc);
    write_blocks(node, disk, &mut ahead)?;
    ahead.push(0)?;
    flush(disk, &mut ahead)?;
    disk.sync()?;
    Ok(())
}

// Whether the journal fits the disk's room.
fn has_place<E: Disk>(node: &Node, disk: &E) -> bool
    requires { length node.now.blocks ≡ node.now.config.blocks }
    ensures { result ≡ nat_le (compacted_len node.now) (E.most disk.now) }
{
    compacted_size(node) <= disk.room()
}

/// How many bytes the journal has, or the greatest word where they are more.
pub(crate) fn compacted_size(node: &Node) -> u64
    ensures { length node.now.blocks ≡ node.now.config.blocks
        → result ≡ min (compacted_len node.now) (2 ^ 64 - 1) }
{
    kept_count(node)
        .saturating_mul(body_size(node.config()) + 1)
        .saturating_add(1)
}

/// How many slots the journal has, or the greatest word where they are more.
pub(crate) fn kept_count(node: &Node) -> u64
    ensures { length node.now.blocks ≡ node.now.config.blocks
        → result ≡ min (length (kept_slots node.now)) (2 ^ 64 - 1) }
{
    let mut kept: u64 = 0;
    for block in 0..node.config().blocks() {
        kept = kept.saturating_add(node.later_count(block) as u64);
    }
    kept
}

// Writes the slots of all blocks. What is still ahead stands behind the disk's bytes.
fn write_blocks<E: Disk>(node: &Node, disk: &mut E, ahead: &mut Vec<u8>) -> Result<(), CompactFault>
    requires whole { AreWhole node.now.config (kept_slots node.now) }
    requires count { length node.now.blocks ≡ node.now.config.blocks }
    requires begins { E.seen disk.old ++ ahead.old.items ≡ [] }
    requires fits { compacted_len node.now ≤ E.most disk.old }
    ensures journal { OnOk result
        (E.seen disk.new ++ ahead.new.items ≡ open_slots (kept_slots node.now)) }
    ensures fitting { OnOk result (AreFitting node.now.config (kept_slots node.now)) }
    ensures room { E.most disk.new ≡ E.most disk.old }
    ensures only { IfErr result IsWant }
    ensures calm { OnOk result (E.faults disk.new ≡ E.faults disk.old) }
    ensures later { E.faults disk.old ≤ E.faults disk.new }
    ensures cause { IfErr result (IfDiskFailed (Rose E.last (E.faults disk.old) (E.faults disk.new))) }
{
    for block in 0..node.config().blocks() {
        write_block(node, disk, ahead, block)?;
    }
    Ok(())
}

// Writes the slots of one block.
fn write_block<E: Disk>(
    node: &Node,
    disk: &mut E,
    ahead: &mut Vec<u8>,
    block: u32,
) -> Result<(), CompactFault>
    requires there { block < node.now.config.blocks }
    requires whole { AreWhole node.now.config (slots_in block (versions_in node.now block)) }
    requires fits { length (E.seen disk.old ++ ahead.old.items)
        + length (slots_in block (versions_in node.now block)) * (body_len node.now.config + 1)
        ≤ E.most disk.old }
    ensures journal { OnOk result (E.seen disk.new ++ ahead.new.items
        ≡ (E.seen disk.old ++ ahead.old.items)
        ++ open_slots (slots_in block (versions_in node.now block))) }
    ensures fitting { OnOk result
        (AreFitting node.now.config (slots_in block (versions_in node.now block))) }
    ensures room { E.most disk.new ≡ E.most disk.old }
    ensures only { IfErr result IsWant }
    ensures calm { OnOk result (E.faults disk.new ≡ E.faults disk.old) }
    ensures later { E.faults disk.old ≤ E.faults disk.new }
    ensures cause { IfErr result
        (IfDiskFailed (Rose E.last (E.faults disk.old) (E.faults disk.new))) }
{
    for k in 0..node.later_count(block) {
        match node.later_version(block, k) {
            Some(version) => write_slot(node, disk, ahead, block, version)?,
            None => return Ok(()),
        }
    }
    Ok(())
}

// Writes one slot, or leaves it ahead until more are written with it.
fn write_slot<E: Disk>(
    node: &Node,
    disk: &mut E,
    ahead: &mut Vec<u8>,
    block: u32,
    version: LentVersion<'_>,
) -> Result<(), CompactFault>
    requires count { length version.sum.now ≡ node.now.config.n }
    requires share { length version.fragment.now ≡ share_of node.now.config }
    requires fits { length (E.seen disk.old ++ ahead.old.items) + (body_len node.now.config + 1)
        ≤ E.most disk.old }
    ensures journal { OnOk result (E.seen disk.new ++ ahead.new.items
        ≡ (E.seen disk.old ++ ahead.old.items)
        ++ (1 ∷ body_of (version_slot block (lent version.entry)))) }
    ensures fitting { OnOk result (Fits node.now.config (version_slot block (lent version.entry))) }
    ensures room { E.most disk.new ≡ E.most disk.old }
    ensures only { IfErr result IsWant }
    ensures calm { OnOk result (E.faults disk.new ≡ E.faults disk.old) }
    ensures later { E.faults disk.old ≤ E.faults disk.new }
    ensures cause { IfErr result
        (IfDiskFailed (Rose E.last (E.faults disk.old) (E.faults disk.new))) }
{
    ahead.push(1)?;
    write_body(
        ahead,
        node.config(),
        block,
        version.stamp,
        version.sum,
        version.fragment,
    )?;
    if ahead.len() < CHUNK {
        return Ok(());
    }
    flush(disk, ahead)?;
    Ok(())
}

// Writes what is ahead behind the disk's bytes.
fn flush<E: Disk>(disk: &mut E, ahead: &mut Vec<u8>) -> Result<(), DiskFault>
    requires fits { length (E.seen disk.old ++ ahead.old.items) ≤ E.most disk.old }
    ensures journal { OnOk result (E.seen disk.new ≡ E.seen disk.old ++ ahead.old.items) }
    ensures none { OnOk result (ahead.new.items ≡ []) }
    ensures room { E.most disk.new ≡ E.most disk.old }
    ensures cause { HasCause E.last (E.faults disk.old) (E.faults disk.new) result }
{
    let end = disk.len()?;
    disk.write_at(end, ahead)?;
    ahead.clear();
    Ok(())
}
