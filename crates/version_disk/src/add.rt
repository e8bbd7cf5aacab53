ghost use Rattle.std.specs.Prelude.{◌≡◌, ◌≤◌, ◌<◌, ◌+◌, ◌^◌, true, Some, IfErr, OnOk};
ghost use Rattle.outside_io.specs.Causes.{Rose};
ghost use Rattle.disk_model.specs.Crash.{LeavesOnly};
ghost use Rattle.protocol.specs.Nodes.{pruned};
ghost use Rattle.protocol.specs.Instance.{setting};
ghost use Rattle.node_core.specs.Seen.{versions_in, with_versions, after_of, accepts_of};
ghost use Rattle.slot_disk.specs.Slots.{body_len};
ghost use Rattle.version_disk.specs.Kept.{IsKept};
ghost use Rattle.version_disk.specs.Deeds.{IsDone, IsDoneOrNot};
ghost use Rattle.version_disk.specs.Deeds.Deed.{Answers, Prunes};
ghost use Rattle.version_disk.specs.Stored.{fits, all_fit};
ghost use Rattle.version_disk.specs.Refusals.{IfFailed, IfCalm, IsMemoryOrFault};

use crate::keep::keep_slot;
use crate::refusal::StoreRefusal;
use disk_model::Disk;
use node_core::Node;
use slot_disk::body::body_size;
use slot_disk::piece::{prune_piece, version_piece};
use stamp_order::Stamp;
use std::alloc::Global;
use wire_forms::{Ask, Version};

// Whether the slot behind so many, and the byte after it, fit the disk's room.
pub(crate) fn has_place<D: Disk>(node: &Node, disk: &D, count: u64) -> bool
    ensures place { result ≡ fits (body_len node.now.config) count (D.most disk.now) }
    ensures small { D.most disk.now < 2 ^ 63 }
{
    have_places(node, disk, count, 1)
}

// Whether so many slots behind so many, if any, and the byte after them, fit the disk's room.
pub(crate) fn have_places<D: Disk>(node: &Node, disk: &D, count: u64, more: u64) -> bool
    ensures places { result ≡ all_fit (body_len node.now.config) count more (D.most disk.now) }
    ensures small { D.most disk.now < 2 ^ 63 }
{
    let end = count
        .saturating_add(more)
        .saturating_mul(body_size(node.config()) + 1)
        .saturating_add(1);
    let room = disk.room();
    more == 0 || end <= room
}

// Adds the version that a node prepared for an ask, and its slot to the disk. The memory is taken before the disk is written.
pub(crate) fn add_version<D: Disk>(
    alloc: Global,
    node: &mut Node,
    disk: &mut D,
    count: u64,
    ask: &Ask,
    version: Version,
) -> Result<(), StoreRefusal>
    requires kept { IsKept D.pending D.seen node.old.config node.old.number node.old count
        disk.old }
    requires added { Some version ≡ accepts_of node.old ask.now }
    requires fits { fits (body_len node.old.config) count (D.most disk.old) ≡ true }
    ensures state { OnOk result (node.new ≡ with_versions node.old ask.now.block
        (after_of node.old ask.now)) }
    ensures done { OnOk result (IsDone node.old.config node.old.number node.old (Answers ask.now)
        (D.seen disk.old) (D.seen disk.new)) }
    ensures kept { OnOk result (IsKept D.pending D.seen node.old.config node.old.number node.new
        (count + 1) disk.new) }
    ensures config { node.new.config ≡ node.old.config }
    ensures number { node.new.number ≡ node.old.number }
    ensures kinds { IfErr result IsMemoryOrFault }
    ensures calm { IfErr result (IfCalm (node.new ≡ node.old)) }
    ensures calm_disk { IfErr result (IfCalm (disk.new ≡ disk.old)) }
    ensures room { D.most disk.new ≡ D.most disk.old }
    ensures any_moment { LeavesOnly D.moment D.left_since disk.old disk.new
        (IsDoneOrNot node.old.config node.old.number node.old (Answers ask.now) (D.seen disk.old)) }
    ensures later { D.faults disk.old ≤ D.faults disk.new }
    ensures cause { IfErr result (IfFailed (Rose D.last (D.faults disk.old) (D.faults disk.new))) }
{
    let config = *node.config();
    let mut piece = version_piece(alloc, &config, ask.block, &version)?;
    node.commit(ask, Some(version))?;
    keep_slot(disk, &config, node.number(), count, &mut piece)?;
    Ok(())
}

// Prunes a block of a node, and adds the slot of that to the disk. The memory is taken before the disk is written.
pub(crate) fn add_prune<D: Disk>(
    alloc: Global,
    node: &mut Node,
    disk: &mut D,
    count: u64,
    block: u32,
    stamp: &Stamp,
) -> Result<(), StoreRefusal>
    requires kept { IsKept D.pending D.seen node.old.config node.old.number node.old count
        disk.old }
    requires there { block < node.old.config.blocks }
    requires fits { fits (body_len node.old.config) count (D.most disk.old) ≡ true }
    ensures state { OnOk result (node.new ≡ with_versions node.old block
        (pruned (setting node.old.config) stamp.now (versions_in node.old block))) }
    ensures done { OnOk result (IsDone node.old.config node.old.number node.old
        (Prunes block stamp.now) (D.seen disk.old) (D.seen disk.new)) }
    ensures kept { OnOk result (IsKept D.pending D.seen node.old.config node.old.number node.new
        (count + 1) disk.new) }
    ensures config { node.new.config ≡ node.old.config }
    ensures number { node.new.number ≡ node.old.number }
    ensures kinds { IfErr result IsMemoryOrFault }
    ensures calm { IfErr result (IfCalm (node.new ≡ node.old)) }
    ensures calm_disk { IfErr result (IfCalm (disk.new ≡ disk.old)) }
    ensures room { D.most disk.new ≡ D.most disk.old }
    ensures any_moment { LeavesOnly D.moment D.left_since disk.old disk.new
        (IsDoneOrNot node.old.config node.old.number node.old (Prunes block stamp.now)
        (D.seen disk.old)) }
    ensures later { D.faults disk.old ≤ D.faults disk.new }
    ensures cause { IfErr result (IfFailed (Rose D.last (D.faults disk.old) (D.faults disk.new))) }
{
    let config = *node.config();
    let mut piece = prune_piece(alloc, &config, block, stamp)?;
    node.prune(block, stamp);
    keep_slot(disk, &config, node.number(), count, &mut piece)?;
    Ok(())
}
