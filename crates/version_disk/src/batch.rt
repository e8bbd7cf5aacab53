//! Many asks that are answered at once: what is told, and the slots that are written.

ghost use Rattle.std.specs.Prelude.{◌≡◌, ◌≤◌, ◌<◌, ◌+◌, ◌^◌, [], ◌∷◌, ◌++◌, true, false, Some, length, vec_len, vec_capacity, IfOk, IfErr, OnOk, OnErr, IsErrOf};
ghost use Rattle.outside_io.specs.Causes.{Rose};
ghost use Rattle.disk_model.specs.Crash.{LeavesOnly};
ghost use Rattle.node_core.specs.Seen.{accepts_of};
ghost use Rattle.version_disk.specs.Batches.{IsBatchOf, IsOneMore};
ghost use Rattle.version_disk.specs.Deeds.{after_deed, answering, after_asks, replies_of, slots_by_all, AreDone, AreDoneInPart};
ghost use Rattle.version_disk.specs.Deeds.Deed.{Answers};
ghost use Rattle.version_disk.specs.Kept.{IsKept};
ghost use Rattle.version_disk.specs.Refusals.{IfFailed, IfCalm};
ghost use Rattle.slot_disk.specs.Slots.{body_len, body_of, version_slot, Fits};
ghost use Rattle.version_disk.specs.Stored.{all_fit};
ghost use Rattle.version_disk.specs.Undone.{undone, LeadTo};

use crate::add::have_places;
use crate::keep::keep_deeds;
use crate::refusal::StoreRefusal;
use disk_model::Disk;
use lists::{ItemList, NoMemory};
use node_core::{Node, Prepared, UndoRecord};
use slot_disk::piece::write_version;
use std::alloc::Global;
use wire_forms::{Ask, Reply, Version};

/// What is told, the pieces of the slots that are written, and the undo records of the versions that were added, all in order.
#[derive(Drop)]
pub(crate) struct Batch {
    pub(crate) replies: ItemList<Reply>,
    pub(crate) pieces: Vec<u8>,
    pub(crate) added: Vec<UndoRecord>,
}

/// Answers asks, one after the other, and writes the slots of the versions that are added to a disk, as many for two syncs. Also
/// answers how many there are. The memory is taken before the disk is written.
pub(crate) fn add_all<D: Disk>(
    alloc: Global,
    node: &mut Node,
    disk: &mut D,
    count: u64,
    asks: &[Ask],
) -> Result<(ItemList<Reply>, u64), StoreRefusal>
    requires kept { IsKept D.pending D.seen node.old.config node.old.number node.old count
        disk.old }
    ensures replies { IfOk result (λ r. r.0 ≡ replies_of node.old asks.now) }
    ensures more { IfOk result (λ r. r.1 ≡ length (slots_by_all node.old asks.now)) }
    ensures state { OnOk result (node.new ≡ after_asks node.old asks.now) }
    ensures done { OnOk result (AreDone node.old.config node.old.number node.old (answering asks.now)
        (D.seen disk.old) (D.seen disk.new)) }
    ensures kept { IfOk result (λ r. IsKept D.pending D.seen node.old.config node.old.number
        node.new (count + r.1) disk.new) }
    ensures small { IfOk result (λ r. count + r.1 < 2 ^ 64) }
    ensures untouched { OnOk result
        (slots_by_all node.old asks.now ≡ [] → disk.new ≡ disk.old) }
    ensures config { node.new.config ≡ node.old.config }
    ensures number { node.new.number ≡ node.old.number }
    ensures not_broken { IsErrOf result StoreRefusal.Broken → ⊥ }
    ensures full { IsErrOf result StoreRefusal.Full → all_fit (body_len node.old.config) count
        (length (slots_by_all node.old asks.now)) (D.most disk.old) ≡ false }
    ensures fits { OnOk result (all_fit (body_len node.old.config) count
        (length (slots_by_all node.old asks.now)) (D.most disk.old) ≡ true) }
    ensures fits_failed { IfErr result (IfFailed (all_fit (body_len node.old.config) count
        (length (slots_by_all node.old asks.now)) (D.most disk.old) ≡ true)) }
    ensures calm { IfErr result (IfCalm (node.new ≡ node.old)) }
    ensures calm_disk { IfErr result (IfCalm (disk.new ≡ disk.old)) }
    ensures room { D.most disk.new ≡ D.most disk.old }
    ensures any_moment { LeavesOnly D.moment D.left_since disk.old disk.new
        (AreDoneInPart node.old.config node.old.number node.old (answering asks.now)
        (D.seen disk.old)) }
    ensures later { D.faults disk.old ≤ D.faults disk.new }
    ensures cause { IfErr result (IfFailed (Rose D.last (D.faults disk.old) (D.faults disk.new))) }
{
    let config = *node.config();
    let mut batch = answer_all(alloc, node, asks)?;
    let more = batch.added.len() as u64;
    if !have_places(node, disk, count, more) {
        take_back(node, &mut batch.added);
        return Err(StoreRefusal::Full);
    }
    let Batch {
        replies,
        mut pieces,
        ..
    } = batch;
    keep_deeds(disk, &config, node.number(), count, more, &mut pieces)?;
    Ok((replies, more))
}

/// Answers asks, one after the other, and adds the versions that are accepted. Where no memory is found, none is added.
fn answer_all(alloc: Global, node: &mut Node, asks: &[Ask]) -> Result<Batch, NoMemory>
    ensures batch { IfOk result (λ batch. IsBatchOf node.old asks.now node.new batch) }
    ensures undone { IfOk result (λ batch. undone node.new batch.added.items ≡ node.old) }
    ensures led { IfOk result (λ batch. LeadTo node.new batch.added.items) }
    ensures config { node.new.config ≡ node.old.config }
    ensures number { node.new.number ≡ node.old.number }
    ensures err { OnErr result (node.new ≡ node.old) }
{
    let mut batch = Batch {
        replies: ItemList::new(alloc),
        pieces: Vec::new(alloc),
        added: Vec::new(alloc),
    };
    match answer_each(node, &mut batch, asks) {
        Ok(()) => Ok(batch),
        Err(NoMemory) => {
            take_back(node, &mut batch.added);
            Err(NoMemory)
        }
    }
}

// Answers asks until no memory is found. What was added then can be taken back.
fn answer_each(node: &mut Node, batch: &mut Batch, asks: &[Ask]) -> Result<(), NoMemory>
    requires batch { IsBatchOf node.old [] node.old batch.old }
    requires none { batch.old.added.items ≡ [] }
    ensures batch { OnOk result (IsBatchOf node.old asks.now node.new batch.new) }
    ensures undone { undone node.new batch.new.added.items ≡ node.old }
    ensures led { LeadTo node.new batch.new.added.items }
    ensures config { node.new.config ≡ node.old.config }
    ensures number { node.new.number ≡ node.old.number }
{
    for ask in asks {
        answer(node, batch, ask)?;
    }
    Ok(())
}

// Answers one ask more.
fn answer(node: &mut Node, batch: &mut Batch, ask: &Ask) -> Result<(), NoMemory>
    requires led { LeadTo node.old batch.old.added.items }
    ensures batch { OnOk result (IsOneMore node.old batch.old ask.now node.new batch.new) }
    ensures undone { undone node.new batch.new.added.items
        ≡ undone node.old batch.old.added.items }
    ensures led { LeadTo node.new batch.new.added.items }
    ensures config { node.new.config ≡ node.old.config }
    ensures number { node.new.number ≡ node.old.number }
{
    let Prepared { reply, added } = node.prepare(ask)?;
    batch.replies.push(reply)?;
    match added {
        Some(version) => add(node, batch, ask, version),
        None => Ok(()),
    }
}

// Adds a version that a node prepared for an ask, and writes its piece.
fn add(node: &mut Node, batch: &mut Batch, ask: &Ask, version: Version) -> Result<(), NoMemory>
    requires added { Some version ≡ accepts_of node.old ask.now }
    requires led { LeadTo node.old batch.old.added.items }
    ensures state { OnOk result (node.new ≡ after_deed node.old (Answers ask.now)) }
    ensures replies { batch.new.replies ≡ batch.old.replies }
    ensures pieces { OnOk result (batch.new.pieces.items ≡ batch.old.pieces.items
        ++ (body_of (version_slot ask.now.block version) ++ 0 ∷ [])) }
    ensures fits { OnOk result (Fits node.old.config (version_slot ask.now.block version)) }
    ensures count { OnOk result
        (length batch.new.added.items ≡ length batch.old.added.items + 1) }
    ensures undone { undone node.new batch.new.added.items
        ≡ undone node.old batch.old.added.items }
    ensures led { LeadTo node.new batch.new.added.items }
    ensures config { node.new.config ≡ node.old.config }
    ensures number { node.new.number ≡ node.old.number }
{
    batch.added.reserve(1)?;
    write_version(&mut batch.pieces, node.config(), ask.block, &version)?;
    let undo = node.add_version(ask, version)?;
    note(&mut batch.added, undo);
    Ok(())
}

// Notes one more, where there is room.
fn note(list: &mut Vec<UndoRecord>, undo: UndoRecord)
    requires { vec_len list.old < vec_capacity list.old }
    ensures { list.new.items ≡ list.old.items ++ undo ∷ [] }
{
    let _ = list.push(undo);
}

/// Takes back all that was added, the last version first.
fn take_back(node: &mut Node, added: &mut Vec<UndoRecord>)
    requires { LeadTo node.old added.old.items }
    ensures { node.new ≡ undone node.old added.old.items }
{
    while let Some(last) = added.pop() {
        node.undo(last);
    }
}
