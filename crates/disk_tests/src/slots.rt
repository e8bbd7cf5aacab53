ghost use Rattle.std.specs.Prelude.{◌≡◌, ◌≤◌, ◌<◌, IfOk};

use crate::nodes::{cluster, failing_at, holding, opened, times, times_on, version, written};
use disk_model::{CalmDisk, Disk, MemoryDisk};
use lists::NoMemory;
use std::alloc::Global;
use std::process::Abort;
use std::test::Fail;
use version_disk::{OpenRefusal, Prune, StoreRefusal, StoredNode};

// Node 0 on an empty disk that has this room.
fn on_empty(rt: &impl Abort, alloc: Global, room: usize) -> Result<StoredNode<CalmDisk>, NoMemory>
    requires { 1 ≤ room }
    ensures { IfOk result (λ s. 0 < s.node.config.blocks) }
{
    opened(rt, alloc, CalmDisk::new(alloc, room)?)
}

// How many bytes a node's disk has, and the first and the last of them.
fn ends(node: &StoredNode<CalmDisk>) -> (usize, Option<u8>, Option<u8>) {
    let bytes = node.disk().bytes();
    (bytes.len(), bytes.first().copied(), bytes.last().copied())
}

// A slot has 50 + 32 * 5 + 1 = 211 bytes, and the closed gate behind it one. The second write is there already.
#[test]
fn a_write_is_one_slot(rt: HostRuntime) -> Result<(), Fail> {
    let alloc = rt.alloc();
    let mut node = on_empty(&rt, alloc, 4096)?;
    assert!(rt; node.disk().bytes().len() == 1);
    for _ in 0..2 {
        assert!(rt; written(alloc, &mut node, 1) == Ok(true));
        assert!(rt; ends(&node) == (212, Some(1), Some(0)));
    }
    Ok(())
}

// Whether a write meets a fault of the disk, after which the node is broken.
fn breaks(alloc: Global, node: &mut StoredNode<MemoryDisk>) -> bool {
    written(alloc, node, 1) == Err(StoreRefusal::DiskFault)
        && written(alloc, node, 1) == Err(StoreRefusal::Broken)
}

// How many versions are there after a crash, where a write was stopped at this call of the disk.
fn kept_of_stopped(
    rt: &impl Abort,
    alloc: Global,
    call: u64,
    lose: bool,
) -> Result<usize, NoMemory> {
    let mut node = opened(rt, alloc, failing_at(alloc, call)?)?;
    assert!(rt; breaks(alloc, &mut node));
    let kept = times_on(rt, alloc, node.into_disk().crash(lose))?;
    Ok(kept.len())
}

// On an empty disk opening makes calls 0 to 4 (sync, len, read, write, sync); a write makes four more.
#[test]
fn a_stopped_write_is_whole_or_not_there(rt: HostRuntime) -> Result<(), Fail> {
    for call in 5..9u64 {
        for lose in [true, false] {
            let whole = call == 8 && !lose;
            let kept = kept_of_stopped(&rt, rt.alloc(), call, lose)?;
            assert!(rt; kept == if whole { 2 } else { 1 });
        }
    }
    Ok(())
}

// Whether a node takes writes of the times 1 and 2, and a prune by the second. Then it takes that prune as one of many, which drops
// nothing any more, so no slot is written.
fn takes_prune(alloc: Global, node: &mut StoredNode<CalmDisk>) -> Result<bool, StoreRefusal>
    requires { 0 < node.old.node.config.blocks }
    ensures { node.new.node.config ≡ node.old.node.config }
{
    let second = version(alloc, 2)?.stamp;
    let are_written = written(alloc, node, 1)? && written(alloc, node, 2)?;
    node.prune(0, &second)?;
    node.prune_all(&[Prune {
        block: 0,
        stamp: second,
    }])?;
    Ok(are_written)
}

// Whether a node keeps versions of the times 0 and 2 alone.
fn keeps_second<D: Disk>(alloc: Global, node: &StoredNode<D>) -> Result<bool, NoMemory>
    requires { 0 < node.now.node.config.blocks }
{
    Ok(times(alloc, node)?.as_slice() == [0, 2].as_slice())
}

// The same of a node that is opened on this disk.
fn holds_second<D: Disk + Drop>(rt: &impl Abort, alloc: Global, disk: D) -> Result<bool, NoMemory>
    requires { 1 ≤ D.most disk }
{
    let node = opened(rt, alloc, disk)?;
    Ok(node.greatest_time(0) == 2 && keeps_second(alloc, &node)?)
}

#[test]
fn a_prune_is_one_slot(rt: HostRuntime) -> Result<(), Fail> {
    let alloc = rt.alloc();
    let mut node = on_empty(&rt, alloc, 4096)?;
    assert!(rt; takes_prune(alloc, &mut node) == Ok(true));
    assert!(rt; node.disk().bytes().len() == 634);
    assert!(rt; keeps_second(alloc, &node) == Ok(true));
    assert!(rt; holds_second(&rt, alloc, node.into_disk()) == Ok(true));
    Ok(())
}

// Room for the first gate and all but the last byte of what a slot needs; then for that byte too.
#[test]
fn a_disk_is_full_where_a_slot_does_not_fit(rt: HostRuntime) -> Result<(), Fail> {
    let alloc = rt.alloc();
    let mut node = on_empty(&rt, alloc, 211)?;
    assert!(rt; written(alloc, &mut node, 1) == Err(StoreRefusal::Full));
    assert!(rt; node.disk().bytes().len() == 1);
    assert!(rt; node.make_room().is_ok());
    assert!(rt; written(alloc, &mut node, 1) == Ok(true));
    Ok(())
}

// A disk with a slot of kind 2, which is none that a node writes, behind a gate of this byte.
fn with_bad_slot(alloc: Global, gate: u8) -> Result<MemoryDisk, NoMemory> {
    let mut bytes = vec![in alloc; 0; 212]?;
    bytes[0] = gate;
    bytes[1] = 2;
    holding(alloc, &bytes)
}

// The first bad slot of a disk, where it isn't opened for that.
fn bad_slot<D: Disk + Drop>(rt: &impl Abort, alloc: Global, disk: D) -> Option<u64>
    requires { 1 ≤ D.most disk }
{
    match StoredNode::open(alloc, &cluster(rt), 0, disk) {
        Err(OpenRefusal::Damaged { slot, .. }) => Some(slot),
        _ => None,
    }
}

// A slot that isn't open isn't looked at.
#[test]
fn a_bad_slot_is_told_where_it_is_open(rt: HostRuntime) -> Result<(), Fail> {
    let alloc = rt.alloc();
    for (gate, bad) in [(1, Some(0)), (0, None)] {
        let disk = with_bad_slot(alloc, gate)?;
        assert!(rt; bad_slot(&rt, alloc, disk) == bad);
    }
    Ok(())
}
