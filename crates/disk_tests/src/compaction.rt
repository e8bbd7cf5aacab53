ghost use Rattle.std.specs.Prelude.{◌≡◌, ◌≤◌, ◌<◌, IfOk};

use crate::crashes::act;
use crate::nodes::{failing_at, holding, opened, times, times_on, version, written};
use disk_model::{CalmDisk, Disk};
use std::alloc::Global;
use std::process::Abort;
use std::test::Fail;
use version_disk::{CompactFault, CompactRefusal, JournalLen, StoreRefusal, StoredNode};
use wire_forms::{Ask, Reply, Request};

// A node that has done the first 16 deeds of a crash test, and pruned block 0 by the time 13. It keeps of block 0 the time 13 beside
// the first version, of block 1 the times 2, 4, 6, 10, 12, 14 and 16. Its 17 slots have 211 bytes each.
fn worked(rt: &impl Abort, alloc: Global) -> Result<StoredNode<CalmDisk>, StoreRefusal>
    ensures { IfOk result (λ s. 0 < s.node.config.blocks) }
{
    let mut node = opened(rt, alloc, CalmDisk::new(alloc, 4096)?)?;
    for deed in 0..16u64 {
        act(alloc, &mut node, deed)?;
    }
    node.prune(0, &version(alloc, 13)?.stamp)?;
    Ok(node)
}

// The greatest times of both blocks.
fn greatest<D: Disk>(node: &StoredNode<D>) -> (Option<u64>, Option<u64>) {
    (greatest_of(node, 0), greatest_of(node, 1))
}

fn greatest_of<D: Disk>(node: &StoredNode<D>, block: u32) -> Option<u64> {
    match node.reply_to(&Ask {
        block,
        request: Request::Time,
    }) {
        Ok(Reply::TimeIs(time)) => Some(time),
        _ => None,
    }
}

#[test]
fn a_compacted_journal_has_a_slot_for_each_version(rt: HostRuntime) -> Result<(), Fail> {
    let alloc = rt.alloc();
    let node = worked(&rt, alloc).expect(&rt, "room");
    assert!(rt;
        node.journal_len()
            == JournalLen {
                now: 3588,
                compacted: 1689
            }
    );
    let disk = node
        .compact(CalmDisk::new(alloc, 1689)?)
        .ok()
        .expect(&rt, "room");
    assert!(rt; disk.bytes().len() == 1689);
    let again = opened(&rt, alloc, disk)?;
    assert!(rt; times(alloc, &again)?.as_slice() == [0, 13].as_slice());
    assert!(rt; greatest(&again) == (Some(13), Some(16)));
    assert!(rt;
        again.journal_len()
            == JournalLen {
                now: 1689,
                compacted: 1689
            }
    );
    Ok(())
}

// Its journal has 3588 bytes, and 210 more than twice those of the shortest.
#[test]
fn a_long_journal_is_due(rt: HostRuntime) {
    let node = worked(&rt, rt.alloc()).expect(&rt, "room");
    for (least, due) in [(0, true), (209, true), (210, false), (u64::MAX, false)] {
        assert!(rt; node.is_due(least) == due);
    }
}

// Why a node isn't compacted to this disk.
fn why<D: Disk, E: Disk + Drop>(node: &StoredNode<D>, disk: E) -> Option<CompactFault> {
    match node.compact(disk) {
        Ok(_) => None,
        Err(CompactRefusal { why, .. }) => Some(why),
    }
}

// Compaction asks for the length, and again before it writes, and syncs once.
#[test]
fn a_failed_call_of_compaction_is_told(rt: HostRuntime) -> Result<(), Fail> {
    let alloc = rt.alloc();
    let node = worked(&rt, alloc).expect(&rt, "room");
    for call in 0..5u64 {
        let fault = (call < 4).then_some(CompactFault::DiskFault);
        assert!(rt; why(&node, failing_at(alloc, call)?) == fault);
    }
    Ok(())
}

// A crash after the sync loses nothing.
#[test]
fn a_compacted_journal_is_safe(rt: HostRuntime) -> Result<(), Fail> {
    let alloc = rt.alloc();
    let node = worked(&rt, alloc).expect(&rt, "room");
    let disk = node.compact(failing_at(alloc, 9)?).ok().expect(&rt, "calm");
    let kept = times_on(&rt, alloc, disk.crash(true))?;
    assert!(rt; kept.as_slice() == [0, 13].as_slice());
    Ok(())
}

#[test]
fn what_cannot_be_compacted_is_told(rt: HostRuntime) -> Result<(), Fail> {
    let alloc = rt.alloc();
    let node = worked(&rt, alloc).expect(&rt, "room");
    assert!(rt; why(&node, CalmDisk::new(alloc, 1688)?) == Some(CompactFault::Full));
    assert!(rt; why(&node, holding(alloc, &[0])?) == Some(CompactFault::NotEmpty));
    let mut broken = opened(&rt, alloc, failing_at(alloc, 6)?)?;
    assert!(rt; written(alloc, &mut broken, 1) == Err(StoreRefusal::DiskFault));
    assert!(rt; why(&broken, CalmDisk::new(alloc, 4096)?) == Some(CompactFault::Broken));
    Ok(())
}
