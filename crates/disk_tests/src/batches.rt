ghost use Rattle.std.specs.Prelude.{◌≡◌, ◌<◌, ◌+◌, ◌^◌};

use crate::crashes::{Draws, torn};
use crate::nodes::{cluster, failing_at, holding, opened, times, times_on, write};
use disk_model::{CalmDisk, Disk, MemoryDisk};
use lists::NoMemory;
use std::alloc::Global;
use std::process::Abort;
use std::test::Fail;
use version_disk::{OpenRefusal, StoreRefusal, StoredNode};
use wire_forms::{Ask, Reply};

/// So many versions of block 0 each call adds, in order of time. It asks for the first of them twice, so one ask more adds none.
const SIZES: [u64; 4] = [3, 1, 4, 2];

// The asks of a call that adds so many versions, where so many are there.
fn asks(alloc: Global, there: u64, size: u64) -> Result<Vec<Ask>, NoMemory>
    requires { there + size < 2 ^ 32 }
{
    let mut asks = Vec::new(alloc);
    for time in there..there + size {
        asks.push(write(alloc, 0, time + 1)?)?;
    }
    if size > 0 {
        asks.push(write(alloc, 0, there + 1)?)?;
    }
    Ok(asks)
}

// Lets a node add so many versions at once. Whether it acknowledges all asks, or why it takes none.
fn added<D: Disk>(
    alloc: Global,
    node: &mut StoredNode<D>,
    there: u64,
    size: u64,
) -> Result<bool, StoreRefusal>
    requires { there + size < 2 ^ 32 }
    ensures { node.new.node.config ≡ node.old.node.config }
{
    let asks = asks(alloc, there, size)?;
    let replies = node.handle_all(&asks)?;
    let are_acks = replies
        .as_slice()
        .iter()
        .all(|reply| matches!(reply, Reply::Ack));
    Ok(are_acks && replies.len() == asks.len())
}

// What a run of the calls came to: how many versions were acknowledged, how many may be there, and the disk that it leaves.
#[derive(Drop)]
struct Stopped {
    sure: u64,
    most: u64,
    disk: MemoryDisk,
}

// Opens a node on a disk that fails at this call of it, and lets it add versions until that.
fn run_until(rt: &impl Abort, alloc: Global, call: u64) -> Result<Stopped, NoMemory> {
    match StoredNode::open(alloc, &cluster(rt), 0, failing_at(alloc, call)?) {
        Ok(mut node) => {
            let (sure, most) = counts(alloc, &mut node);
            Ok(Stopped {
                sure,
                most,
                disk: node.into_disk(),
            })
        }
        Err(OpenRefusal::DiskFault(disk)) => Ok(Stopped {
            sure: 0,
            most: 0,
            disk,
        }),
        Err(_) => Err(NoMemory),
    }
}

fn counts(alloc: Global, node: &mut StoredNode<MemoryDisk>) -> (u64, u64) {
    let mut sure = 0u64;
    for size in SIZES {
        if added(alloc, node, sure % 1000, size % 1000) != Ok(true) {
            return (sure, sure.saturating_add(size));
        }
        sure = sure.saturating_add(size);
    }
    (sure, sure)
}

// Whether these are the numbers from 0 on, without a gap.
fn are_numbers(kept: &[u64]) -> bool {
    for (number, time) in kept.iter().enumerate() {
        if *time != number as u64 {
            return false;
        }
    }
    true
}

// Whether a disk, opened again, holds the versions of the times from 0 on, without a gap: all that are sure, and at most the others
// that there may be.
fn holds(rt: &impl Abort, alloc: Global, disk: MemoryDisk, sure: u64, most: u64) -> bool {
    match times_on(rt, alloc, disk) {
        Ok(kept) => {
            let last = (kept.len() as u64).saturating_sub(1);
            are_numbers(&kept) && sure <= last && last <= most
        }
        Err(NoMemory) => false,
    }
}

// Opening makes five calls of the disk; adding versions makes four, however many they are.
#[test]
fn a_failed_call_leaves_the_first_few_of_many(rt: HostRuntime) -> Result<(), Fail> {
    let alloc = rt.alloc();
    for call in 0..21u64 {
        for lose in [true, false] {
            let Stopped { sure, most, disk } = run_until(&rt, alloc, call)?;
            assert!(rt; holds(&rt, alloc, disk.crash(lose), sure, most));
        }
    }
    Ok(())
}

#[test]
fn all_are_there_where_no_call_fails(rt: HostRuntime) -> Result<(), Fail> {
    let alloc = rt.alloc();
    let Stopped { sure, most, disk } = run_until(&rt, alloc, 21)?;
    assert!(rt; sure == 10 && most == 10);
    assert!(rt; holds(&rt, alloc, disk.crash(true), 10, 10));
    Ok(())
}

// Whether none is there when the bodies of so many slots may be torn, and all or none when the gate in front of them may be.
fn holds_torn(
    rt: &impl Abort,
    alloc: Global,
    there: u64,
    size: u64,
    draws: &mut Draws,
) -> Result<bool, NoMemory>
    requires { there + size < 100 }
{
    let mut node = opened(rt, alloc, holding(alloc, &[])?)?;
    let first = there as usize;
    let count = size as usize;
    if added(alloc, &mut node, 0, there) != Ok(true) {
        return Ok(false);
    }
    let bytes = Vec::from_slice(alloc, node.disk().bytes())?;
    let left = torn(alloc, &bytes, first * 211 + 1, count * 211, draws)?;
    let bodies_torn = holds(rt, alloc, holding(alloc, &left)?, there, there);
    if added(alloc, &mut node, there, size) != Ok(true) {
        return Ok(false);
    }
    let bytes = Vec::from_slice(alloc, node.disk().bytes())?;
    let left = torn(alloc, &bytes, first * 211, 1, draws)?;
    let none = holds(rt, alloc, holding(alloc, &left)?, there, there);
    let all = holds(
        rt,
        alloc,
        holding(alloc, &left)?,
        there + size,
        there + size,
    );
    Ok(bodies_torn && (none || all))
}

#[test]
fn any_bytes_in_written_ranges_leave_all_or_none(rt: HostRuntime) -> Result<(), Fail> {
    let alloc = rt.alloc();
    let mut draws = Draws { random: 41 };
    for (there, size) in [(0, 1), (0, 5), (2, 3), (6, 8)] {
        for _ in 0..8 {
            let holds = holds_torn(&rt, alloc, there, size, &mut draws);
            assert!(rt; holds == Ok(true));
        }
    }
    Ok(())
}

// Room for two slots, which have 211 bytes each, and the closed gate behind them. Where three don't fit, none is added.
#[test]
fn a_disk_is_full_for_all_or_none(rt: HostRuntime) -> Result<(), Fail> {
    let alloc = rt.alloc();
    let mut node = opened(&rt, alloc, CalmDisk::new(alloc, 423)?)?;
    assert!(rt; added(alloc, &mut node, 0, 3) == Err(StoreRefusal::Full));
    assert!(rt; added(alloc, &mut node, 0, 2) == Ok(true));
    assert!(rt; added(alloc, &mut node, 0, 0) == Ok(true));
    assert!(rt; node.disk().bytes().len() == 423);
    assert!(rt; times(alloc, &node)?.as_slice() == [0, 1, 2].as_slice());
    Ok(())
}
