ghost use Rattle.std.specs.Prelude.{◌≡◌, ◌≤◌, ◌<◌, ◌+◌, ◌^◌, IfOk};

use crate::nodes::{cluster, failing_at, holding, times_on, version, write};
use disk_model::{Disk, MemoryDisk};
use lists::NoMemory;
use std::alloc::Global;
use std::process::Abort;
use std::test::Fail;
use version_disk::{OpenRefusal, Prune, StoreRefusal, StoredNode};

/// So many deeds a node does: the numbers of 7, 14 and 21 are prunes of block 0, the others writes of the blocks in turn.
const DEEDS: u64 = 23;

// The time of the stamp by which this deed prunes, if it is a prune.
fn prune_time(deed: u64) -> Option<u64> {
    match deed {
        7 => Some(5),
        14 | 21 => Some(13),
        _ => None,
    }
}

// Lets the node do one deed.
pub(crate) fn act<D: Disk>(
    alloc: Global,
    node: &mut StoredNode<D>,
    deed: u64,
) -> Result<(), StoreRefusal>
    requires block { 0 < node.old.node.config.blocks }
    requires small { deed < 100 }
    ensures { node.new.node.config ≡ node.old.node.config }
{
    if let Some(time) = prune_time(deed) {
        let stamp = version(alloc, time)?.stamp;
        // one that drops versions can come as one of many too
        if deed == 14 {
            return node.prune_all(&[Prune { block: 0, stamp }]);
        }
        return node.prune(0, &stamp);
    }
    let ask = write(alloc, (deed % 2) as u32, deed + 1)?;
    node.handle(&ask)?;
    Ok(())
}

// Lets the node do its deeds until one fails. How many it did.
fn done_by<D: Disk>(alloc: Global, node: &mut StoredNode<D>) -> u64
    requires { 0 < node.old.node.config.blocks }
    ensures { result ≤ 23 }
{
    for deed in 0..DEEDS {
        if act(alloc, node, deed).is_err() {
            return deed;
        }
    }
    DEEDS
}

// Opens a node on a disk that fails at this call, and lets it do its deeds. How many it did, and the disk that it leaves.
fn stopped(rt: &impl Abort, alloc: Global, call: u64) -> Result<(u64, MemoryDisk), NoMemory>
    ensures { IfOk result (λ r. r.0 ≤ 23) }
{
    match StoredNode::open(alloc, &cluster(rt), 0, failing_at(alloc, call)?) {
        Ok(mut node) => {
            let done = done_by(alloc, &mut node);
            Ok((done, node.into_disk()))
        }
        Err(OpenRefusal::DiskFault(disk)) => Ok((0, disk)),
        Err(_) => Err(NoMemory),
    }
}

// The times that are kept of block 0 after so many deeds, told from the rules: a prune keeps the first version, the greatest time up
// to its own, and those above.
fn expected(alloc: Global, deeds: u64) -> Result<Vec<u64>, NoMemory>
    requires { deeds < 100 }
{
    let mut kept = vec![in alloc; 0; 1]?;
    for deed in 0..deeds {
        match prune_time(deed) {
            Some(time) => kept = pruned(alloc, &kept, time)?,
            None if deed % 2 == 0 => kept.push(deed + 1)?,
            None => {}
        }
    }
    Ok(kept)
}

fn pruned(alloc: Global, times: &[u64], most: u64) -> Result<Vec<u64>, NoMemory> {
    let mut greatest = 0;
    for time in times {
        if *time <= most && *time > greatest {
            greatest = *time;
        }
    }
    let mut left = Vec::new(alloc);
    for time in times {
        if *time == 0 || *time >= greatest {
            left.push(*time)?;
        }
    }
    Ok(left)
}

fn are_expected(alloc: Global, kept: &[u64], deeds: u64) -> Result<bool, NoMemory>
    requires { deeds < 100 }
{
    Ok(kept == expected(alloc, deeds)?.as_slice())
}

// Whether a disk, opened again, holds what the node had after so many deeds, or after one more.
fn holds(rt: &impl Abort, alloc: Global, disk: MemoryDisk, done: u64) -> Result<bool, NoMemory>
    requires { done < 99 }
{
    let kept = times_on(rt, alloc, disk)?;
    Ok(are_expected(alloc, &kept, done)? || are_expected(alloc, &kept, done + 1)?)
}

// Opening makes five calls, each deed four.
#[test]
fn a_failed_call_leaves_the_state_before_or_after(rt: HostRuntime) -> Result<(), Fail> {
    let alloc = rt.alloc();
    for call in 0..97u64 {
        for lose in [true, false] {
            let (done, left) = stopped(&rt, alloc, call)?;
            assert!(rt; done == call.saturating_sub(5) / 4);
            assert!(rt; holds(&rt, alloc, left.crash(lose), done)?);
        }
    }
    Ok(())
}

// Without a failure all deeds are done, and there are no more calls than those above.
#[test]
fn all_deeds_are_there_where_no_call_fails(rt: HostRuntime) -> Result<(), Fail> {
    let alloc = rt.alloc();
    let (done, left) = stopped(&rt, alloc, 97)?;
    assert!(rt; done == 23);
    let kept = times_on(&rt, alloc, left.crash(true))?;
    assert!(rt; kept.as_slice() == [0, 13, 17, 19, 21, 23].as_slice());
    Ok(())
}

// The same numbers are drawn for a seed each time.
#[derive(Drop)]
pub(crate) struct Draws {
    pub(crate) random: u64,
}

impl Draws {
    // A number below the limit, or 0.
    fn below(&mut self, limit: usize) -> usize {
        let random = self.random.wrapping_mul(6_364_136_223_846_793_005);
        self.random = random.wrapping_add(1_442_695_040_888_963_407);
        (self.random >> 33).checked_rem(limit as u64).unwrap_or(0) as usize
    }

    // A byte, more often than not a gate that is open.
    fn byte(&mut self) -> u8 {
        [1, 1, 0, 2, 255, 7][self.below(6) % 6]
    }
}

// What a crash may leave of these bytes, when the range was written after they were synced: any length up to its end, and any bytes
// in it.
pub(crate) fn torn(
    alloc: Global,
    bytes: &[u8],
    at: usize,
    count: usize,
    draws: &mut Draws,
) -> Result<Vec<u8>, NoMemory>
    requires { at + count < 2 ^ 32 }
{
    let mut left = Vec::new(alloc);
    for (place, byte) in bytes.iter().enumerate() {
        let written = at <= place && place < at + count;
        left.push(if written { draws.byte() } else { *byte })?;
    }
    let more = (at + count).saturating_sub(bytes.len());
    for _ in 0..draws.below(more.saturating_add(1)) {
        left.push(draws.byte())?;
    }
    Ok(left)
}

// A body and the gate behind it may be torn by the first two calls of a deed, its own gate by the last two. Whether the state before
// or after is left then.
fn holds_torn(
    rt: &impl Abort,
    alloc: Global,
    bytes: &[u8],
    call: u64,
    done: u64,
    draws: &mut Draws,
) -> Result<bool, NoMemory>
    requires { done ≤ 23 }
{
    let gate = done as usize * 211;
    let (at, count) = if call % 4 == 1 || call % 4 == 2 {
        (gate + 1, 211)
    } else {
        (gate, 1)
    };
    let left = torn(alloc, bytes, at, count, draws)?;
    holds(rt, alloc, holding(alloc, &left)?, done)
}

#[test]
fn any_bytes_in_a_written_range_leave_the_state_before_or_after(
    rt: HostRuntime,
) -> Result<(), Fail> {
    let alloc = rt.alloc();
    let mut draws = Draws { random: 59 };
    for call in 5..97u64 {
        let (done, left) = stopped(&rt, alloc, call)?;
        let synced = left.crash(true);
        for _ in 0..4 {
            let holds = holds_torn(&rt, alloc, synced.bytes(), call, done, &mut draws);
            assert!(rt; holds == Ok(true));
        }
    }
    Ok(())
}
