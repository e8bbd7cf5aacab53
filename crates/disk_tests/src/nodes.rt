ghost use Rattle.std.specs.Prelude.{◌≡◌, ◌≤◌, ◌<◌, IfOk};

use cross_sum::{Bytes, CrossSum, sha};
use disk_model::{Disk, MemoryDisk};
use lists::{ItemList, NoMemory};
use outside_io::Calls;
use quorum_rules::Config;
use stamp_order::Stamp;
use std::alloc::Global;
use std::process::Abort;
use version_disk::{StoreRefusal, StoredNode};
use wire_forms::{Ask, Reply, Request, Version};

/// Five nodes, one of which may lie; blocks of two bytes in two fragments of one; two blocks.
pub(crate) fn cluster(rt: &impl Abort) -> Config {
    Config::new(5, 1, 1, 3, 2, 2, 2).expect(rt, "valid")
}

/// A version of this time, whose fragment at each node is one byte.
pub(crate) fn version(alloc: Global, time: u64) -> Result<Version, NoMemory> {
    let hash = sha(&[7]);
    let sum = CrossSum::of_hashes(alloc, &[hash, hash, hash, hash, hash])?;
    Ok(Version {
        stamp: Stamp {
            time,
            client: 1,
            verifier: sum.verifier(),
        },
        sum,
        fragment: Bytes::of(alloc, &[7])?,
    })
}

/// A write of that version.
pub(crate) fn write(alloc: Global, block: u32, time: u64) -> Result<Ask, NoMemory> {
    Ok(Ask {
        block,
        request: Request::Write(version(alloc, time)?),
    })
}

/// Lets a node answer a write of this time at block 0. Whether it acknowledges it, or why it doesn't take it.
pub(crate) fn written<D: Disk>(
    alloc: Global,
    node: &mut StoredNode<D>,
    time: u64,
) -> Result<bool, StoreRefusal>
    ensures { node.new.node.config ≡ node.old.node.config }
{
    let ask = write(alloc, 0, time)?;
    Ok(matches!(node.handle(&ask)?, Reply::Ack))
}

/// Node 0 on this disk.
pub(crate) fn opened<D: Disk + Drop>(
    rt: &impl Abort,
    alloc: Global,
    disk: D,
) -> Result<StoredNode<D>, NoMemory>
    requires { 1 ≤ D.most disk }
    ensures { IfOk result (λ s. 0 < s.node.config.blocks) }
{
    match StoredNode::open(alloc, &cluster(rt), 0, disk) {
        Ok(node) => Ok(node),
        Err(_) => Err(NoMemory),
    }
}

/// An empty disk that fails at this call.
pub(crate) fn failing_at(alloc: Global, call: u64) -> Result<MemoryDisk, NoMemory> {
    let mut calls = Calls::new(alloc);
    calls.push(call)?;
    Ok(MemoryDisk::new(alloc, calls))
}

/// A disk that holds these bytes.
pub(crate) fn holding(alloc: Global, bytes: &[u8]) -> Result<MemoryDisk, NoMemory> {
    let mut disk = MemoryDisk::new(alloc, Calls::new(alloc));
    match disk.write_at(0, bytes) {
        Ok(()) => Ok(disk),
        Err(_) => Err(NoMemory),
    }
}

/// The times of the versions that a node keeps of block 0, in order of acceptance.
pub(crate) fn times<D: Disk>(alloc: Global, node: &StoredNode<D>) -> Result<Vec<u64>, NoMemory>
    requires { 0 < node.now.node.config.blocks }
{
    let stamps = node.versions(0)?;
    let mut times = Vec::new(alloc);
    for stamp in stamps.as_slice() {
        times.push(stamp.time)?;
    }
    Ok(times)
}

/// The same of node 0, opened on this disk.
pub(crate) fn times_on(
    rt: &impl Abort,
    alloc: Global,
    disk: MemoryDisk,
) -> Result<Vec<u64>, NoMemory> {
    times(alloc, &opened(rt, alloc, disk)?)
}
