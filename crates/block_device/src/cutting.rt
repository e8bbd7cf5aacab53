ghost use Rattle.std.specs.Prelude.{◌≡◌, ◌≤◌, ◌↔◌, ◌++◌, IfOk, OnOk, IsErrOf, All, None, Some, length};
ghost use Rattle.block_device.specs.Ranges.{start_of, len_of, fault_of, Reaches};
ghost use Rattle.block_device.specs.Steps.{put_steps, steps_in, steps_of, Fits};

use crate::pieces::{blocks_of, device_len, piece_of};
use crate::refusal::DeviceRefusal;
use crate::steps::{BlockStep, BlockSteps};
use cross_sum::Bytes;
use line_forms::DeviceFault;
use lists::NoMemory;
use quorum_rules::Config;
use std::alloc::Global;
use wire_forms::DeviceOp;

/// Why a command is refused, if it is: `PastEnd` where its range goes past the device's end, whatever its numbers, else
/// `EmptyRange` where it has no byte.
pub fn range_fault(config: &Config, op: &DeviceOp) -> Option<DeviceFault>
    ensures { result ≡ fault_of config.now op.now }
{
    let start = start_of(op);
    let len = len_of(op);
    let end = device_len(config);
    if start > end || len > end - start {
        return Some(DeviceFault::PastEnd);
    }
    if len == 0 {
        return Some(DeviceFault::EmptyRange);
    }
    None
}

/// The steps of a command. For each block that its range touches, from the first to the last, a get reads the block; a put
/// writes it whole where the range covers it, else reads it and then merges its bytes in.
///
/// `PastEnd` and `EmptyRange` come exactly where `range_fault` tells them.
pub fn commands(alloc: Global, config: &Config, op: &DeviceOp) -> Result<BlockSteps, DeviceRefusal>
    ensures steps { IfOk result (λ steps. steps ≡ steps_of config.now op.now) }
    ensures fit { IfOk result (λ steps. All (Fits config.now) steps) }
    ensures ok { OnOk result (fault_of config.now op.now ≡ None) }
    ensures past_end { IsErrOf result DeviceRefusal.PastEnd
        ↔ (fault_of config.now op.now ≡ Some DeviceFault.PastEnd) }
    ensures empty_range { IsErrOf result DeviceRefusal.EmptyRange
        ↔ (fault_of config.now op.now ≡ Some DeviceFault.EmptyRange) }
{
    if let Some(fault) = range_fault(config, op) {
        return Err(DeviceRefusal::from(fault));
    }
    Ok(steps_of(alloc, config, op)?)
}

/// The steps of a command that isn't refused.
fn steps_of(alloc: Global, config: &Config, op: &DeviceOp) -> Result<BlockSteps, NoMemory>
    requires { fault_of config.now op.now ≡ None }
    ensures { IfOk result (λ steps. steps ≡ steps_of config.now op.now) }
{
    let blocks = blocks_of(config, start_of(op), len_of(op));
    let mut steps = BlockSteps::new(alloc);
    for block in blocks.first..blocks.end {
        add_steps(&mut steps, config, op, block)?;
    }
    Ok(steps)
}

/// How many steps a command has that isn't refused, without making them.
pub fn step_count(config: &Config, op: &DeviceOp) -> u64
    requires { fault_of config.now op.now ≡ None }
    ensures { result ≡ length (steps_of config.now op.now) }
{
    let blocks = blocks_of(config, start_of(op), len_of(op));
    let mut count = 0;
    for touched in blocks.first..blocks.end {
        count += step_count_in(config, op, touched);
    }
    count
}

/// How many steps a command has in one block.
fn step_count_in(config: &Config, op: &DeviceOp, block: u32) -> u64
    requires { Reaches config.now (start_of op.now) (len_of op.now) block }
    ensures count { result ≡ length (steps_in config.now.size op.now block) }
    ensures few { result ≤ 2 }
{
    match op {
        DeviceOp::Get { .. } => 1,
        DeviceOp::Put { offset, bytes } => put_step_count(config, *offset, bytes, block),
    }
}

/// How many steps a put has in one block.
fn put_step_count(config: &Config, start: u64, bytes: &Bytes, block: u32) -> u64
    requires { Reaches config.now start (length bytes.now) block }
    ensures count { result ≡ length (put_steps config.now.size start bytes.now block) }
    ensures few { result ≤ 2 }
{
    let piece = piece_of(config, start, bytes.len() as u64, block);
    if piece.is_whole(config.size()) { 1 } else { 2 }
}

/// Adds the steps of a command in one block.
fn add_steps(
    steps: &mut BlockSteps,
    config: &Config,
    op: &DeviceOp,
    block: u32,
) -> Result<(), NoMemory>
    requires { Reaches config.now (start_of op.now) (len_of op.now) block }
    ensures { OnOk result (steps.new ≡ steps.old ++ steps_in config.now.size op.now block) }
{
    match op {
        DeviceOp::Get { .. } => steps.push(BlockStep::Read { block }),
        DeviceOp::Put { offset, bytes } => { add_put_steps(steps, config, *offset, bytes, block) }
    }
}

/// Adds the steps of a put in one block.
fn add_put_steps(
    steps: &mut BlockSteps,
    config: &Config,
    start: u64,
    bytes: &Bytes,
    block: u32,
) -> Result<(), NoMemory>
    requires { Reaches config.now start (length bytes.now) block }
    ensures { OnOk result (steps.new
        ≡ steps.old ++ put_steps config.now.size start bytes.now block) }
{
    let piece = piece_of(config, start, bytes.len() as u64, block);
    let part = Bytes::of(steps.allocator(), &bytes.as_slice()[piece.from..piece.to])?;
    if piece.is_whole(config.size()) {
        return steps.push(BlockStep::Whole { block, value: part });
    }
    steps.push(BlockStep::Read { block })?;
    steps.push(BlockStep::Merge {
        block,
        at: piece.at as u32,
        bytes: part,
    })
}

/// The place of a command's first byte.
fn start_of(op: &DeviceOp) -> u64
    ensures { result ≡ start_of op.now }
{
    match op {
        DeviceOp::Get { offset, .. } | DeviceOp::Put { offset, .. } => *offset,
    }
}

/// How many bytes a command's range has.
fn len_of(op: &DeviceOp) -> u64
    ensures { result ≡ len_of op.now }
{
    match op {
        DeviceOp::Get { length, .. } => *length,
        DeviceOp::Put { bytes, .. } => bytes.len() as u64,
    }
}
