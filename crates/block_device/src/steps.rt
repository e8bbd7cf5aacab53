ghost use Rattle.std.specs.Prelude.{◌≡◌, ◌+◌, ◌≤◌, ◌<◌, length, IfOk, IfSome, map};
ghost use Rattle.std.specs.Option.{option_copied};
ghost use Rattle.protocol.specs.Instance.{setting};
ghost use Rattle.protocol.specs.Messages.{IsBytes};
ghost use Rattle.protocol.specs.Seen.{record_of, block_of, work_of};
ghost use Rattle.protocol.specs.World.{Fits as FitsWork};
ghost use Rattle.block_device.specs.Device.{merged};
ghost use Rattle.block_device.specs.Latest.{AreWhole};
ghost use Rattle.block_device.specs.Steps.{Fits};
ghost use Rattle.block_device.specs.Ops.{op_of, step_of, value_of};

use crate::latest::latest_read;
use crate::merging::merge;
use cross_sum::Bytes;
use lists::{ItemList, NoMemory};
use quorum_rules::Config;
use run_words::Record;
use std::alloc::Global;
use wire_forms::Op;

/// What a command does to one block.
#[derive(Drop)]
pub enum BlockStep {
    /// Reads the block.
    Read { block: u32 },
    /// Writes the block, all of whose bytes the command gives.
    Whole { block: u32, value: Bytes },
    /// Writes the block as it was last read, but for these bytes from place `at` on.
    Merge { block: u32, at: u32, bytes: Bytes },
}

impl BlockStep {
    /// The step that an operation is.
    pub fn of(op: Op) -> BlockStep
        ensures { result ≡ step_of op }
    {
        match op {
            Op::Read { block } => BlockStep::Read { block },
            Op::Write { block, value } => BlockStep::Whole { block, value },
        }
    }

    /// The operation that the step is for a client, where the operations so far have these records: a merge changes what the client's
    /// latest read of the block gave, or zeros where it has read nothing. The operation is one that the client may start.
    pub fn into_op(
        self,
        alloc: Global,
        config: &Config,
        client: u32,
        records: &[Record],
    ) -> Result<Op, NoMemory>
        requires fits { Fits config.now self }
        requires whole { AreWhole config.now.size (map record_of records.now) }
        ensures op { IfOk result (λ op.
            op ≡ op_of config.now.size client (map record_of records.now) self) }
        ensures block { IfOk result (λ op. block_of op < config.now.blocks) }
        ensures fits { IfOk result (λ op. FitsWork (setting config.now) (work_of op)) }
    {
        match self {
            BlockStep::Read { block } => Ok(Op::Read { block }),
            BlockStep::Whole { block, value } => Ok(write_of(block, value)),
            BlockStep::Merge { block, at, bytes } => {
                let seen = latest_read(records, client, block);
                let value = merge_into(alloc, config, seen, at, &bytes)?;
                Ok(write_of(block, value))
            }
        }
    }
}

/// A write of a value, whose bytes are bytes.
fn write_of(block: u32, value: Bytes) -> Op
    ensures op { result ≡ Op.Write block value }
    ensures bytes { IsBytes value }
{
    let _bytes = value.as_slice();
    Op::Write { block, value }
}

/// What was read of a block, or zeros where nothing was, but for these bytes.
fn merge_into(
    alloc: Global,
    config: &Config,
    seen: Option<&Bytes>,
    at: u32,
    bytes: &Bytes,
) -> Result<Bytes, NoMemory>
    requires fits { at + length bytes.now ≤ config.now.size }
    requires seen { IfSome seen (λ old. length old.now ≡ config.now.size) }
    ensures value { IfOk result (λ value. value
        ≡ merged (value_of config.now.size (option_copied seen.entry)) at bytes.now) }
    ensures len { IfOk result (λ value. length value ≡ config.now.size) }
{
    match seen {
        Some(old) => merge(alloc, old, at, bytes),
        None => merge(
            alloc,
            &Bytes::zeros(alloc, config.size() as usize)?,
            at,
            bytes,
        ),
    }
}

/// Steps, in the order in which they are done.
pub type BlockSteps = ItemList<BlockStep>;
