//! What a client read last of a block.
ghost use Rattle.std.specs.Prelude.{◌≡◌, map};
ghost use Rattle.std.specs.Option.{option_copied};
ghost use Rattle.protocol.specs.Seen.{record_of, block_of};
ghost use Rattle.block_device.specs.Latest.{latest_read, read_by};

use cross_sum::Bytes;
use run_words::{Outcome, Record};
use wire_forms::Op;

/// The value that the client's latest ended read of the block gave, if there is one. It is searched from the end, since a step that
/// changes a block follows its read.
pub(crate) fn latest_read(records: &[Record], client: u32, block: u32) -> Option<&Bytes>
    ensures { option_copied result ≡ latest_read client block (map record_of records.now) }
{
    let mut at = records.len();
    while at > 0 {
        at -= 1;
        if let Some(value) = read_by(&records[at], client, block) {
            return Some(value);
        }
    }
    None
}

/// The value that the client's read of the block gave, if this is one that has.
fn read_by(operation: &Record, client: u32, block: u32) -> Option<&Bytes>
    ensures { option_copied result ≡ read_by client block (record_of operation.now) }
{
    if operation.client != client || block_of(&operation.op) != block {
        return None;
    }
    match &operation.outcome {
        Some(Outcome::Gave { value, .. }) => Some(value),
        _ => None,
    }
}

/// The block that an operation is on.
pub fn block_of(op: &Op) -> u32
    ensures { result ≡ block_of op.now }
{
    match op {
        Op::Read { block } | Op::Write { block, .. } => *block,
    }
}
