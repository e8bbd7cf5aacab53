use crate::outcome::Outcome;
use lists::{Copied, NoMemory};
use stamp_order::Stamp;
use wire_forms::Op;

/// An operation of a correct client, from its start on.
#[derive(Drop)]
pub struct Record {
    pub client: u32,
    pub op: Op,
    /// The place at which it started.
    pub start: u64,
    /// The place at which its last answer was heard, if it has ended.
    pub end: Option<u64>,
    /// The stamp that a write has chosen or a read has given.
    pub stamp: Option<Stamp>,
    /// How it ended, if it has.
    pub outcome: Option<Outcome>,
}

/// A version that a node accepted, the first version of a block aside.
#[derive(Clone, Copy, Debug, PartialEq, Eq)]
pub struct Accepted {
    pub node: u8,
    pub block: u32,
    pub stamp: Stamp,
}

impl Copied for Record {
    fn copy(&self) -> Result<Record, NoMemory> {
        Ok(Record {
            client: self.client,
            op: self.op.copy()?,
            start: self.start,
            end: self.end,
            stamp: self.stamp,
            outcome: match &self.outcome {
                Some(outcome) => Some(outcome.copy()?),
                None => None,
            },
        })
    }
}
