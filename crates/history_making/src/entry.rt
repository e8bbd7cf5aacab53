use cross_sum::Bytes;

/// What an entry of a history is.
#[derive(Clone, Copy, Debug, PartialEq, Eq)]
pub enum Kind {
    /// A completed read.
    Read,
    /// A write of a correct client: a completed one, or a pending one that a read saw.
    Write,
    /// A write that a read saw and no correct client made.
    Foreign,
}

/// An entry of a history.
#[derive(Drop)]
pub struct Entry {
    pub block: u32,
    /// The stamp's time.
    pub time: u64,
    /// The stamp's client.
    pub writer: u32,
    /// The number of the stamp's verifier among those of this block, time and writer, from 1 in their order.
    pub mark: u32,
    pub kind: Kind,
    /// Whose operation it is; of a foreign write the stamp's client.
    pub client: u32,
    /// The place at which it started. A foreign write has none.
    pub start: Option<u64>,
    /// The place at which it ended. A pending or foreign write has none.
    pub end: Option<u64>,
    pub value: Bytes,
}

/// A write that found no time left.
#[derive(Clone, Copy, Debug, PartialEq, Eq)]
pub struct Spent {
    pub client: u32,
    pub start: u64,
    pub end: u64,
}

/// What a report counts.
#[derive(Clone, Copy, Debug, PartialEq, Eq)]
pub struct Counts {
    /// Completed reads and writes.
    pub done: u64,
    /// Writes that found no time left.
    pub spent: u64,
    /// Operations that haven't ended.
    pub pending: u64,
    /// Completed reads that stored again what they gave.
    pub repaired: u64,
    /// The rounds of all completed reads.
    pub rounds: u64,
}
