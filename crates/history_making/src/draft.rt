ghost use Rattle.std.specs.Prelude.{◌≡◌, ◌↔◌, ◌<◌, IsTrue, IfOk, option_map};
ghost use Rattle.stamp_order.specs.Stamps.{same_stamp};
ghost use Rattle.protocol.specs.Seen.{record_of};
ghost use Rattle.protocol.specs.History.{entry_cmp};
ghost use Rattle.protocol.specs.Report.{AreRivals};
ghost use Rattle.history_making.specs.Tellings.{told_with};
ghost use Rattle.history_making.specs.Numbers.{HasNumbers};
ghost use Rattle.history_making.specs.Drafts.{entry_of, candidate, is_of_version, foreign_of, is_reading, in_block_cmp, in_version_cmp};

use crate::{Entry, Kind, compare_places};
use cross_sum::Bytes;
use lists::{Copied, NoMemory};
use run_words::{Outcome, Record};
use stamp_order::Stamp;
use std::cmp::Ordering;
use wire_forms::Op;

/// An entry whose mark isn't known yet, with its stamp and value lent.
#[derive(Clone, Copy)]
pub struct Draft<'a> {
    pub block: u32,
    pub stamp: &'a Stamp,
    pub kind: Kind,
    pub client: u32,
    pub start: Option<u64>,
    pub end: Option<u64>,
    pub value: &'a Bytes,
}

impl<'a> Draft<'a> {
    /// The entry of a completed read, or of a write that has chosen its stamp.
    pub fn of(operation: &'a Record) -> Option<Draft<'a>>
        ensures { option_map entry_of result ≡ candidate (record_of operation.now) }
    {
        match &operation.op {
            Op::Read { block } => match &operation.outcome {
                Some(Outcome::Gave { stamp, value, .. }) => Some(Draft {
                    block: *block,
                    stamp,
                    kind: Kind::Read,
                    client: operation.client,
                    start: Some(operation.start),
                    end: operation.end,
                    value,
                }),
                _ => None,
            },
            Op::Write { block, value } => match &operation.stamp {
                Some(stamp) => Some(Draft {
                    block: *block,
                    stamp,
                    kind: Kind::Write,
                    client: operation.client,
                    start: Some(operation.start),
                    end: operation.end,
                    value,
                }),
                None => None,
            },
        }
    }

    /// The write that this read saw and no correct client made.
    pub fn foreign(&self) -> Draft<'a>
        ensures { entry_of result ≡ foreign_of (entry_of self.now) }
    {
        Draft {
            block: self.block,
            stamp: self.stamp,
            kind: Kind::Foreign,
            client: self.stamp.client,
            start: None,
            end: None,
            value: self.value,
        }
    }

    /// The entry under its mark.
    pub fn entry(&self, mark: u32) -> Result<Entry, NoMemory>
        ensures entry { IfOk result (λ entry. entry ≡ told_with mark (entry_of self.now)) }
        ensures numbers { IfOk result HasNumbers }
    {
        // Says that the numbers are those of their types.
        prove!(self.block <= u32::MAX && self.client <= u32::MAX);
        prove!(self.stamp.time <= u64::MAX && self.stamp.client <= u32::MAX);
        Ok(Entry {
            block: self.block,
            time: self.stamp.time,
            writer: self.stamp.client,
            mark,
            kind: self.kind,
            client: self.client,
            start: self.start,
            end: self.end,
            value: self.value.copy()?,
        })
    }

    /// Whether it is of this stamp.
    pub fn has_stamp(&self, stamp: &Stamp) -> bool
        ensures { result ≡ same_stamp self.now.stamp.now stamp.now }
    {
        self.stamp == stamp
    }

    /// Whether both are of one block and stamp.
    pub fn is_of_version(&self, other: &Draft) -> bool
        ensures { result ≡ is_of_version (entry_of self.now) (entry_of other.now) }
    {
        self.block == other.block && self.has_stamp(other.stamp)
    }

    /// Whether both are of one block, time and writer.
    pub fn is_rival(&self, other: &Draft) -> bool
        ensures { IsTrue result ↔ AreRivals (entry_of self.now) (entry_of other.now) }
    {
        self.block == other.block
            && self.stamp.time == other.stamp.time
            && self.stamp.client == other.stamp.client
    }

    /// By block, stamp, writes before reads, end place (none above all), client and start place. Most drafts differ in
    /// their block or stamp, so the rest is looked at only where these are equal.
    pub fn compare(&self, other: &Draft) -> Ordering
        ensures { result ≡ entry_cmp (entry_of self.now) (entry_of other.now) }
    {
        match self.block.cmp(&other.block) {
            Ordering::Equal => self.compare_in_block(other),
            differ => differ,
        }
    }

    /// By stamp, and then as versions. The times are looked at first, since a verifier takes long to compare.
    fn compare_in_block(&self, other: &Draft) -> Ordering
        ensures { result ≡ in_block_cmp (entry_of self.now) (entry_of other.now) }
    {
        match self.stamp.time.cmp(&other.stamp.time) {
            Ordering::Equal => self.compare_at_time(other),
            differ => differ,
        }
    }

    /// By the whole stamp, and then as versions.
    fn compare_at_time(&self, other: &Draft) -> Ordering
        ensures { result ≡ in_block_cmp (entry_of self.now) (entry_of other.now) }
    {
        match self.stamp.cmp(other.stamp) {
            Ordering::Equal => self.compare_in_version(other),
            differ => differ,
        }
    }

    /// Writes before reads, then by end place, client and start place.
    fn compare_in_version(&self, other: &Draft) -> Ordering
        ensures { result ≡ in_version_cmp (entry_of self.now) (entry_of other.now) }
    {
        self.is_read()
            .cmp(&other.is_read())
            .then(compare_places(self.end, other.end))
            .then(self.client.cmp(&other.client))
            .then(compare_places(self.start, other.start))
    }

    /// Whether it is a read.
    pub fn is_read(&self) -> bool
        ensures { result ≡ is_reading (entry_of self.now) }
    {
        self.kind == Kind::Read
    }
}
