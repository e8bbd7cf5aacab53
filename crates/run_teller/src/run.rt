//! A run whose lines have all taken place, and are told again.
ghost use Rattle.std.specs.Prelude.{◌≡◌, count_by, is_none};
ghost use Rattle.run_teller.specs.Outcomes.{is_done as done, is_spent as spent};

use lists::NoMemory;
use picture_svg::Outcomes;
use quorum_rules::Config;
use run_words::{Outcome, Record};
use stamp_order::Stamp;
use std::alloc::Global;
use std::collections::BTreeMap;
use std::fmt::Write;
use wire_forms::{Liars, Op};

/// The cluster, who lies, the records, and how the report names stamps.
#[derive(Drop)]
pub struct Run<'a> {
    pub(crate) alloc: Global,
    pub(crate) config: &'a Config,
    pub(crate) liars: &'a Liars,
    /// In order of start.
    records: &'a [Record],
    /// The operation that ends at a place.
    ends: BTreeMap<u64, &'a Record>,
    /// The first stamp of each block.
    first: Stamp,
    /// The mark that the report gives a stamp of a block.
    marks: BTreeMap<(u32, Stamp), u32>,
}

impl<'a> Run<'a> {
    /// The run of these records, which stand in order of start, in a cluster whose blocks have this first stamp. The report gives
    /// the stamp of an operation the mark that stands here at its start.
    pub fn of(
        alloc: Global,
        config: &'a Config,
        liars: &'a Liars,
        records: &'a [Record],
        first: Stamp,
        marks: &BTreeMap<u64, u32>,
    ) -> Result<Run<'a>, NoMemory> {
        let mut run = Run {
            alloc,
            config,
            liars,
            records,
            ends: BTreeMap::new(alloc),
            first,
            marks: BTreeMap::new(alloc),
        };
        run.add_all(marks)?;
        Ok(run)
    }

    fn add_all(&mut self, marks: &BTreeMap<u64, u32>) -> Result<(), NoMemory> {
        for record in self.records {
            if let Some(end) = record.end {
                self.ends.insert(end, record)?;
            }
            if let (Some(stamp), Some(mark)) = (record.stamp, marks.get(&record.start)) {
                self.marks.insert((block_of(&record.op), stamp), *mark)?;
            }
        }
        Ok(())
    }

    /// What became of how many operations.
    pub(crate) fn outcomes(&self) -> Outcomes {
        outcomes_of(self.records)
    }

    /// The operation that starts at a place.
    pub(crate) fn started_at(&self, place: u64) -> Option<&'a Record> {
        let number = self
            .records
            .binary_search_by_key(&place, |record| record.start);
        self.records.get(number.ok()?)
    }

    /// The operation that ends at a place.
    pub(crate) fn ended_at(&self, place: u64) -> Option<&'a Record> {
        self.ends.get(&place).copied()
    }

    /// The mark that the report gives a stamp of a block.
    fn mark_of(&self, block: u32, stamp: &Stamp) -> Option<u32> {
        match self.marks.get(&(block, *stamp)) {
            Some(mark) => Some(*mark),
            None if self.first == *stamp => Some(1),
            None => None,
        }
    }

    /// Adds time, client and mark of a stamp; for one that the report hasn't, the first digits of its verifier in place of the
    /// mark.
    pub(crate) fn add_name(
        &self,
        name: &mut String,
        block: u32,
        stamp: &Stamp,
    ) -> Result<(), NoMemory> {
        let Stamp { time, client, .. } = *stamp;
        write!(name, "{time}.{client}")?;
        match self.mark_of(block, stamp) {
            Some(mark) => write!(name, ".{mark}")?,
            None => {
                let [a, b, ..] = stamp.verifier;
                write!(name, "#{a:02x}{b:02x}")?;
            }
        }
        Ok(())
    }
}

/// What became of how many of these operations. No read is outvoted where only so many nodes lie as may.
fn outcomes_of(records: &[Record]) -> Outcomes
    ensures done { result.done ≡ count_by done records.now }
    ensures spent { result.spent ≡ count_by spent records.now }
    ensures pending { result.pending ≡ count_by (λ r. is_none r.outcome) records.now }
{
    Outcomes {
        done: records.iter().filter(|it| is_done(it)).count(),
        spent: records.iter().filter(|it| is_spent(it)).count(),
        pending: records.iter().filter(|it| it.outcome.is_none()).count(),
    }
}

fn is_done(told: &Record) -> bool
    ensures { result ≡ done told.now }
{
    matches!(told.outcome, Some(Outcome::Wrote(_) | Outcome::Gave { .. }))
}

fn is_spent(told: &Record) -> bool
    ensures { result ≡ spent told.now }
{
    matches!(told.outcome, Some(Outcome::Spent))
}

/// The block that an operation is on.
pub fn block_of(op: &Op) -> u32 {
    match op {
        Op::Read { block } | Op::Write { block, .. } => *block,
    }
}
