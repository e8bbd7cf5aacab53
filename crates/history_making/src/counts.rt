ghost use Rattle.std.specs.Prelude.{◌≡◌, ◌<◌, ◌^◌, length, map, sum_by, count_by, option_map, IfOk, IfSome, All};
ghost use Rattle.protocol.specs.Seen.{record_of};
ghost use Rattle.protocol.specs.Report.{is_done, is_spent, is_pending, is_repaired, rounds_of, spent_write, spent_writes, counts_of};
ghost use Rattle.history_making.specs.Tellings.{told_spent, told_counts};
ghost use Rattle.history_making.specs.Numbers.{HasClient};

use crate::{Counts, Spent};
use lists::{ItemList, NoMemory};
use run_words::{How, Outcome, Record};
use std::alloc::Global;

/// The writes that found no time left, in the order of their records.
pub fn spent_writes(alloc: Global, records: &[Record]) -> Result<ItemList<Spent>, NoMemory>
    ensures spent { IfOk result (λ spent.
        spent ≡ map told_spent (spent_writes (map record_of records.now))) }
    ensures numbers { IfOk result (λ spent. All HasClient spent) }
{
    let mut spent = ItemList::new(alloc);
    for operation in records {
        if let Some(write) = spent_write(operation) {
            spent.push(write)?;
        }
    }
    Ok(spent)
}

fn spent_write(operation: &Record) -> Option<Spent>
    ensures write { result ≡ option_map told_spent
        (spent_write (record_of operation.now) operation.now.outcome operation.now.end) }
    ensures numbers { IfSome result HasClient }
{
    // Says that the number is one of its type.
    prove!(operation.client <= u32::MAX);
    match (&operation.outcome, operation.end) {
        (Some(Outcome::Spent), Some(end)) => Some(Spent {
            client: operation.client,
            start: operation.start,
            end,
        }),
        _ => None,
    }
}

/// What a report counts of a run's records.
pub fn counts_of(records: &[Record]) -> Counts
    requires few { length records.now < 2 ^ 63 }
    requires rounds { sum_by (λ r. rounds_of r.outcome) (map record_of records.now) < 2 ^ 64 }
    ensures { result ≡ told_counts (counts_of (map record_of records.now)) }
{
    Counts {
        done: done(records),
        spent: spent(records),
        pending: pending(records),
        repaired: repaired(records),
        rounds: rounds_of(records),
    }
}

fn done(records: &[Record]) -> u64
    requires { length records.now < 2 ^ 63 }
    ensures { result ≡ count_by (λ r. is_done r.outcome) records.now }
{
    records.iter().filter(|r| is_done(r)).count() as u64
}

fn spent(records: &[Record]) -> u64
    requires { length records.now < 2 ^ 63 }
    ensures { result ≡ count_by (λ r. is_spent r.outcome) records.now }
{
    records.iter().filter(|r| is_spent(r)).count() as u64
}

fn pending(records: &[Record]) -> u64
    requires { length records.now < 2 ^ 63 }
    ensures { result ≡ count_by (λ r. is_pending r.end) records.now }
{
    records.iter().filter(|r| r.end.is_none()).count() as u64
}

fn repaired(records: &[Record]) -> u64
    requires { length records.now < 2 ^ 63 }
    ensures { result ≡ count_by (λ r. is_repaired r.outcome) records.now }
{
    records.iter().filter(|r| is_repaired(r)).count() as u64
}

fn is_done(operation: &Record) -> bool
    ensures { result ≡ is_done operation.now.outcome }
{
    matches!(
        operation.outcome,
        Some(Outcome::Wrote(_) | Outcome::Gave { .. })
    )
}

fn is_spent(operation: &Record) -> bool
    ensures { result ≡ is_spent operation.now.outcome }
{
    matches!(operation.outcome, Some(Outcome::Spent))
}

fn is_repaired(operation: &Record) -> bool
    ensures { result ≡ is_repaired operation.now.outcome }
{
    matches!(
        operation.outcome,
        Some(Outcome::Gave {
            how: How::Repaired,
            ..
        })
    )
}

/// The rounds of all completed reads.
fn rounds_of(records: &[Record]) -> u64
    requires { sum_by (λ r. rounds_of r.outcome) (map record_of records.now) < 2 ^ 64 }
    ensures { result ≡ sum_by (λ r. rounds_of r.outcome) (map record_of records.now) }
{
    let mut sum = 0;
    for operation in records {
        if let Some(Outcome::Gave { rounds, .. }) = &operation.outcome {
            sum += *rounds;
        }
    }
    sum
}
