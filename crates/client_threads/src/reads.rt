//! What the reads of a run's clients gave, as the records tell that their desks keep.
ghost use Rattle.std.specs.Prelude.{◌≡◌, ◌++◌, IfOk, OnOk, map, option_to_list};
ghost use Rattle.protocol.specs.Seen.{record_of};
ghost use Rattle.client_threads.specs.Reads.{records_of, given_by, ends_since, early_by, late_by, early_in, late_in, early_reads, late_reads};

use block_device::block_of;
use client_duties::ClientDuty;
use lists::NoMemory;
use phase_threads::Seat;
use plan_followed::BlockStamp;
use run_words::{Outcome, Record};
use std::alloc::Global;

/// What all reads gave.
#[derive(Drop)]
pub(crate) struct Given {
    /// What those of the phases before gave.
    pub(crate) early: Vec<BlockStamp>,
    /// What those of the phase that ends gave.
    pub(crate) late: Vec<BlockStamp>,
}

/// Gathers what the clients' reads gave. The phase that ends began at this number.
pub(crate) fn gather(
    alloc: Global,
    seats: &[Seat<ClientDuty>],
    begun: u64,
) -> Result<Given, NoMemory>
    ensures early { IfOk result (λ g. g.early.items ≡ early_reads begun seats.now) }
    ensures late { IfOk result (λ g. g.late.items ≡ late_reads begun seats.now) }
{
    let mut early = Vec::new(alloc);
    let mut late = Vec::new(alloc);
    for seat in seats {
        add_reads(&mut early, &mut late, records_of(seat), begun)?;
    }
    Ok(Given { early, late })
}

// The records of a client, if it is a correct one.
fn records_of(seat: &Seat<ClientDuty>) -> &[Record]
    ensures { map record_of result.now ≡ records_of seat.now }
{
    match &seat.duty {
        ClientDuty::Client(_) => seat.desk.records(),
        ClientDuty::Lying(_) => &[],
    }
}

// Adds what a client's reads gave.
fn add_reads(
    early: &mut Vec<BlockStamp>,
    late: &mut Vec<BlockStamp>,
    records: &[Record],
    begun: u64,
) -> Result<(), NoMemory>
    ensures early { OnOk result
        (early.new.items ≡ early.old.items ++ early_in begun (map record_of records.now)) }
    ensures late { OnOk result
        (late.new.items ≡ late.old.items ++ late_in begun (map record_of records.now)) }
{
    for record in records {
        add(early, early_by(begun, record))?;
        add(late, late_by(begun, record))?;
    }
    Ok(())
}

// Adds what one read gave, if it gave something.
fn add(given: &mut Vec<BlockStamp>, read: Option<BlockStamp>) -> Result<(), NoMemory>
    ensures { OnOk result (given.new.items ≡ given.old.items ++ option_to_list read) }
{
    if let Some(read) = read {
        given.push(read)?;
    }
    Ok(())
}

// What the read of a record gave, if it ended before this number.
fn early_by(from: u64, one: &Record) -> Option<BlockStamp>
    ensures { result ≡ early_by from (record_of one.now) }
{
    if ends_since(from, one.end) {
        return None;
    }
    given_by(one)
}

// What the read of a record gave, if it ended at this number or a later one.
fn late_by(from: u64, one: &Record) -> Option<BlockStamp>
    ensures { result ≡ late_by from (record_of one.now) }
{
    if ends_since(from, one.end) {
        return given_by(one);
    }
    None
}

// What the read of a record gave, if it is one that gave something.
fn given_by(one: &Record) -> Option<BlockStamp>
    ensures { result ≡ given_by (record_of one.now) }
{
    let Some(Outcome::Gave { stamp, .. }) = &one.outcome else {
        return None;
    };
    Some(BlockStamp {
        block: block_of(&one.op),
        stamp: *stamp,
    })
}

// Whether an operation that ended at this place ended at the number or later: places count from 1, and numbers from 0.
fn ends_since(from: u64, end: Option<u64>) -> bool
    ensures { result ≡ ends_since from end }
{
    match end {
        Some(end) => from < end,
        None => false,
    }
}
