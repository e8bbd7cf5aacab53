//! The records of a client's operations: one is opened where an operation starts, and tells what replies make of it.
ghost use Rattle.std.specs.Prelude.{◌≡◌, ◌<◌, ◌+◌, ◌-◌, ◌^◌, ◌++◌, ◌∷◌, [], ℕ, List, IfOk, map};
ghost use Rattle.protocol.specs.Seen.{Hearing, record_of, phase_of, task_at};
ghost use Rattle.protocol.specs.World.{Record as AnyRecord, open_record, stamp_of_outcome};
ghost use Rattle.operation_core.specs.Clients.{ClientView, started};
ghost use Rattle.client_core.specs.Clients.{IsStep};
ghost use Rattle.journals.specs.Desks.{DeskState, by_hearing, desk_heard};
ghost use Rattle.journals.specs.Records.{client_records};
ghost use Rattle.locked_nodes.specs.Cells.{reply_told};
ghost use Rattle.client_desks.specs.Recording.{IsForeseen, MayTake, retold};

use client_core::{Client, Step};
use lists::{Copied, NoMemory};
use locked_nodes::Told;
use operation_core::PhaseEnd;
use run_words::{Outcome, Record};
use stamp_order::Stamp;
use wire_forms::Op;

/// What hearing a reply would do to a client, and the outcome of the operation that it would end.
#[derive(Drop)]
pub struct Foreseen {
    pub step: Step,
    pub outcome: Option<Outcome>,
}

/// What hearing the reply that is told, if there is one, would do to the client.
pub fn foresee(client: &Client, told: &Told) -> Result<Foreseen, NoMemory>
    requires { phase_of client.now.seen.task < 2 ^ 64 - 1 }
    ensures { IfOk result (IsForeseen client.now (reply_told told.now)) }
{
    let Told::Answered { number: _, reply } = told else {
        return Ok(Foreseen {
            step: Step::Ignored,
            outcome: None,
        });
    };
    let step = client.prepare(reply)?;
    let outcome = match &step {
        Step::EndsPhase(PhaseEnd::Ends(outcome)) => Some(outcome.copy()?),
        Step::EndsPhase(PhaseEnd::Begins(..)) | Step::Counts { .. } | Step::Ignored => None,
    };
    Ok(Foreseen { step, outcome })
}

/// The record of an operation that the client starts at this place.
pub fn opened(client: u32, place: u64, op: Op) -> Record
    ensures { (c : ClientView) →
        record_of result ≡ open_record client (task_at place (started c op)) }
{
    Record {
        client,
        op,
        start: place,
        end: None,
        stamp: None,
        outcome: None,
    }
}

/// Does a step to the client, and tells in the record of its operation what came of it; one that ends has its end at this place.
pub fn take(client: &mut Client, records: &mut Vec<Record>, place: u64, step: Step)
    requires { MayTake client.old (map record_of records.old.items) step }
    ensures client { (h : Hearing) → IsStep client.old h step →
        client.new ≡ by_hearing client.old h }
    ensures records { (id n : ℕ) (d : DeskState) (h : Hearing) → IsStep client.old h step →
        client.old ≡ d.client → map record_of records.old.items ≡ client_records id d →
        place ≡ n + 1 →
        map record_of records.new.items ≡ client_records id (desk_heard d n h) }
{
    match step {
        Step::Ignored => {}
        Step::Counts { node, tag, reply } => client.count(node, tag, reply),
        Step::EndsPhase(PhaseEnd::Begins(stage, _mail)) => {
            client.go_on(stage);
            tell(records, None, client.stamp(), None);
        }
        Step::EndsPhase(PhaseEnd::Ends(outcome)) => {
            client.end();
            let stamp = stamp_of(&outcome);
            tell(records, Some(place), stamp, Some(outcome));
        }
    }
}

// Tells in the last record how its operation stands.
fn tell(records: &mut Vec<Record>, end: Option<u64>, stamp: Option<Stamp>, outcome: Option<Outcome>)
    ensures { (before : List AnyRecord) (r : AnyRecord) →
        map record_of records.old.items ≡ before ++ r ∷ [] →
        map record_of records.new.items ≡ before ++ retold r end stamp outcome ∷ [] }
{
    if let Some(mut record) = records.pop() {
        record.end = end;
        record.stamp = stamp;
        record.outcome = outcome;
        records.push_reserved(record);
    }
}

// The stamp that an operation wrote or gave.
fn stamp_of(outcome: &Outcome) -> Option<Stamp>
    ensures { result ≡ stamp_of_outcome outcome.now }
{
    match outcome {
        Outcome::Wrote(stamp) | Outcome::Gave { stamp, .. } => Some(*stamp),
        Outcome::Spent | Outcome::Outvoted(_) => None,
    }
}
