//! The end of a run: journals, records and passes are taken out, and the clock is closed.
ghost use Rattle.std.specs.Prelude.{◌≡◌, ◌<◌, ◌++◌, [], map, All, length, replicate, slice_set, slice_index_or, true, IsTrue, IfOk, OnOk};
ghost use Rattle.protocol.specs.Seen.{record_of};
ghost use Rattle.event_clock.specs.Passes.{HasFullPass, IsOneFull, Tally};
ghost use Rattle.event_clock.specs.Views.{IsDrawnOnce};
ghost use Rattle.locked_nodes.specs.Cells.{KeptCell};
ghost use Rattle.client_desks.specs.Desks.{KeptDesk};
ghost use Rattle.client_threads.specs.Running.{IsOpen, desks_of, node_journals, kept_records, plan_of, shares_of};
ghost use Rattle.phase_threads.specs.Standing.{journal_at};
ghost use Rattle.locked_nodes.specs.Joined as joined;

use crate::state::Run;
use client_duties::ClientDuty;
use event_clock::{Drawn, Passes, RunRefusal};
use journals::{DeskJournals, NodeJournal, NodeJournals};
use lists::{ItemList, NoMemory};
use locked_nodes::{CellRefusal, NodeCell, join};
use phase_threads::Seat;
use plan_words::Plan;
use run_words::Record;
use std::alloc::Global;

/// What a run leaves when its clock is closed.
#[derive(Drop)]
pub(crate) struct Closed {
    pub(crate) nodes: NodeJournals,
    pub(crate) desks: DeskJournals,
    /// The records that the desks kept, one client's after another's.
    pub(crate) records: ItemList<Record>,
    pub(crate) drawn: Drawn,
    /// Whether a pass has drawn as many numbers as it may.
    pub(crate) full: bool,
}

// What the desks of a run leave.
#[derive(Drop)]
struct Desks {
    journals: DeskJournals,
    records: ItemList<Record>,
}

/// Takes all journals and records out of the plan's run, and closes its clock.
pub(crate) fn close(alloc: Global, plan: &Plan, run: Run) -> Result<Closed, NoMemory>
    requires opened { IsOpen run }
    requires plan { plan_of run ≡ plan.now }
    ensures nodes { IfOk result (λ r. r.nodes ≡ node_journals run.cells.items plan.now.config.n) }
    ensures desks { IfOk result (λ r. r.desks ≡ map journal_at (desks_of run.clients.items)) }
    ensures records { IfOk result (λ r.
        map record_of r.records ≡ kept_records (desks_of run.clients.items)) }
    ensures drawn { IfOk result (λ r. IsDrawnOnce r.drawn.count (shares_of run)) }
    ensures passes { IfOk result (λ r. length r.drawn.shares ≡ run.clock.passes) }
    ensures full { IfOk result (λ r. r.full ≡ true → HasFullPass r.drawn) }
    ensures cells { OnOk result (All KeptCell run.cells.items) }
    ensures kept { OnOk result (All KeptDesk (desks_of run.clients.items)) }
{
    let Run {
        plan: _plan,
        clock,
        cells,
        clients,
        keeper,
        begun: _begun,
    } = run;
    let mut passes = ItemList::new(alloc);
    let nodes = finish_cells(alloc, plan.config.n(), cells, &mut passes)?;
    let desks = finish_desks(alloc, clients, &mut passes)?;
    passes.push(keeper)?;
    let full = is_one_full(&passes);
    let drawn = clock.close(passes);
    Ok(Closed {
        nodes,
        desks: desks.journals,
        records: desks.records,
        drawn,
        full,
    })
}

/// Why a run stops: for want of memory, or since its clock is full. Then a pass has drawn as many numbers as it may.
pub(crate) fn stop(alloc: Global, plan: &Plan, run: Run, refusal: CellRefusal) -> RunRefusal
    requires opened { IsOpen run }
    requires plan { plan_of run ≡ plan.now }
    ensures { (drawn : Tally) → result ≡ RunRefusal.ClockFull drawn → HasFullPass drawn }
{
    let CellRefusal::ClockFull = refusal else {
        return RunRefusal::NoMemory;
    };
    match close(alloc, plan, run) {
        Ok(closed) if closed.full => RunRefusal::ClockFull(closed.drawn),
        _ => RunRefusal::NoMemory,
    }
}

// The journals of so many nodes, each of its cells' entries by number. The cells' passes are added to the others.
fn finish_cells(
    alloc: Global,
    count: u32,
    cells: Vec<NodeCell>,
    passes: &mut Passes,
) -> Result<NodeJournals, NoMemory>
    requires { All (λ c. c.charter.number < count) cells.items }
    ensures nodes { IfOk result (λ nodes. nodes ≡ node_journals cells.items count) }
    ensures passes { OnOk result (passes.new ≡ passes.old ++ map (λ c. c.pass) cells.items) }
    ensures kept { OnOk result (All KeptCell cells.items) }
{
    let mut nodes = empty_journals(alloc, count)?;
    for cell in cells {
        let node = usize::from(cell.number());
        let (journal, pass) = cell.finish();
        passes.push(pass)?;
        add_journal(alloc, &mut nodes, node, journal)?;
    }
    Ok(nodes)
}

// So many journals without entries.
fn empty_journals(alloc: Global, count: u32) -> Result<NodeJournals, NoMemory>
    ensures { IfOk result (λ nodes. nodes ≡ replicate count []) }
{
    let mut nodes = ItemList::new(alloc);
    for _ in 0..count {
        nodes.push(ItemList::new(alloc))?;
    }
    Ok(nodes)
}

// Joins a journal to a node's.
fn add_journal(
    alloc: Global,
    nodes: &mut NodeJournals,
    node: usize,
    journal: NodeJournal,
) -> Result<(), NoMemory>
    requires { node < length nodes.old }
    ensures { OnOk result
        (nodes.new
        ≡ slice_set nodes.old node (joined.join (slice_index_or nodes.old node []) journal)) }
{
    let before = nodes.replace(node, ItemList::new(alloc));
    let _empty = nodes.replace(node, join(alloc, before, journal)?);
    Ok(())
}

// The journals and the records of the desks, whose passes are added to the others.
fn finish_desks(
    alloc: Global,
    seats: Vec<Seat<ClientDuty>>,
    passes: &mut Passes,
) -> Result<Desks, NoMemory>
    ensures desks { IfOk result (λ r. r.journals ≡ map journal_at (desks_of seats.items)) }
    ensures records { IfOk result (λ r.
        map record_of r.records ≡ kept_records (desks_of seats.items)) }
    ensures passes { OnOk result
        (passes.new ≡ passes.old ++ map (λ d. d.pass) (desks_of seats.items)) }
    ensures kept { OnOk result (All KeptDesk (desks_of seats.items)) }
{
    let mut journals = ItemList::new(alloc);
    let mut records = ItemList::new(alloc);
    for seat in seats {
        let Seat { desk, duty: _ } = seat;
        let mut finished = desk.finish();
        records.append(&mut finished.records)?;
        passes.push(finished.pass)?;
        journals.push(finished.journal)?;
    }
    Ok(Desks { journals, records })
}

// Whether one of the passes has drawn as many numbers as it may.
fn is_one_full(passes: &Passes) -> bool
    ensures { IsTrue result → IsOneFull passes.now }
{
    for pass in passes.as_slice() {
        if pass.left() == 0 {
            return true;
        }
    }
    false
}
