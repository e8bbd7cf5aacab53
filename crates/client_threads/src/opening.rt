//! The beginning of a run.
ghost use Rattle.std.specs.Prelude.{◌≡◌, ◌≤◌, ◌<◌, ◌+◌, [], map, All, length, IfOk, OnOk};
ghost use Rattle.plan_words.specs.Plans.{Fits};
ghost use Rattle.client_duties.specs.Tasks.{IsTaskOf, client_of};
ghost use Rattle.client_threads.specs.Running.{IsBetween, plan_of};
ghost use Rattle.phase_threads.specs.Standing.{needs_whole};
ghost use Rattle.client_threads.specs.Opened.{IsUnusedPass, AreNewCells, IsNewSeat, cell_count, pass_count, shards_of};

use crate::state::Run;
use client_desks::Desk;
use client_duties::{ClientDuty, CorrectClient, Liar, Task, crash_after, nature_of, tasks_of};
use event_clock::{Clock, Pass, Passes};
use lists::{ItemList, NoMemory};
use locked_nodes::NodeCell;
use phase_threads::Seat;
use plan_followed::laws::phases_close;
use plan_words::{Fault, Plan};
use std::alloc::Global;
use std::snapshot::Snapshot;

/// A run of a plan that fits, on so many cells of each node that needn't be whole, in which nobody has done anything.
pub(crate) fn open(alloc: Global, plan: &Plan, shards: u32) -> Result<Run, NoMemory>
    requires fits { Fits plan.now }
    requires shards { (1 ≤ shards) × (shards ≤ 256) }
    ensures plan { IfOk result (λ run. plan_of run ≡ plan.now) }
    ensures stands { IfOk result (λ run. IsBetween 0 run) }
    ensures passes { IfOk result (λ run. run.clock.passes ≡ pass_count plan.now shards) }
{
    phases_close();
    let tasks = tasks_of(alloc, plan)?;
    let clients = tasks.len() as u32;
    let (clock, mut passes) = Clock::start(alloc, count_cells(plan, shards) + clients + 1)?;
    let cells = open_cells(alloc, plan, shards, &clock, &mut passes)?;
    let clients = open_seats(alloc, plan, &clock, tasks, &mut passes)?;
    let Some(keeper) = passes.pop() else {
        unreachable!()
    };
    Ok(Run {
        plan: Snapshot::of(plan),
        clock,
        cells,
        clients,
        keeper,
        begun: 0,
    })
}

// The cells of all nodes, each with a pass of its own.
fn open_cells(
    alloc: Global,
    plan: &Plan,
    shards: u32,
    clock: &Clock,
    passes: &mut Passes,
) -> Result<Vec<NodeCell>, NoMemory>
    requires fits { Fits plan.now }
    requires unused { All (IsUnusedPass clock.now) passes.old }
    requires enough { cell_count plan.now shards plan.now.config.n ≤ length passes.old }
    ensures cells { IfOk result (λ cells.
        AreNewCells plan.now shards clock.now plan.now.config.n 0 cells.items) }
    ensures unused { OnOk result (All (IsUnusedPass clock.now) passes.new) }
    ensures left { OnOk result
        (length passes.new + cell_count plan.now shards plan.now.config.n ≡ length passes.old) }
{
    let mut cells = Vec::new(alloc);
    for number in 0..plan.config.n() as u8 {
        open_node(alloc, plan, number, shards, clock, passes, &mut cells)?;
    }
    Ok(cells)
}

// The cells of one node more.
fn open_node(
    alloc: Global,
    plan: &Plan,
    number: u8,
    shards: u32,
    clock: &Clock,
    passes: &mut Passes,
    cells: &mut Vec<NodeCell>,
) -> Result<(), NoMemory>
    requires number { number < plan.now.config.n }
    requires cells { AreNewCells plan.now shards clock.now number 0 cells.old.items }
    requires unused { All (IsUnusedPass clock.now) passes.old }
    requires enough { shards_of plan.now shards number ≤ length passes.old }
    ensures cells { OnOk result
        (AreNewCells plan.now shards clock.now (number + 1) 0 cells.new.items) }
    ensures unused { OnOk result (All (IsUnusedPass clock.now) passes.new) }
    ensures left { OnOk result
        (length passes.new + shards_of plan.now shards number ≡ length passes.old) }
{
    let nature = nature_of(plan, number);
    let crash_after = crash_after(plan, number);
    let count = shard_count(plan, number, shards);
    for shard in 0..count {
        let Some(pass) = passes.pop() else {
            unreachable!()
        };
        let config = &plan.config;
        let cell = NodeCell::new(
            alloc,
            config,
            number,
            shard,
            count,
            nature,
            crash_after,
            pass,
        )?;
        cells.push(cell)?;
    }
    Ok(())
}

// How many cells all nodes have.
fn count_cells(plan: &Plan, shards: u32) -> u32
    requires fits { Fits plan.now }
    requires shards { (1 ≤ shards) × (shards ≤ 256) }
    ensures { result ≡ cell_count plan.now shards plan.now.config.n }
{
    let mut count = 0;
    for node in 0..plan.config.n() as u8 {
        count += shard_count(plan, node, shards);
    }
    count
}

// How many cells a node has: one where it is to crash or to hold asks back, and else so many.
fn shard_count(plan: &Plan, node: u8, shards: u32) -> u32
    ensures { result ≡ shards_of plan.now shards node }
{
    for rule in plan.rules.as_slice() {
        if is_whole_by(rule, node) {
            return 1;
        }
    }
    shards
}

// Whether the rule has the node crash, or hold asks back.
fn is_whole_by(rule: &Fault, node: u8) -> bool
    ensures { result ≡ needs_whole node rule.now }
{
    match rule {
        Fault::CrashNode { node: named, .. } | Fault::Hold { node: named, .. } => *named == node,
        _ => false,
    }
}

// The desks of all clients, each with a pass of its own and what its thread is to do.
fn open_seats(
    alloc: Global,
    plan: &Plan,
    clock: &Clock,
    tasks: ItemList<Task>,
    passes: &mut Passes,
) -> Result<Vec<Seat<ClientDuty>>, NoMemory>
    requires fits { Fits plan.now }
    requires tasks { All (IsTaskOf plan.now) tasks }
    requires unused { All (IsUnusedPass clock.now) passes.old }
    requires enough { length tasks ≤ length passes.old }
    ensures seats { IfOk result (λ seats. All (IsNewSeat plan.now clock.now) seats.items) }
    ensures ids { IfOk result (λ seats. map (λ s. s.desk.id) seats.items ≡ map client_of tasks) }
    ensures unused { OnOk result (All (IsUnusedPass clock.now) passes.new) }
    ensures left { OnOk result (length passes.new + length tasks ≡ length passes.old) }
{
    let mut seats = Vec::new(alloc);
    for task in tasks.into_vec() {
        let Some(pass) = passes.pop() else {
            unreachable!()
        };
        seats.push(open_seat(alloc, plan, task, pass)?)?;
    }
    Ok(seats)
}

// The desk of a client, and what its thread is to do.
fn open_seat(
    alloc: Global,
    plan: &Plan,
    task: Task,
    pass: Pass,
) -> Result<Seat<ClientDuty>, NoMemory>
    requires fits { Fits plan.now }
    requires task { IsTaskOf plan.now task }
    requires unused { pass.drawn ≡ [] }
    ensures seat { IfOk result (λ seat. IsNewSeat plan.now pass.clock seat) }
    ensures id { IfOk result (λ seat. seat.desk.id ≡ client_of task) }
{
    match task {
        Task::Client(task) => {
            let desk = Desk::new(alloc, &plan.config, task.client, pass)?;
            let duty = ClientDuty::Client(CorrectClient::new(plan, task));
            Ok(Seat { desk, duty })
        }
        Task::Liar { client, mail } => {
            let desk = Desk::lying(alloc, &plan.config, client, pass)?;
            let duty = ClientDuty::Lying(Liar::new(plan, client, mail));
            Ok(Seat { desk, duty })
        }
    }
}
