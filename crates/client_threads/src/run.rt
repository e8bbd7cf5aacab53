//! A plan, run in threads.
ghost use Rattle.std.specs.Prelude.{◌≡◌, ◌+◌, ◌≤◌, ℕ, IfOk, IfErr, Err, length, map};
ghost use Rattle.std.specs.Thread.{IsSync};
ghost use Rattle.event_clock.specs.Passes.{HasFullPass, Tally};
ghost use Rattle.protocol.specs.Seen.{record_of};
ghost use Rattle.journals.specs.Records.{AreTold};
ghost use Rattle.plan_words.specs.Plans.{Fits};
ghost use Rattle.plan_followed.specs.Followed.{AreOfPlan};
ghost use Rattle.phase_threads.specs.Phases.{MayPhase, HasPhased};
ghost use Rattle.client_duties.specs.ClientDuty.{Ready, Done};
ghost use Rattle.client_threads.specs.Phases.{DoesPhases};
ghost use Rattle.client_threads.specs.Opened.{pass_count};
ghost use Rattle.client_threads.specs.Running.{IsBetween, IsWorked, plan_of, cuts};

use crate::between::close_phase;
use crate::closing::{close, stop};
use crate::mail::bring_all;
use crate::opening::open;
use crate::state::Run;
use crate::threads::{Phased, work};
use client_duties::ClientDuty;
use event_clock::{Clock, Drawn, RunRefusal};
use journals::Journals;
use lists::{ItemList, NoMemory};
use locked_nodes::NodeCell;
use phase_threads::laws::{phases_work, runs_end};
use phase_threads::{Seat, run_phase};
use plan_followed::laws::phases_close;
use plan_words::{Job, Plan};
use run_words::Record;
use std::alloc::Global;
use std::sync::Wait;
use std::thread::Threads;
use thread_work::Gate;
use wire_forms::Liars;

/// What a run left: the journals, and the numbers drawn for their entries.
#[derive(Drop)]
pub struct Ran {
    pub journals: Journals,
    /// The records that the journals tell, one client's after another's.
    pub records: ItemList<Record>,
    pub drawn: Drawn,
}

// How many cells a node has, so that clients of several blocks are served side by side.
const SHARDS: u32 = 4;

/// Runs a plan that fits: a thread for each client and one for a courier, phase by phase, on the cells of all nodes.
///
/// Its journals are those of a run of the plan: each is kept, they agree in pairs, their numbers are those below the count of what was
/// drawn, each once, and they follow the plan. Its records are those that the journals tell. `ClockFull` comes only where a pass has
/// drawn 2^40 numbers. What was drawn shows how many cells there were: each had a pass of its own.
pub fn run_plan<R: Threads + Wait + Sync, G: Gate + Sync>(
    rt: &R,
    alloc: Global,
    plan: &Plan,
    gate: &G,
) -> Result<Ran, RunRefusal>
    requires { Fits plan.now }
    ensures followed { IfOk result (λ r. AreOfPlan plan.now r.journals r.drawn.count) }
    ensures records { IfOk result (λ r. AreTold r.journals (map record_of r.records)) }
    ensures passes { IfOk result (λ r. length r.drawn.shares ≡ pass_count plan.now 4) }
    ensures full { (drawn : Tally) → result ≡ Err (RunRefusal.ClockFull drawn) → HasFullPass drawn }
{
    let phase = |clock: Clock, cells: Vec<NodeCell>, seats: Vec<Seat<ClientDuty>>| -> Phased
        requires runtime { IsSync R.row }
        requires gate { IsSync G.row }
        requires may { MayPhase Ready clock cells.items seats.items }
        ensures { IfOk result (λ r. HasPhased Done clock cells.items seats.items r.0 r.1) }
    { run_phase(rt, alloc, gate, clock, cells, seats) };
    run_by(rt, alloc, plan, &phase, SHARDS)
}

/// Runs a plan that fits as `run_plan` does, with phases of any kind: `phase` is called once for each. A node has so many cells, from 1
/// to 256, but one alone where it is to crash or to hold asks back: the numbers were drawn by a pass for each cell, one for each
/// client, and one more.
pub fn run_by<R: Wait, F: Fn(Clock, Vec<NodeCell>, Vec<Seat<ClientDuty>>) -> Phased>(
    rt: &R,
    alloc: Global,
    plan: &Plan,
    phase: &F,
    shards: u32,
) -> Result<Ran, RunRefusal>
    requires fits { Fits plan.now }
    requires phase { DoesPhases (F.pre phase.now) (F.post phase.now) }
    requires shards { (1 ≤ shards) × (shards ≤ 256) }
    ensures followed { IfOk result (λ r. AreOfPlan plan.now r.journals r.drawn.count) }
    ensures records { IfOk result (λ r. AreTold r.journals (map record_of r.records)) }
    ensures passes { IfOk result (λ r. length r.drawn.shares ≡ pass_count plan.now shards) }
    ensures full { (drawn : Tally) → result ≡ Err (RunRefusal.ClockFull drawn) → HasFullPass drawn }
{
    let liars = liars_of(alloc, plan)?;
    let mut run = open(alloc, plan, shards)?;
    for job in plan.work.as_slice() {
        if let Job::Phase = job {
            run = work_off(rt, alloc, plan, phase, run)?;
            run = cut(alloc, plan, run)?;
        }
    }
    let run = work_off(rt, alloc, plan, phase, run)?;
    finish(alloc, plan, liars, run)
}

// Lets threads do the next phase, and then what nodes still hold back come late.
fn work_off<R: Wait, F: Fn(Clock, Vec<NodeCell>, Vec<Seat<ClientDuty>>) -> Phased>(
    rt: &R,
    alloc: Global,
    plan: &Plan,
    phase: &F,
    run: Run,
) -> Result<Run, RunRefusal>
    requires phase { DoesPhases (F.pre phase.now) (F.post phase.now) }
    requires between { (k : ℕ) × IsBetween k run × (k ≤ cuts (plan_of run)) }
    requires plan { plan_of run ≡ plan.now }
    ensures plan { IfOk result (λ r. plan_of r ≡ plan_of run) }
    ensures clock { IfOk result (λ r. r.clock ≡ run.clock) }
    ensures worked { IfOk result (λ r. (k : ℕ) → IsBetween k run → IsWorked k r) }
    ensures full { (drawn : Tally) → result ≡ Err (RunRefusal.ClockFull drawn) → HasFullPass drawn }
{
    phases_work();
    phases_close();
    let (mut run, refused) = work(phase, run)?;
    if let Some(refusal) = refused {
        return Err(stop(alloc, plan, run, refusal));
    }
    let brought = bring_all(rt, &run.clock, run.cells.as_mut_slice());
    match brought {
        Ok(()) => Ok(run),
        Err(refusal) => Err(stop(alloc, plan, run, refusal)),
    }
}

// Closes the phase that is worked off.
fn cut(alloc: Global, plan: &Plan, run: Run) -> Result<Run, RunRefusal>
    requires worked { (k : ℕ) × IsWorked k run }
    requires plan { plan_of run ≡ plan.now }
    ensures plan { IfOk result (λ r. plan_of r ≡ plan_of run) }
    ensures clock { IfOk result (λ r. r.clock ≡ run.clock) }
    ensures closed { IfOk result (λ r. (k : ℕ) → IsWorked k run → IsBetween (k + 1) r) }
    ensures full { (drawn : Tally) → result ≡ Err (RunRefusal.ClockFull drawn) → HasFullPass drawn }
{
    let (run, refused) = close_phase(alloc, plan, run)?;
    match refused {
        None => Ok(run),
        Some(refusal) => Err(stop(alloc, plan, run, refusal)),
    }
}

// Takes the journals out of a run whose last phase is worked off.
fn finish(alloc: Global, plan: &Plan, liars: Liars, run: Run) -> Result<Ran, RunRefusal>
    requires fits { Fits plan.now }
    requires plan { plan_of run ≡ plan.now }
    requires liars { liars ≡ plan.now.liars }
    requires worked { IsWorked (cuts plan.now) run }
    ensures followed { IfOk result (λ r. AreOfPlan plan.now r.journals r.drawn.count) }
    ensures records { IfOk result (λ r. AreTold r.journals (map record_of r.records)) }
    ensures passes { IfOk result (λ r. length r.drawn.shares ≡ run.clock.passes) }
    ensures memory { IfErr result (λ e. e ≡ RunRefusal.NoMemory) }
{
    runs_end();
    let closed = close(alloc, plan, run)?;
    let journals = Journals {
        config: plan.config,
        liars,
        nodes: closed.nodes,
        desks: closed.desks,
    };
    Ok(Ran {
        journals,
        records: closed.records,
        drawn: closed.drawn,
    })
}

// Who the plan's rules declare lying.
fn liars_of(alloc: Global, plan: &Plan) -> Result<Liars, NoMemory>
    requires { Fits plan.now }
    ensures { IfOk result (λ liars. liars ≡ plan.now.liars) }
{
    let mut liars = Liars::none(alloc);
    for rule in plan.rules.as_slice() {
        if let Some(node) = rule.lying_node() {
            liars.add_node(node)?;
        }
        if let Some(client) = rule.lying_client() {
            liars.add_client(client)?;
        }
    }
    Ok(liars)
}
