//! A plan, run with each node in a thread of its own.
ghost use Rattle.std.specs.Prelude.{◌≡◌, Err, IfOk, length, map};
ghost use Rattle.std.specs.Thread.{IsSync};
ghost use Rattle.event_clock.specs.Passes.{HasFullPass, Tally};
ghost use Rattle.protocol.specs.Seen.{record_of};
ghost use Rattle.journals.specs.Records.{AreTold};
ghost use Rattle.plan_words.specs.Plans.{Fits};
ghost use Rattle.plan_followed.specs.Followed.{AreOfPlan};
ghost use Rattle.phase_threads.specs.Phases.{MayPhase, HasPhased};
ghost use Rattle.client_duties.specs.ClientDuty.{Ready, Done};
ghost use Rattle.client_threads.specs.Opened.{pass_count};

use crate::phase::run_mail_phase;
use client_duties::ClientDuty;
use client_threads::{Phased, Ran, run_by};
use event_clock::{Clock, RunRefusal};
use locked_nodes::NodeCell;
use phase_threads::Seat;
use plan_words::Plan;
use std::alloc::Global;
use std::sync::Wait;
use std::thread::Threads;
use thread_work::Gate;

// How many cells a node has: its thread does one thing after the other all the same.
const SHARDS: u32 = 1;

/// Runs a plan that fits as `run_plan` does, with each node in a thread of its own, which takes asks from the node's inbox and puts
/// answers into the clients' inboxes. Where not all threads of a phase can be made, the phase is done by locks.
///
/// Its journals are those of a run of the plan: each is kept, they agree in pairs, their numbers are those below the count of what was
/// drawn, each once, and they follow the plan. Its records are those that the journals tell. `ClockFull` comes only where a pass has
/// drawn 2^40 numbers. What was drawn shows how many cells there were: each had a pass of its own.
pub fn run_workers<R: Threads + Wait + Sync, G: Gate + Sync>(
    rt: &R,
    alloc: Global,
    plan: &Plan,
    gate: &G,
) -> Result<Ran, RunRefusal>
    requires { Fits plan.now }
    ensures followed { IfOk result (λ r. AreOfPlan plan.now r.journals r.drawn.count) }
    ensures records { IfOk result (λ r. AreTold r.journals (map record_of r.records)) }
    ensures passes { IfOk result (λ r. length r.drawn.shares ≡ pass_count plan.now 1) }
    ensures full { (drawn : Tally) → result ≡ Err (RunRefusal.ClockFull drawn) → HasFullPass drawn }
{
    let phase = |clock: Clock, cells: Vec<NodeCell>, seats: Vec<Seat<ClientDuty>>| -> Phased
        requires runtime { IsSync R.row }
        requires gate { IsSync G.row }
        requires may { MayPhase Ready clock cells.items seats.items }
        ensures { IfOk result (λ r. HasPhased Done clock cells.items seats.items r.0 r.1) }
    { run_mail_phase(rt, alloc, gate, clock, cells, seats) };
    run_by(rt, alloc, plan, &phase, SHARDS)
}
