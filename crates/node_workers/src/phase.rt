//! One phase of a run by mail.
ghost use Rattle.std.specs.Prelude.{All, IfOk};
ghost use Rattle.client_endpoints.specs.Transports.{IsByMail};
ghost use Rattle.phase_threads.specs.Phases.{MayPhase, HasPhased};
ghost use Rattle.node_workers.specs.ThreadStates.{clients_in, cells_at, seats_at};
ghost use Rattle.node_workers.specs.Ended.{MayClose, HasClosed};

use crate::close::{Parted, part, settle_all};
use crate::open::open_states;
use crate::thread_state::ThreadState;
use event_clock::Clock;
use lists::NoMemory;
use locked_nodes::NodeCell;
use phase_threads::{Duty, Left, Seat, run_phase};
use std::alloc::Global;
use std::sync::Wait;
use std::thread::Threads;
use thread_work::{Gate, Started, each_at_once};

// How many nodes may put answers into an inbox.
const MOST: usize = 65_536;

/// Lets a thread for each cell answer what is asked of it, and a thread for each seat do its duty: a client puts its asks into the
/// cells' inboxes, and takes the answers out of its own. There are at most 65,535 seats. Where not all threads can be made, or there
/// is no seat, or no cell, or more than 65,536 cells, the phase is done by locks, as `run_phase` does it.
///
/// A refusal ends the work of the client to which it comes, and the others end theirs. If none came, cells and desks agree in pairs
/// again.
pub fn run_mail_phase<R: Threads + Wait + Sync, G: Gate + Sync, T: Duty + Send>(
    rt: &R,
    alloc: Global,
    gate: &G,
    clock: Clock,
    cells: Vec<NodeCell>,
    seats: Vec<Seat<T>>,
) -> Result<(Clock, Left<T>), NoMemory>
    requires { MayPhase T.ready clock cells.items seats.items }
    ensures { IfOk result (λ r. HasPhased T.done clock cells.items seats.items r.0 r.1) }
{
    if seats.is_empty() || cells.is_empty() || cells.len() > MOST {
        return run_phase(rt, alloc, gate, clock, cells, seats);
    }
    let (shared_cells, states) = open_states(rt, alloc, clock, cells, seats)?;
    let started = each_at_once(rt, alloc, gate, &shared_cells, states)?;
    let (clock, _cells) = shared_cells.into_parts();
    match started {
        Started::Whole(states) => Ok((clock, close(alloc, states)?)),
        Started::Nobody(states) => run_by_locks(rt, alloc, gate, clock, states),
    }
}

// Does by locks what thread states are there for at which nobody worked.
fn run_by_locks<R: Threads + Wait + Sync, G: Gate + Sync, T: Duty + Send>(
    rt: &R,
    alloc: Global,
    gate: &G,
    clock: Clock,
    states: Vec<ThreadState<T>>,
) -> Result<(Clock, Left<T>), NoMemory>
    requires ways { All (λ x. IsByMail x.0.transport) (clients_in states.items) }
    requires may { MayPhase T.ready clock (cells_at states.items) (seats_at states.items) }
    ensures { IfOk result (λ r.
        HasPhased T.done clock (cells_at states.items) (seats_at states.items) r.0 r.1) }
{
    let Parted { cells, seats, .. } = part(alloc, states)?;
    run_phase(rt, alloc, gate, clock, cells, seats)
}

// What thread states leave whose threads have all worked.
fn close<T: Duty>(alloc: Global, states: Vec<ThreadState<T>>) -> Result<Left<T>, NoMemory>
    requires { MayClose states.items }
    ensures { IfOk result (λ left. HasClosed states.items left) }
{
    let Parted {
        cells,
        rows,
        seats,
        mut mails,
        refused,
    } = part(alloc, states)?;
    settle_all(alloc, &mut mails, rows)?;
    Ok(Left {
        cells,
        seats,
        refused,
    })
}
