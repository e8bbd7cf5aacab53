//! One phase of a run in threads.
ghost use Rattle.std.specs.Prelude.{IfOk};
ghost use Rattle.phase_threads.specs.Phases.{MayPhase, HasPhased};

use crate::close::{Parted, close_row, part};
use crate::duty::{Duty, Seat};
use crate::open::{open_row, open_states};
use crate::thread_state::work_all;
use client_endpoints::{Cells, SharedCells};
use event_clock::Clock;
use lists::NoMemory;
use locked_nodes::{CellRefusal, NodeCell, shards_in};
use std::alloc::Global;
use std::sync::Wait;
use std::thread::Threads;
use thread_work::Gate;

/// What a phase leaves: the cells and the seats, in their order, and the refusal that came, if one did: of two the one that
/// `first_refusal` gives.
#[derive(Drop)]
pub struct Left<T> {
    pub cells: Vec<NodeCell>,
    pub seats: Vec<Seat<T>>,
    pub refused: Option<CellRefusal>,
}

/// Puts each cell into a vault, lets a thread for each seat do its duty and one for a courier bring what cells hold back, and takes
/// the cells out again when all have ended. There are at most 65,535 seats, and there may be none. A thread that can't be made is no
/// error: another one does its work.
///
/// A refusal ends the work of the thread to which it comes, and the others end theirs. If none came, cells and desks agree in pairs
/// again.
pub fn run_phase<R: Threads + Wait + Sync, G: Gate + Sync, T: Duty + Send>(
    rt: &R,
    alloc: Global,
    gate: &G,
    clock: Clock,
    cells: Vec<NodeCell>,
    seats: Vec<Seat<T>>,
) -> Result<(Clock, Left<T>), NoMemory>
    requires { MayPhase T.ready clock cells.items seats.items }
    ensures { IfOk result (λ r. HasPhased T.done clock cells.items seats.items r.0 r.1) }
{
    let count = seats.len() as u32 + 1;
    let cell_shards = shards_in(alloc, cells.as_slice())?;
    let (vaults, portions) = open_row(alloc, cells, count)?;
    let states = open_states(alloc, portions, seats)?;
    let shared_cells = SharedCells::new(clock, cell_shards, Cells::Vaults(vaults));
    let states = work_all(rt, gate, &shared_cells, states);
    let (clock, cells) = shared_cells.into_parts();
    let vaults = cells.into_vaults();
    let Parted {
        seats,
        portions,
        refused,
    } = part(alloc, states)?;
    let cells = close_row(alloc, vaults, portions)?;
    let left = Left {
        cells,
        seats,
        refused,
    };
    Ok((clock, left))
}
