//! A thread for each desk, and one for the courier.
ghost use Rattle.std.specs.Prelude.{All};
ghost use Rattle.thread_work.specs.Pairwise.{Beside};
ghost use Rattle.phase_threads.specs.ThreadStates.{CanWork, DidWork};

use crate::courier::Courier;
use crate::duty::Duty;
use client_endpoints::{Endpoint, SharedCells};
use std::sync::Wait;
use std::thread::Threads;
use thread_work::{Gate, ThreadWork, each};

/// What one thread has: a client's endpoint and its duty, or the chits of the courier.
#[derive(Drop)]
pub enum ThreadState<T> {
    Client { endpoint: Endpoint, duty: T },
    Courier(Courier),
}

impl<T: Duty> ThreadWork<ThreadState<T>> for SharedCells {
    ghost use Rattle.phase_threads.specs.ThreadStates.{CanWork, DidWork};

    ghost can_work = { CanWork T.ready };

    ghost works = { λ f. DidWork T.done };

    fn work<R: Wait, G: Gate>(&self, rt: &R, gate: &G, state: &mut ThreadState<T>) {
        match state {
            ThreadState::Client { endpoint, duty } => duty.work(rt, gate, self, endpoint),
            ThreadState::Courier(courier) => courier.carry(rt, self),
        }
    }
}

/// Each thread state has a thread of its own.
pub fn work_all<R: Threads + Wait + Sync, G: Gate + Sync, T: Duty + Send>(
    rt: &R,
    gate: &G,
    shared_cells: &SharedCells,
    mut states: Vec<ThreadState<T>>,
) -> Vec<ThreadState<T>>
    requires { All (CanWork T.ready shared_cells.now) states.items }
    ensures { Beside (λ i p q. DidWork T.done p q) states.items result.items }
{
    each(rt, gate, shared_cells, states.as_mut_slice());
    states
}
