//! A thread for each desk and each node.

use crate::worker::NodeWorker;
use client_endpoints::{Endpoint, SharedCells};
use phase_threads::Duty;
use std::sync::Wait;
use thread_work::{Gate, ThreadWork};

/// What one thread has: a client's endpoint and its duty, or a node.
#[derive(Drop)]
pub enum ThreadState<T> {
    Client { endpoint: Endpoint, duty: T },
    Node(NodeWorker),
}

impl<T: Duty> ThreadWork<ThreadState<T>> for SharedCells {
    ghost use Rattle.node_workers.specs.ThreadStates.{CanWork, DidWork};

    ghost can_work = { CanWork T.ready };

    ghost works = { λ f. DidWork T.done };

    fn work<R: Wait, G: Gate>(&self, rt: &R, gate: &G, state: &mut ThreadState<T>) {
        match state {
            ThreadState::Client { endpoint, duty } => {
                duty.work(rt, gate, self, endpoint);
                endpoint.end(rt);
            }
            ThreadState::Node(worker) => worker.serve(rt, gate, self.clock()),
        }
    }
}
