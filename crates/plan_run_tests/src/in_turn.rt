//! Plans whose clients go on one edge at a time, in an order that fixes what is written: their steps stand between one another, so
//! nobody does them one client after the other.

use crate::runs::writes;
use crate::turns::Turns;
use std::io;
use std::rt::Files;
use std::sync::Wait;
use std::thread::Threads;

/// A plan, which command writes the trace that lies beside it, and whose turn it is at each edge.
pub struct InTurn {
    pub name: &'static str,
    command: &'static str,
    plan: &'static str,
    trace: &'static str,
    order: &'static str,
}

/// The plans. A client that has its turn never asks a node that another one has in hand, since then it wouldn't come to its next edge.
/// Where an ask is held back, its client has only that node left to ask: so the ask comes late before the client goes on.
pub const PLANS: [InTurn; 6] = [
    InTurn {
        name: "a held ask and a phase, by workers",
        command: "trace workers",
        plan: "held_ask",
        trace: "held_ask.trace",
        order: "1221211212121211222222|11111",
    },
    InTurn {
        name: "a lying node, a dropped ask and a client's crash",
        command: "trace",
        plan: "lies_and_crash",
        trace: "lies_and_crash.trace",
        order: "13311311111113|1111111111",
    },
    InTurn {
        name: "the same by workers",
        command: "trace workers",
        plan: "lies_and_crash",
        trace: "lies_and_crash.trace",
        order: "13311311111113|1111111111",
    },
    InTurn {
        name: "a lying client by workers",
        command: "trace workers",
        plan: "lying_client",
        trace: "lying_client.trace",
        order: "191111111119|555555",
    },
    InTurn {
        name: "a node's crash",
        command: "trace",
        plan: "node_crash",
        trace: "node_crash.trace",
        order: "133131313131313131113",
    },
    InTurn {
        name: "a node's crash by workers",
        command: "trace workers",
        plan: "node_crash",
        trace: "node_crash.trace",
        order: "133131313131313131113",
    },
];

/// Whether all turns were taken, and the trace is that of the order.
pub fn is_kept<R: Files + AllocGlobal + Threads + Wait + Sync>(
    rt: &R,
    run: &InTurn,
) -> io::Result<bool> {
    let gate = Turns::new(run.order);
    let is_told = writes(rt, run.command, run.plan, run.trace, &gate)?;
    Ok(is_told && gate.has_held())
}
