//! Two clients that write to two blocks, under a gate that fixes the order of all steps: all of the other client's stand between
//! the first and the second of client 1.

use crate::in_between::InBetween;
use crate::runs::writes;
use pasis_shell::Edge;
use std::io;
use std::rt::Files;
use std::sync::Wait;
use std::thread::Threads;

/// A plan, which command runs it, where client 1 is held, and the file that has what comes of it.
pub struct Order {
    pub name: &'static str,
    command: &'static str,
    plan: &'static str,
    output: &'static str,
    other: u32,
    at: Edge,
    /// Whether the other client has node 1 in hand while client 1 has.
    beside: bool,
}

/// The orders. Of the two writes client 2 asks nodes 2, 3, 4 and 0, and client 1 begins at node 1. In the other plan both clients
/// begin at node 1, where their blocks are of two cells. No run comes to the edge of the other command.
pub const ORDERS: [Order; 5] = [
    Order {
        name: "a client holds one node",
        command: "run",
        plan: "two_writes",
        output: "two_writes.report",
        other: 2,
        at: Edge::Locked(1),
        beside: false,
    },
    Order {
        name: "the trace of it",
        command: "trace",
        plan: "two_writes",
        output: "two_writes.trace",
        other: 2,
        at: Edge::Locked(1),
        beside: false,
    },
    Order {
        name: "clients of two blocks are at one node",
        command: "run",
        plan: "two_shards",
        output: "two_shards.report",
        other: 6,
        at: Edge::Locked(1),
        beside: true,
    },
    Order {
        name: "a worker has an ask in hand while others answer",
        command: "run workers",
        plan: "two_writes",
        output: "two_writes.report",
        other: 2,
        at: Edge::Taken(1),
        beside: false,
    },
    Order {
        name: "the trace of that",
        command: "trace workers",
        plan: "two_writes",
        output: "two_writes.trace",
        other: 2,
        at: Edge::Taken(1),
        beside: false,
    },
];

/// Whether the clients came to where the gate holds them, and what was written is that of the order.
pub fn is_kept<R: Files + AllocGlobal + Threads + Wait + Sync>(
    rt: &R,
    order: &Order,
) -> io::Result<bool> {
    let gate = InBetween::new(order.other, order.at);
    let is_told = writes(rt, order.command, order.plan, order.output, &gate)?;
    Ok(is_told && gate.has_held(order.beside))
}
