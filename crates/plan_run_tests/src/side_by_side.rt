//! Lying clients and the courier, who do their work beside others and not after them. Under locks no edge tells of them: a gate lets
//! them go on while it holds a client, and what they did stands in the trace. Where they were too fast or too slow for that, the
//! plan is run again.

use crate::liars::Together;
use crate::pauses::Pauses;
use crate::runs::{plan_of, writes, written};
use std::alloc::Global;
use std::io;
use std::rt::Files;
use std::sync::Wait;
use std::thread::Threads;

/// So often a plan is run at most.
const RUNS: u32 = 1_000;

/// A plan, whom the gate holds at which nodes, and what its trace shows.
pub struct Beside {
    pub name: &'static str,
    plan: &'static str,
    client: u32,
    nodes: &'static [u8],
    /// The first line that begins with one of these stands before the last that begins with the other.
    pairs: &'static [(&'static str, &'static str)],
}

/// The plans. What is still held back when all threads have ended comes late after all else.
pub const PLANS: [Beside; 2] = [
    Beside {
        name: "the courier goes round while a client asks",
        plan: "held_while_asking",
        client: 1,
        nodes: &[1, 2],
        pairs: &[("give ", "call ")],
    },
    Beside {
        name: "lying clients send side by side",
        plan: "liars_and_a_write",
        client: 5,
        nodes: &[0],
        pairs: &[
            ("poke ask 8 ", "poke ask 9 "),
            ("poke ask 9 ", "poke ask 8 "),
        ],
    },
];

// Whether a line that begins so stands before one that begins otherwise.
fn stands_before(text: &str, first: &str, last: &str) -> bool {
    let mut is_seen = false;
    for line in text.lines() {
        if is_seen && line.starts_with(last) {
            return true;
        }
        is_seen = is_seen || line.starts_with(first);
    }
    false
}

fn shows(trace: &[u8], pairs: &[(&str, &str)]) -> bool {
    let Ok(text) = str::from_utf8(trace) else {
        return false;
    };
    for (first, last) in pairs {
        if !stands_before(text, first, last) {
            return false;
        }
    }
    true
}

// Whether a run of the plan shows it.
fn is_shown<R: Threads + Wait + Sync>(
    rt: &R,
    alloc: Global,
    run: &Beside,
    plan: &[u8],
) -> io::Result<bool> {
    for _ in 0..RUNS {
        let gate = Pauses::new(run.client, run.nodes);
        let sink = written(rt, alloc, "trace", plan, &gate)?;
        if shows(sink.taken(), run.pairs) {
            return Ok(true);
        }
    }
    Ok(false)
}

/// Whether one of many runs of the plan shows that its threads do their work side by side.
pub fn is_beside<R: Files + AllocGlobal + Threads + Wait + Sync>(
    rt: &R,
    run: &Beside,
) -> io::Result<bool> {
    let plan = plan_of(rt, run.plan)?;
    is_shown(rt, rt.alloc(), run, plan.as_slice())
}

/// Whether both of two lying clients have begun before either goes on, where nodes have threads.
pub fn are_together<R: Files + AllocGlobal + Threads + Wait + Sync>(rt: &R) -> io::Result<bool> {
    let gate = Together::new();
    let is_told = writes(rt, "run workers", "two_liars", "two_liars.report", &gate)?;
    Ok(is_told && gate.has_held())
}
