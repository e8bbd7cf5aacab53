//! A gate that lets others go on for a while.

use pasis_shell::{Edge, Gate};
use std::thread;

// So many turns are some milliseconds, in which threads that nobody holds get far.
const TURNS: u32 = 5_000;

/// Holds whoever has a node's cell in hand, or asks it next, for a while: whom no edge tells of has the time to come there.
#[derive(Drop)]
pub struct Pauses {
    client: u32,
    nodes: &'static [u8],
}

impl Pauses {
    pub fn new(client: u32, nodes: &'static [u8]) -> Pauses {
        Pauses { client, nodes }
    }
}

impl Gate for Pauses {
    fn at(&self, client: u32, _op: u64, edge: Edge) {
        let Edge::Locked(node) = edge else {
            return;
        };
        if client == self.client && self.nodes.contains(&node) {
            for _ in 0..TURNS {
                thread::yield_now();
            }
        }
    }
}
