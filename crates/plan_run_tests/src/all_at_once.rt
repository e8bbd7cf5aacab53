//! A gate that holds four clients until all are there.

use crate::marks::{Mark, are_met};
use pasis_shell::{Edge, Gate};
use std::sync::atomic::{AtomicBool, AtomicU32, Ordering};

/// Holds each of four clients at the beginning of its first operation until all four are there, counts the operations that each
/// ends, and sees which of five nodes were in somebody's hand.
#[derive(Drop)]
pub struct AllAtOnce {
    begun: [Mark; 4],
    ended: [AtomicU32; 4],
    locked: [AtomicBool; 5],
}

impl AllAtOnce {
    pub fn new() -> AllAtOnce {
        AllAtOnce {
            begun: [Mark::new(), Mark::new(), Mark::new(), Mark::new()],
            ended: [
                AtomicU32::new(0),
                AtomicU32::new(0),
                AtomicU32::new(0),
                AtomicU32::new(0),
            ],
            locked: [
                AtomicBool::new(false),
                AtomicBool::new(false),
                AtomicBool::new(false),
                AtomicBool::new(false),
                AtomicBool::new(false),
            ],
        }
    }

    /// Whether all clients were there at once, each ended so many operations, and all nodes were in somebody's hand.
    pub fn has_held(&self, ops: u32) -> bool {
        are_met(&self.begun) && have_ended(&self.ended, ops) && are_seen(&self.locked)
    }

    // A client begins its first operation.
    fn begin(&self, place: usize) {
        if let Some(own) = self.begun.get(place) {
            own.see();
            for mark in self.begun.iter() {
                mark.wait();
            }
        }
    }
}

// Whether each client has ended so many operations.
fn have_ended(counts: &[AtomicU32], ops: u32) -> bool {
    for count in counts {
        if count.load(Ordering::SeqCst) != ops {
            return false;
        }
    }
    true
}

fn are_seen(nodes: &[AtomicBool]) -> bool {
    for seen in nodes {
        if !seen.load(Ordering::SeqCst) {
            return false;
        }
    }
    true
}

impl Gate for AllAtOnce {
    fn at(&self, client: u32, op: u64, edge: Edge) {
        // The clients are numbered from 1.
        let place = (client as usize).wrapping_sub(1);
        match edge {
            Edge::Begin if op == 1 => self.begin(place),
            Edge::End => {
                if let Some(count) = self.ended.get(place) {
                    count.fetch_add(1, Ordering::SeqCst);
                }
            }
            Edge::Locked(node) => {
                if let Some(seen) = self.locked.get(usize::from(node)) {
                    seen.store(true, Ordering::SeqCst);
                }
            }
            _ => {}
        }
    }
}
