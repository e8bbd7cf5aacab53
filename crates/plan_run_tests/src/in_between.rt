//! A gate that puts all steps of one client between the first and the second of another.

use crate::marks::Mark;
use pasis_shell::{Edge, Gate};

/// Holds another client at the beginning of its operation until client 1 comes to an edge for the first time, and whoever is there
/// until the other has ended its operation. It sees whether the other had node 1 in hand too.
#[derive(Drop)]
pub struct InBetween {
    other: u32,
    /// Where client 1 is held: `Locked` where nodes stand under locks, `Taken` where they have threads.
    at: Edge,
    in_hand: Mark,
    beside: Mark,
    ended: Mark,
}

impl InBetween {
    pub fn new(other: u32, at: Edge) -> InBetween {
        InBetween {
            other,
            at,
            in_hand: Mark::new(),
            beside: Mark::new(),
            ended: Mark::new(),
        }
    }

    /// Whether each client came to where the other waited for it, and whether the other had node 1 in hand is as told.
    pub fn has_held(&self, beside: bool) -> bool {
        self.in_hand.is_met() && self.ended.is_met() && self.beside.is_met() == beside
    }
}

impl Gate for InBetween {
    fn at(&self, client: u32, _op: u64, edge: Edge) {
        if client == self.other {
            match edge {
                Edge::Begin => self.in_hand.wait(),
                Edge::Locked(1) => self.beside.see(),
                Edge::End => self.ended.see(),
                Edge::Locked(_) | Edge::Taken(_) => {}
            }
        } else if edge == self.at {
            self.in_hand.see();
            self.ended.wait();
        }
    }
}
