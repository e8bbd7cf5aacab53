//! Lying clients, whose asks no gate is told of where nodes stand under locks.

use crate::marks::Mark;
use pasis_shell::{Edge, Gate};

/// Holds the lying clients 8 and 9 at node 1, when they have made their first ask at node 0, until both have made it. Nodes have
/// threads.
#[derive(Drop)]
pub struct Together {
    eighth: Mark,
    ninth: Mark,
}

impl Together {
    pub fn new() -> Together {
        Together {
            eighth: Mark::new(),
            ninth: Mark::new(),
        }
    }

    /// Whether both came to node 0 before either came by node 1.
    pub fn has_held(&self) -> bool {
        self.eighth.is_met() && self.ninth.is_met()
    }
}

impl Gate for Together {
    fn at(&self, client: u32, _op: u64, edge: Edge) {
        match (client, edge) {
            (8, Edge::Taken(0)) => self.eighth.see(),
            (9, Edge::Taken(0)) => self.ninth.see(),
            (8, Edge::Taken(1)) => self.ninth.wait(),
            (9, Edge::Taken(1)) => self.eighth.wait(),
            _ => {}
        }
    }
}
