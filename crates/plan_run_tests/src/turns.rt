//! A gate that lets clients pass one edge at a time.

use crate::marks::TURNS;
use pasis_shell::{Edge, Gate};
use std::sync::atomic::{AtomicBool, AtomicUsize, Ordering};
use std::thread;

/// Lets clients pass their edges in an order that is told beforehand, and each only when the one before has come to its next edge,
/// or has ended its operation: so no two of them do anything at one time.
#[derive(Drop)]
pub struct Turns {
    /// Whose turn it is to pass an edge: a client's digit for each, and `|` between two phases.
    order: &'static str,
    /// How far the order is done.
    passed: AtomicUsize,
    /// Which clients are at an edge, or between two operations, by their numbers.
    rest: [AtomicBool; 10],
    is_given_up: AtomicBool,
}

impl Turns {
    pub fn new(order: &'static str) -> Turns {
        Turns {
            order,
            passed: AtomicUsize::new(0),
            rest: [
                AtomicBool::new(false),
                AtomicBool::new(false),
                AtomicBool::new(false),
                AtomicBool::new(false),
                AtomicBool::new(false),
                AtomicBool::new(false),
                AtomicBool::new(false),
                AtomicBool::new(false),
                AtomicBool::new(false),
                AtomicBool::new(false),
            ],
            is_given_up: AtomicBool::new(false),
        }
    }

    /// Whether the whole order was done, and no client passed another edge.
    pub fn has_held(&self) -> bool {
        self.passed.load(Ordering::SeqCst) == self.order.len()
            && !self.is_given_up.load(Ordering::SeqCst)
    }

    // Which client has this turn, if one has.
    fn client_at(&self, turn: usize) -> Option<u32> {
        let digit = self.order.as_bytes().get(turn)?;
        char::from(*digit).to_digit(10)
    }

    fn rests(&self, client: u32) -> bool {
        match self.rest.get(client as usize) {
            Some(rest) => rest.load(Ordering::SeqCst),
            None => false,
        }
    }

    fn set_rest(&self, client: u32, rests: bool) {
        if let Some(rest) = self.rest.get(client as usize) {
            rest.store(rests, Ordering::SeqCst);
        }
    }

    // Whether it is the client's turn, and whoever had the one before is done with it. Where a phase ended in between, all are.
    fn is_turn_of(&self, client: u32) -> bool {
        let turn = self.passed.load(Ordering::SeqCst);
        if self.client_at(turn) != Some(client) {
            return false;
        }
        // Where there is no turn before, none is at this place either.
        match self.client_at(turn.wrapping_sub(1)) {
            Some(before) => self.rests(before),
            None => true,
        }
    }

    // Whether it came to the client's turn.
    fn waits_for_turn(&self, client: u32) -> bool {
        for _ in 0..TURNS {
            if self.is_turn_of(client) {
                return true;
            }
            thread::yield_now();
        }
        false
    }

    // Ends a turn, and a phase where it was the last of one.
    fn end_turn(&self) {
        let turn = self.passed.fetch_add(1, Ordering::SeqCst);
        if self.order.as_bytes().get(turn.wrapping_add(1)) == Some(&b'|') {
            self.passed.fetch_add(1, Ordering::SeqCst);
        }
    }
}

impl Gate for Turns {
    fn at(&self, client: u32, _op: u64, edge: Edge) {
        self.set_rest(client, true);
        if self.waits_for_turn(client) {
            self.set_rest(client, edge == Edge::End);
            self.end_turn();
        } else {
            self.is_given_up.store(true, Ordering::SeqCst);
        }
    }
}
