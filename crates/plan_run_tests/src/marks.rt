//! Things that threads wait for.

use std::sync::atomic::{AtomicBool, Ordering};
use std::thread;

/// After so many turns whoever waits gives up. Between two turns the processor goes to others, who may have to do something first.
pub const TURNS: u32 = 10_000_000;

/// Something that a client came to, and whether somebody gave up waiting for it.
#[derive(Drop)]
pub struct Mark {
    is_seen: AtomicBool,
    is_given_up: AtomicBool,
}

impl Mark {
    pub fn new() -> Mark {
        Mark {
            is_seen: AtomicBool::new(false),
            is_given_up: AtomicBool::new(false),
        }
    }

    pub fn see(&self) {
        self.is_seen.store(true, Ordering::SeqCst);
    }

    /// Waits for it.
    pub fn wait(&self) {
        for _ in 0..TURNS {
            if self.is_seen.load(Ordering::SeqCst) {
                return;
            }
            thread::yield_now();
        }
        self.is_given_up.store(true, Ordering::SeqCst);
    }

    /// Whether it was seen, and by all who waited for it.
    pub fn is_met(&self) -> bool {
        self.is_seen.load(Ordering::SeqCst) && !self.is_given_up.load(Ordering::SeqCst)
    }
}

/// Whether each of these was seen, and by all who waited for it.
pub fn are_met(marks: &[Mark]) -> bool {
    for mark in marks {
        if !mark.is_met() {
            return false;
        }
    }
    true
}
