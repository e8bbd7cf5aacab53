//! What came of a case.

use client_core::{How, Outcome};
use cross_sum::{Hash, sha};
use stamp_order::Stamp;
use std::alloc::{AllocError, Global};
use std::fmt;
use store_care::Filled;

/// How operations ended, and what came out otherwise than it may.
#[derive(Clone, Copy)]
pub struct Counts {
    operations: u64,
    gave: u64,
    repaired: u64,
    rounds: u64,
    wrote: u64,
    lost: u64,
    unopened: u64,
    up: u64,
    kept: u64,
    rebuilt: u64,
    otherwise: u64,
    sum: Hash,
}

impl Counts {
    pub fn new() -> Counts {
        Counts {
            operations: 0,
            gave: 0,
            repaired: 0,
            rounds: 0,
            wrote: 0,
            lost: 0,
            unopened: 0,
            up: 0,
            kept: 0,
            rebuilt: 0,
            otherwise: 0,
            sum: [0; 32],
        }
    }

    /// Counts how an operation ended.
    pub fn add(&mut self, alloc: Global, outcome: &Option<Outcome>) -> Result<(), AllocError> {
        self.operations = self.operations.saturating_add(1);
        match outcome {
            Some(
                Outcome::Gave {
                    stamp,
                    value,
                    how,
                    rounds,
                },
            ) => {
                self.gave = self.gave.saturating_add(1);
                self.rounds = self.rounds.saturating_add(*rounds);
                if *how == How::Repaired {
                    self.repaired = self.repaired.saturating_add(1);
                }
                self.add_to_sum(alloc, 1, Some(stamp), value.as_slice())
            }
            Some(Outcome::Wrote(stamp)) => {
                self.wrote = self.wrote.saturating_add(1);
                self.add_to_sum(alloc, 2, Some(stamp), &[])
            }
            None => {
                self.lost = self.lost.saturating_add(1);
                self.add_to_sum(alloc, 0, None, &[])
            }
            Some(_) => Ok(self.tell_otherwise()),
        }
    }

    // Each sum is the digest of the one before and of what is added.
    fn add_to_sum(
        &mut self,
        alloc: Global,
        kind: u8,
        stamp: Option<&Stamp>,
        value: &[u8],
    ) -> Result<(), AllocError> {
        let mut text = Vec::from_slice(alloc, &self.sum)?;
        text.push(kind)?;
        if let Some(stamp) = stamp {
            text.extend_from_slice(&stamp.time.to_be_bytes())?;
            text.extend_from_slice(&stamp.client.to_be_bytes())?;
        }
        text.extend_from_slice(value)?;
        self.sum = sha(text.as_slice());
        Ok(())
    }

    /// A disk wasn't opened.
    pub fn add_unopened(&mut self) {
        self.unopened = self.unopened.saturating_add(1);
    }

    /// So many nodes are up at the end of a session.
    pub fn add_up(&mut self, up: u32) {
        self.up = self.up.saturating_add(u64::from(up));
    }

    /// A node that is up at the end of a session keeps so many versions beside the first ones.
    pub fn add_kept(&mut self, kept: u64) {
        self.kept = self.kept.saturating_add(kept);
    }

    /// A new disk was filled: so many blocks are rebuilt there. None may be missed.
    pub fn add_filled(&mut self, filled: &Filled) {
        self.rebuilt = self.rebuilt.saturating_add(filled.kept);
        if filled.missed > 0 {
            self.tell_otherwise();
        }
    }

    /// Something came out otherwise than it may.
    pub fn tell_otherwise(&mut self) {
        self.otherwise = self.otherwise.saturating_add(1);
    }

    /// The first bytes of the sum, in hexadecimal digits.
    pub fn sum_text(&self, alloc: Global) -> Result<String, AllocError> {
        let [first, second, third, fourth, ..] = self.sum;
        hex::encode(alloc, [first, second, third, fourth].as_slice())
    }
}

impl fmt::Display for Counts {
    fn fmt<W: fmt::Write>(&self, f: &mut fmt::Formatter<W>) -> fmt::Result {
        let Counts {
            operations,
            gave,
            repaired,
            rounds,
            wrote,
            lost,
            unopened,
            up,
            kept,
            rebuilt,
            otherwise,
            sum: _sum,
        } = *self;
        write!(
            f,
            "operations={operations} gave={gave} repaired={repaired} rounds={rounds} wrote={wrote} lost={lost} unopened={unopened} up={up} kept={kept} rebuilt={rebuilt} otherwise={otherwise}"
        )
    }
}
