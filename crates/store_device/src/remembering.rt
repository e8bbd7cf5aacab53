//! What a store remembers of the operations that were acknowledged: by which stamps their blocks may be pruned.

ghost use Rattle.std.specs.Prelude.{◌≡◌, ◌<◌, ◌≤◌, ◌+◌, ◌++◌, All, None, length, slice_index_or, vec_capacity, vec_len, OnOk};
ghost use Rattle.std.specs.Option.{option_copied};
ghost use Rattle.protocol.specs.Seen.{block_of};
ghost use Rattle.store_device.specs.Calls.{given_by, prune_of, prunes_of, with_room};
ghost use Rattle.store_device.specs.Seating.{forgetting};

use crate::store::Store;
use client_core::Outcome;
use disk_model::Disk;
use lists::NoMemory;
use version_disk::Prune;
use wire_forms::Op;

/// How many stamps a store remembers at most. Where there would be more, it forgets those that it has first.
pub const MOST_REMEMBERED: usize = 131_072;

impl<D: Disk> Store<D> {
    /// By which stamps blocks may be pruned: those of the operations that were acknowledged since they were last forgotten, the latest last.
    pub fn acknowledged(&self) -> &[Prune]
        ensures stamps { result.now ≡ self.now.acknowledged }
        ensures there { All (λ p. p.block < self.now.config.blocks) result.now }
    {
        self.acknowledged.as_slice()
    }

    /// Forgets them.
    pub fn forget_acknowledged(&mut self)
        ensures { self.new ≡ forgetting self.old }
    {
        self.acknowledged.clear();
    }
}

/// Makes room for so many stamps more. Where these would be too many, those that are there are forgotten.
pub(crate) fn make_room(acknowledged: &mut Vec<Prune>, more: usize) -> Result<(), NoMemory>
    requires few { more ≤ 64 }
    ensures kept { acknowledged.new.items ≡ with_room more acknowledged.old.items }
    ensures room { OnOk result (vec_len acknowledged.new + more ≤ vec_capacity acknowledged.new) }
{
    if acknowledged.len() > MOST_REMEMBERED - more {
        acknowledged.clear();
    }
    acknowledged.reserve(more)?;
    Ok(())
}

/// Remembers the stamps of those operations that were acknowledged, in order.
pub(crate) fn remember_all(acknowledged: &mut Vec<Prune>, ops: &[Op], outcomes: &[Option<Outcome>])
    requires room { vec_len acknowledged.old + length ops.now ≤ vec_capacity acknowledged.old }
    ensures { acknowledged.new.items
        ≡ acknowledged.old.items ++ prunes_of ops.now outcomes.now }
{
    for (k, op) in ops.iter().enumerate() {
        remember(acknowledged, op, outcome_at(outcomes, k));
    }
}

/// How the operation of this number ended, where that was told.
fn outcome_at(outcomes: &[Option<Outcome>], number: usize) -> Option<&Outcome>
    ensures { option_copied result ≡ slice_index_or outcomes.now number None }
{
    outcomes.get(number)?.as_ref()
}

/// Remembers the stamp of what an operation read or wrote, if its outcome was told.
fn remember(acknowledged: &mut Vec<Prune>, op: &Op, outcome: Option<&Outcome>)
    requires room { vec_len acknowledged.old < vec_capacity acknowledged.old }
    ensures items { acknowledged.new.items ≡ acknowledged.old.items
        ++ prune_of (block_of op.now) (given_by op.now (option_copied outcome.entry)) }
    ensures len { vec_len acknowledged.new ≤ vec_len acknowledged.old + 1 }
    ensures capacity { vec_capacity acknowledged.new ≡ vec_capacity acknowledged.old }
{
    match (op, outcome) {
        (Op::Read { block }, Some(Outcome::Gave { stamp, .. }))
        | (Op::Write { block, .. }, Some(Outcome::Wrote(stamp))) => {
            acknowledged.push_reserved(Prune {
                block: *block,
                stamp: *stamp,
            });
        }
        _ => {}
    }
}
