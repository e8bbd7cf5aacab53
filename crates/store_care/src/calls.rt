//! Batches as calls of a store, and how their operations ended.
ghost use Rattle.std.specs.Prelude.{◌≡◌, ◌≤◌, length, IfOk, IfErr, Some, None, option_map, option_copied};
ghost use Rattle.store_device.specs.Calls.{HasPerformed};
ghost use Rattle.store_care.specs.Batches.{AreBelow};
ghost use Rattle.store_care.specs.Given.{given, given_by, outcome_at, written_by};

use client_core::Outcome;
use cross_sum::Bytes;
use disk_model::Disk;
use lists::NoMemory;
use stamp_order::Stamp;
use std::thread::Threads;
use store_device::Store;
use wire_forms::Op;

/// Has the store perform a batch. Gives how each operation ended.
pub(crate) fn perform<D: Disk + Send, R: Threads + Sync>(
    rt: &R,
    store: &mut Store<D>,
    ops: &[Op],
) -> Result<Vec<Option<Outcome>>, NoMemory>
    requires batch { AreBelow store.old.config store.old.config.blocks ops.now }
    requires few { length ops.now ≤ 64 }
    ensures ok { IfOk result (λ outcomes. HasPerformed D.pending D.seen D.most D.moment D.left_since ops.now
        (Some outcomes.items) store.old store.new) }
    ensures err { IfErr result (λ _. HasPerformed D.pending D.seen D.most D.moment D.left_since ops.now None
        store.old store.new) }
    ensures config { store.new.config ≡ store.old.config }
{
    store.perform(rt, ops)
}

/// How the operation of this number ended, where that was told.
pub(crate) fn outcome_at(outcomes: &[Option<Outcome>], number: usize) -> Option<&Outcome>
    ensures { option_copied result ≡ outcome_at outcomes.now number }
{
    outcomes.get(number)?.as_ref()
}

/// What an operation gave that ended so, where that is a block of this size.
pub(crate) fn given(outcome: Option<&Outcome>, size: u32) -> Option<(&Stamp, &Bytes)>
    ensures { option_map (λ g. given_by g.0.now g.1.now) result
        ≡ given size (option_copied outcome.entry) }
{
    match outcome? {
        Outcome::Gave { stamp, value, .. } if value.len() == size as usize => Some((stamp, value)),
        _ => None,
    }
}

/// The stamp of a write that ended so.
pub(crate) fn written(outcome: Option<&Outcome>) -> Option<&Stamp>
    ensures { option_copied result ≡ written_by (option_copied outcome.entry) }
{
    match outcome? {
        Outcome::Wrote(stamp) => Some(stamp),
        _ => None,
    }
}
