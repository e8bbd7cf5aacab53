//! What is counted of a block.
ghost use Rattle.std.specs.Prelude.{◌≡◌, ◌<◌, ◌&&◌, false, Some, map, length, slice_index_or, option_map, option_copied, IfOk, OnOk};
ghost use Rattle.std.specs.List.{range_with_len};
ghost use Rattle.protocol.specs.Nodes.{carries};
ghost use Rattle.store_care.specs.Holdings.{newest_at, holding_of};
ghost use Rattle.store_care.specs.Tallies.{AreChanged, lacks, is_sound, with_holding, with_restored};
ghost use Rattle.store_care.specs.Steps.{IsChangedAt, holding_in};

use crate::care::Care;
use crate::holding::{Holding, compared};
use crate::newest::newest_at;
use disk_model::Disk;
use frag_check::Summed;
use lists::NoMemory;
use stamp_order::Stamp;
use std::alloc::Global;
use store_device::Store;
use wire_forms::Version;

impl Care {
    /// Counts what nodes held of a block before it was read. Tells by seat whether its node lacked what the read gave.
    pub(crate) fn count_all(
        &mut self,
        alloc: Global,
        newest: &[Option<Version>],
        stamp: &Stamp,
        made: Option<&Summed>,
    ) -> Result<Vec<bool>, NoMemory>
        ensures seats { length self.new.tallies.items ≡ length self.old.tallies.items }
        ensures failed { self.new.failed ≡ self.old.failed }
        ensures tallies { OnOk result (AreChanged (λ seat. with_holding
            (holding_in stamp.now (option_copied made.entry) newest.now seat)) (length newest.now)
            self.old.tallies.items self.new.tallies.items) }
        ensures lacked { IfOk result (λ lacked. lacked.items ≡ map (λ seat. lacks
            (holding_in stamp.now (option_copied made.entry) newest.now seat))
            (range_with_len 0 (length newest.now))) }
    {
        let mut lacked = Vec::new(alloc);
        for (seat, version) in newest.iter().enumerate() {
            let lacks = self.count(seat, version.as_ref(), stamp, made);
            lacked.push(lacks)?;
        }
        Ok(lacked)
    }

    // Counts what the node of a seat held, whose newest version was this one. Tells whether it lacked what the read gave.
    fn count(
        &mut self,
        seat: usize,
        newest: Option<&Version>,
        stamp: &Stamp,
        made: Option<&Summed>,
    ) -> bool
        ensures failed { self.new.failed ≡ self.old.failed }
        ensures tally { IsChangedAt seat (with_holding
            (option_map (holding_of seat stamp.now (option_copied made.entry)) (option_copied newest.entry)))
            self.old.tallies.items self.new.tallies.items }
        ensures lacks { result ≡ lacks
            (option_map (holding_of seat stamp.now (option_copied made.entry)) (option_copied newest.entry)) }
    {
        let Some(version) = newest else {
            return false;
        };
        let holding = compared(version, seat, stamp, made);
        if let Some(tally) = self.tallies.get_mut(seat) {
            tally.count(holding);
        }
        lacks(holding)
    }

    /// Counts the nodes that lacked a block and hold since it was read what the read gave. Tells by seat whether its node lacks it still.
    pub(crate) fn count_again<D: Disk>(
        &mut self,
        alloc: Global,
        store: &mut Store<D>,
        block: u32,
        stamp: &Stamp,
        made: Option<&Summed>,
        lacked: &[bool],
    ) -> Result<Vec<bool>, NoMemory>
        requires { block < store.old.config.blocks }
        ensures same { store.new ≡ store.old }
        ensures seats { length self.new.tallies.items ≡ length self.old.tallies.items }
        ensures failed { self.new.failed ≡ self.old.failed }
        ensures tallies { OnOk result (AreChanged (λ seat. with_restored
            (slice_index_or lacked.now seat false && is_sound
            (option_map (holding_of seat stamp.now (option_copied made.entry)) (newest_at store.old block seat))))
            (length lacked.now) self.old.tallies.items self.new.tallies.items) }
        ensures still { IfOk result (λ still. still.items ≡ map (λ seat. slice_index_or lacked.now seat false && lacks
            (option_map (holding_of seat stamp.now (option_copied made.entry)) (newest_at store.old block seat)))
            (range_with_len 0 (length lacked.now))) }
    {
        let mut still = Vec::new(alloc);
        for (seat, was_lacking) in lacked.iter().enumerate() {
            let newest = newest_at(store, seat, block)?;
            let lacks = self.count_one_again(seat, *was_lacking, newest.as_ref(), stamp, made);
            still.push(lacks)?;
        }
        Ok(still)
    }

    // Counts the node of a seat, whose newest version is this one, if it lacked a block and holds what a read of it gave. Tells whether it
    // lacks it still.
    fn count_one_again(
        &mut self,
        seat: usize,
        lacked: bool,
        newest: Option<&Version>,
        stamp: &Stamp,
        made: Option<&Summed>,
    ) -> bool
        ensures failed { self.new.failed ≡ self.old.failed }
        ensures tally { IsChangedAt seat (with_restored (lacked && is_sound
            (option_map (holding_of seat stamp.now (option_copied made.entry)) (option_copied newest.entry))))
            self.old.tallies.items self.new.tallies.items }
        ensures lacks { result ≡ lacked && lacks
            (option_map (holding_of seat stamp.now (option_copied made.entry)) (option_copied newest.entry)) }
    {
        let Some(version) = newest else {
            return false;
        };
        let lacks = lacks(compared(version, seat, stamp, made));
        self.note_restored(seat, lacked && !lacks);
        lacked && lacks
    }

    // Counts a block that the node of a seat holds again, if it does.
    fn note_restored(&mut self, seat: usize, again: bool)
        ensures failed { self.new.failed ≡ self.old.failed }
        ensures tally { IsChangedAt seat (with_restored again) self.old.tallies.items self.new.tallies.items }
    {
        if again && let Some(tally) = self.tallies.get_mut(seat) {
            tally.count_restored();
        }
    }

    /// Counts the nodes that lacked a block, as it is told by seat, and hold its version of this stamp.
    pub(crate) fn count_holding<D: Disk>(
        &mut self,
        store: &mut Store<D>,
        lacked: &[bool],
        block: u32,
        stamp: &Stamp,
    ) -> Result<(), NoMemory>
        requires { block < store.old.config.blocks }
        ensures same { store.new ≡ store.old }
        ensures seats { length self.new.tallies.items ≡ length self.old.tallies.items }
        ensures failed { self.new.failed ≡ self.old.failed }
        ensures tallies { OnOk result (AreChanged (λ seat. with_restored
            (slice_index_or lacked.now seat false && carries stamp.now (newest_at store.old block seat)))
            (length lacked.now) self.old.tallies.items self.new.tallies.items) }
    {
        for (seat, was_lacking) in lacked.iter().enumerate() {
            let newest = newest_at(store, seat, block)?;
            let again = is_restored(*was_lacking, newest.as_ref(), stamp);
            self.note_restored(seat, again);
        }
        Ok(())
    }
}

// Whether a node that holds this lacks what a read gave.
fn lacks(holding: Holding) -> bool
    ensures { result ≡ lacks (Some holding) }
{
    holding != Holding::Sound
}

// Whether a node that lacked a block, if it did, holds the version of this stamp.
fn is_restored(lacked: bool, version: Option<&Version>, stamp: &Stamp) -> bool
    ensures { result ≡ lacked && carries stamp.now (option_copied version.entry) }
{
    lacked && has_stamp(version, stamp)
}

// Whether there is a version, and it has this stamp.
fn has_stamp(version: Option<&Version>, stamp: &Stamp) -> bool
    ensures { result ≡ carries stamp.now (option_copied version.entry) }
{
    match version {
        Some(version) => version.stamp.cmp(stamp).is_eq(),
        None => false,
    }
}
