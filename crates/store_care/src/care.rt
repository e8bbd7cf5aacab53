ghost use Rattle.std.specs.Prelude.{◌≡◌, ◌+◌, ◌≤◌, ◌<◌, [], ◌∷◌, ◌++◌, List, Option, Some, map, length, slice_index_or, false, is_none, option_copied, IfOk, OnOk};
ghost use Rattle.std.specs.List.{range_with_len};
ghost use Rattle.stamp_order.specs.declared.Stamp.{Stamp as AnyStamp};
ghost use Rattle.protocol.specs.Operations.{Outcome as AnyOutcome};
ghost use Rattle.store_device.specs.Stores.{SeenStore};
ghost use Rattle.store_device.specs.Calls.{Call, Leads, HasPerformed};
ghost use Rattle.store_care.specs.Batches.{AreBelow};
ghost use Rattle.store_care.specs.Given.{given, given_by, written_by};
ghost use Rattle.store_care.specs.Holdings.{made_of, newest_at, newest_of};
ghost use Rattle.store_care.specs.Tallies.{AreChanged, holds_again, one_more_if, with_restored};
ghost use Rattle.store_care.specs.Looking.{AreLook, HasCounted};
ghost use Rattle.store_care.specs.Steps.{AreLacking, HasLooked, HasLookedAt, IsNoted, IsRestored};

use crate::blocks::{block_of, reads_of};
use crate::calls::{given, outcome_at, perform, written};
use crate::newest::{Newest, newest_of_all};
use crate::tally::NodeTally;
use client_core::Outcome;
use cross_sum::Bytes;
use disk_model::Disk;
use frag_check::{Summed, code_of, summed_block};
use lists::{Copied, NoMemory};
use quorum_rules::Config;
use stamp_order::Stamp;
use std::alloc::Global;
use std::thread::Threads;
use store_device::Store;
use wire_forms::{Op, Version};

/// What was found so far: counts for each seat, and how many blocks couldn't be read or written again.
#[derive(Drop)]
pub struct Care {
    pub tallies: Vec<NodeTally>,
    pub failed: u64,
}

// Writes of blocks that nodes don't hold, and for each of them by seat whether its node lacks the block.
#[derive(Drop)]
struct Lacking {
    again: Vec<Op>,
    seats: Vec<Vec<bool>>,
}

impl Care {
    /// Nothing was found yet, of so many seats.
    pub fn new(alloc: Global, seats: usize) -> Result<Care, NoMemory>
        ensures seats { IfOk result (λ care. length care.tallies.items ≡ seats) }
    {
        Ok(Care {
            tallies: vec![in alloc; NodeTally::default(); seats]?,
            failed: 0,
        })
    }

    /// Reads `count` blocks from this one on, counts what each node that is up holds of them, and where one doesn't hold what the read
    /// gave writes the value again.
    #[tactic(auto, using(crate::proofs::Rising::below_later, crate::proofs::Rising::none_below))]
    pub fn look<D: Disk + Send, R: Threads + Sync>(
        &mut self,
        rt: &R,
        alloc: Global,
        store: &mut Store<D>,
        first: u32,
        count: u32,
    ) -> Result<(), NoMemory>
        requires few { count ≤ 64 }
        requires there { first + count ≤ store.old.config.blocks }
        ensures config { store.new.config ≡ store.old.config }
        ensures seats { length self.new.tallies.items ≡ length self.old.tallies.items }
        // what it did to the store, and what it counted
        ensures calls { (calls : List (Call D))
            × Leads D.pending D.seen D.most D.moment D.left_since store.old calls store.new
            × AreLook first count calls
            × OnOk result (HasCounted first count self.old self.new store.old calls) }
    {
        let end = store.config().blocks().min(first + count);
        // A read may write back what it found, so what nodes hold is noted before.
        let before = newest_of_all(alloc, store, first, end)?;
        let reads = reads_of(alloc, first, count)?;
        let outcomes = perform(rt, store, &reads)?;
        let lacking = self.look_at_all(alloc, store, first, &outcomes, &before)?;
        self.restore(rt, store, &lacking)
    }

    // Looks at blocks from the first on, of which reads ended so, and of which nodes held this. Gives those that are to be written again.
    fn look_at_all<D: Disk>(
        &mut self,
        alloc: Global,
        store: &mut Store<D>,
        first: u32,
        outcomes: &[Option<Outcome>],
        before: &[Newest],
    ) -> Result<Lacking, NoMemory>
        requires few { first + length before.now ≤ 268435456 }
        requires there { first + length before.now ≤ store.old.config.blocks }
        ensures same { store.new ≡ store.old }
        ensures seats { length self.new.tallies.items ≡ length self.old.tallies.items }
        ensures lacking { IfOk result (λ lacking. AreLacking store.old.config first
            (length before.now) outcomes.now (length before.now) lacking) }
        ensures looked { IfOk result (λ lacking. (old : SeenStore D) → old.config ≡ store.old.config
            → map (λ newest. newest.items) before.now
            ≡ map (newest_of old) (range_with_len first (length before.now))
            → HasLooked old store.old first outcomes.now (length before.now) self.old self.new lacking) }
    {
        let mut lacking = Lacking {
            again: Vec::new(alloc),
            seats: Vec::new(alloc),
        };
        let mut block = first;
        for (k, newest) in before.iter().enumerate() {
            self.look_at(
                alloc,
                store,
                block,
                outcome_at(outcomes, k),
                newest,
                &mut lacking,
            )?;
            block += 1;
        }
        Ok(lacking)
    }

    // Looks at one block, of which a read ended so, and of which nodes held this.
    fn look_at<D: Disk>(
        &mut self,
        alloc: Global,
        store: &mut Store<D>,
        block: u32,
        outcome: Option<&Outcome>,
        newest: &[Option<Version>],
        lacking: &mut Lacking,
    ) -> Result<(), NoMemory>
        requires { block < store.old.config.blocks }
        ensures same { store.new ≡ store.old }
        ensures seats { length self.new.tallies.items ≡ length self.old.tallies.items }
        ensures looked { OnOk result (HasLookedAt store.old.config newest.now store.old block
            (given store.old.config.size (option_copied outcome.entry)) self.old self.new lacking.old lacking.new) }
    {
        match given(outcome, store.config().size()) {
            Some((stamp, value)) => {
                self.look_at_value(alloc, store, block, stamp, value, newest, lacking)
            }
            None => {
                self.failed = self.failed.saturating_add(1);
                Ok(())
            }
        }
    }

    // Looks at one block, of which a read gave this, and of which nodes held this.
    fn look_at_value<D: Disk>(
        &mut self,
        alloc: Global,
        store: &mut Store<D>,
        block: u32,
        stamp: &Stamp,
        value: &Bytes,
        newest: &[Option<Version>],
        lacking: &mut Lacking,
    ) -> Result<(), NoMemory>
        requires { block < store.old.config.blocks }
        ensures same { store.new ≡ store.old }
        ensures seats { length self.new.tallies.items ≡ length self.old.tallies.items }
        ensures looked { OnOk result (HasLookedAt store.old.config newest.now store.old block
            (Some (given_by stamp.now value.now)) self.old self.new lacking.old lacking.new) }
    {
        let summed = fragments(alloc, store.config(), stamp, value)?;
        let made = summed.as_ref();
        let lacked = self.count_all(alloc, newest, stamp, made)?;
        let still = self.count_again(alloc, store, block, stamp, made, &lacked)?;
        lacking.note(block, value, still)
    }

    // Writes blocks again, and counts the nodes that lacked them and hold them since.
    fn restore<D: Disk + Send, R: Threads + Sync>(
        &mut self,
        rt: &R,
        store: &mut Store<D>,
        lacking: &Lacking,
    ) -> Result<(), NoMemory>
        requires batch { AreBelow store.old.config store.old.config.blocks lacking.now.again.items }
        requires few { length lacking.now.again.items ≤ 64 }
        requires paired { length lacking.now.seats.items ≡ length lacking.now.again.items }
        ensures config { store.new.config ≡ store.old.config }
        ensures seats { length self.new.tallies.items ≡ length self.old.tallies.items }
        ensures calls { (told : Option (List (Option AnyOutcome)))
            × HasPerformed D.pending D.seen D.most D.moment D.left_since lacking.now.again.items told store.old store.new
            × OnOk result ((outcomes : List (Option AnyOutcome)) × (told ≡ Some outcomes)
            × IsRestored store.old.config.n store.new lacking.now outcomes (length lacking.now.again.items) self.old self.new) }
    {
        let outcomes = perform(rt, store, &lacking.again)?;
        self.count_written(store, lacking, &outcomes)
    }

    // Counts the nodes that lacked blocks and hold them since they were written, which ended so, and the writes that weren't told of.
    fn count_written<D: Disk>(
        &mut self,
        store: &mut Store<D>,
        lacking: &Lacking,
        outcomes: &[Option<Outcome>],
    ) -> Result<(), NoMemory>
        requires batch { AreBelow store.old.config store.old.config.blocks lacking.now.again.items }
        requires paired { length lacking.now.seats.items ≡ length lacking.now.again.items }
        ensures same { store.new ≡ store.old }
        ensures seats { length self.new.tallies.items ≡ length self.old.tallies.items }
        ensures restored { OnOk result (IsRestored store.old.config.n store.old lacking.now outcomes.now
            (length lacking.now.again.items) self.old self.new) }
    {
        for (k, op) in lacking.again.iter().enumerate() {
            let outcome = outcome_at(outcomes, k);
            self.count_write(store, block_of(op), &lacking.seats[k], outcome)?;
        }
        Ok(())
    }

    // Counts the nodes that lacked a block, as it is told by seat, and hold it since it was written, which ended so.
    fn count_write<D: Disk>(
        &mut self,
        store: &mut Store<D>,
        block: u32,
        lacked: &[bool],
        outcome: Option<&Outcome>,
    ) -> Result<(), NoMemory>
        requires { block < store.old.config.blocks }
        ensures same { store.new ≡ store.old }
        ensures seats { length self.new.tallies.items ≡ length self.old.tallies.items }
        ensures failed { OnOk result (self.new.failed
            ≡ one_more_if (is_none (written_by (option_copied outcome.entry))) self.old.failed) }
        ensures tallies { OnOk result (AreChanged (λ seat. with_restored (holds_again (slice_index_or lacked.now seat false)
            (written_by (option_copied outcome.entry)) (newest_at store.old block seat)))
            (length lacked.now) self.old.tallies.items self.new.tallies.items) }
    {
        match written(outcome) {
            Some(stamp) => self.count_holding(store, lacked, block, stamp),
            None => {
                self.failed = self.failed.saturating_add(1);
                Ok(())
            }
        }
    }
}

impl Lacking {
    // Notes a block with the value that a read of it gave, if by seat a node lacks it.
    fn note(&mut self, block: u32, value: &Bytes, seats: Vec<bool>) -> Result<(), NoMemory>
        ensures { OnOk result ((stamp : AnyStamp)
            → IsNoted block (Some (given_by stamp value.now)) seats.items self.old self.new) }
    {
        if !seats.iter().any(|lacks| *lacks) {
            return Ok(());
        }
        self.add(block, value.copy()?, seats)
    }

    // Adds a write of a block with a value, and by seat whether its node lacks the block.
    fn add(&mut self, block: u32, value: Bytes, seats: Vec<bool>) -> Result<(), NoMemory>
        ensures again { OnOk result
            (self.new.again.items ≡ self.old.again.items ++ Op.Write block value ∷ []) }
        ensures seats { OnOk result (self.new.seats.items ≡ self.old.seats.items ++ seats ∷ []) }
    {
        self.again.push(Op::Write { block, value })?;
        self.seats.push(seats)?;
        Ok(())
    }
}

// The fragments of a value that was written; a block that never was has those that each node makes itself.
fn fragments(
    alloc: Global,
    config: &Config,
    stamp: &Stamp,
    value: &Bytes,
) -> Result<Option<Summed>, NoMemory>
    ensures { IfOk result (λ made. made ≡ made_of config.now (given_by stamp.now value.now)) }
{
    if stamp.time == 0 {
        return Ok(None);
    }
    Ok(Some(summed_block(alloc, &code_of(config), value)?))
}
