ghost use Rattle.std.specs.Prelude.{◌≡◌, ◌≤◌, true, false, [], ◌∷◌, ◌++◌, length, take, IsErr, IfOk, OnOk, OnErr};
ghost use Rattle.sqlite_disk.specs.Disk.{MoreFaults, CountsFault};
ghost use Rattle.memory_file.specs.Steps.{seen_of, moment_of, LeftAt, Leaves, LeftSince, WroteSome};
ghost use Rattle.memory_file.specs.Laws.{seen_stays, counts, nothing_more};
ghost use Rattle.memory_file.specs.declared.step.Step.TheVariants.{Wrote, Lengthened, Synced};

use crate::crash::{Fate, replay};
use crate::step::{Step, lengthen, put_piece};
use cross_sum::Bytes;
use lists::NoMemory;
use outside_io::Calls;
use slab_file::{FileFault, SlabFile};
use sqlite_disk::digest_of;
use std::alloc::Global;
use std::marker::Model;

/// A file in memory, of which some calls fail. It records each step: a write, a lengthening, a sync. It tells no lie.
#[derive(Drop)]
pub struct MemoryFile {
    alloc: Global,
    first: Bytes,
    steps: Vec<Step>,
    /// What a read gives.
    bytes: Vec<u8>,
    /// The numbers of the calls that fail.
    fails: Calls,
    /// What they answer.
    fault: FileFault,
    calls: u64,
    usable: bool,
    faults: u64,
}

impl Model for MemoryFile {
    ghost use Rattle.std.specs.Prelude.{◌≡◌};
    ghost use Rattle.memory_file.specs.Steps.{Recorded, replayed};

    ghost Value = { Recorded };

    ghost view = { λ f. record {
      first = f.first;
      steps = f.steps.items;
      usable = f.usable;
      faults = f.faults;
    } };

    ghost invariant = { λ f. f.bytes.items ≡ replayed f.first f.steps.items };
}

impl MemoryFile {
    /// A file of these bytes, which are safe. The listed calls fail with this fault. Calls are counted from 0 over all
    /// but `may_be_used`. A write that fails has written the first half of its piece. Any other call that fails has done
    /// nothing.
    pub fn new(
        alloc: Global,
        bytes: &[u8],
        fails: Calls,
        fault: FileFault,
    ) -> Result<MemoryFile, NoMemory>
        ensures { IfOk result (λ f. f ≡ record {
          first = bytes.now;
          steps = [];
          usable = true;
          faults = 0;
        }) }
    {
        Ok(MemoryFile {
            alloc,
            first: Bytes::of(alloc, bytes)?,
            steps: Vec::new(alloc),
            bytes: Vec::from_slice(alloc, bytes)?,
            fails,
            fault,
            calls: 0,
            usable: true,
            faults: 0,
        })
    }

    /// What a read gives.
    pub fn bytes(&self) -> &[u8]
        ensures { result.now ≡ seen_of self.now }
    {
        self.bytes.as_slice()
    }

    /// All steps so far, the first one first.
    pub fn steps(&self) -> &[Step]
        ensures { result.now ≡ self.now.steps }
    {
        self.steps.as_slice()
    }

    /// What a crash leaves after the first so many steps, where these are the fates of the writes and lengthenings
    /// that weren't safe then, the oldest first. One that has no fate in the list is lost.
    pub fn left_after(&self, steps: usize, fates: &[Fate]) -> Result<Vec<u8>, NoMemory>
        requires { steps ≤ moment_of self.now }
        ensures { IfOk result (λ bytes. LeftAt self.now steps bytes.items) }
    {
        replay(
            self.alloc,
            self.first.as_slice(),
            &self.steps[..steps],
            fates,
        )
    }

    // Counts a call, and answers whether it is one that fails.
    fn next_fails(&mut self) -> bool
        ensures { self.new ≡ self.old }
    {
        let fails = self.fails.as_slice().contains(&self.calls);
        self.calls = self.calls.saturating_add(1);
        fails
    }

    // Counts a fault.
    fn fail<T>(&mut self) -> Result<T, FileFault>
        ensures err { IsErr result }
        ensures same { self.new ≡ record self.old { faults = self.new.faults } }
        ensures more { MoreFaults self.old.faults self.new.faults }
        ensures later { self.old.faults ≤ self.new.faults }
    {
        self.faults = self.faults.saturating_add(1);
        Err(self.fault)
    }

    // Writes a piece, and records that.
    #[tactic(auto, using(crate::proofs::Recording::replayed_more))]
    fn record_write(&mut self, at: u64, piece: &[u8]) -> Result<(), NoMemory>
        ensures ok { OnOk result
            (self.new ≡ record self.old { steps = self.old.steps ++ Wrote at piece.now ∷ [] }) }
        ensures err { OnErr result (self.new ≡ self.old) }
        ensures some { WroteSome at (length piece.now) self.old self.new }
        ensures faults { self.new.faults ≡ self.old.faults }
    {
        let copy = Bytes::of(self.alloc, piece)?;
        self.steps.reserve(1)?;
        put_piece(&mut self.bytes, at, piece)?;
        let _ = self.steps.push(Step::Wrote(at, copy));
        Ok(())
    }

    // Makes the file longer, and records that.
    #[tactic(auto, using(crate::proofs::Recording::replayed_more))]
    fn record_length(&mut self, len: u64) -> Result<(), NoMemory>
        ensures ok { OnOk result
            (self.new ≡ record self.old { steps = self.old.steps ++ Lengthened len ∷ [] }) }
        ensures err { OnErr result (self.new ≡ self.old) }
    {
        self.steps.reserve(1)?;
        lengthen(&mut self.bytes, len)?;
        let _ = self.steps.push(Step::Lengthened(len));
        Ok(())
    }

    // Writes a piece, or fails with half of it written.
    #[tactic(auto, using(crate::proofs::Recording::some_then))]
    fn try_write(&mut self, at: u64, piece: &[u8], fails: bool) -> Result<(), FileFault>
        ensures ok { OnOk result (self.new.steps ≡ self.old.steps ++ Wrote at piece.now ∷ []) }
        ensures some { WroteSome at (length piece.now) self.old self.new }
        ensures faults { CountsFault result self.old.faults self.new.faults }
    {
        if fails {
            let _ = self.record_write(at, &piece[..piece.len() / 2]);
            return self.fail();
        }
        match self.record_write(at, piece) {
            Ok(()) => Ok(()),
            Err(NoMemory) => self.fail(),
        }
    }

    // Records a sync, unless the call fails, and answers whether it did.
    fn try_sync(&mut self) -> bool
        ensures done { result ≡ true
            → self.new ≡ record self.old { steps = self.old.steps ++ Synced ∷ [] } }
        ensures not { result ≡ false → self.new ≡ self.old }
    {
        let fails = self.next_fails();
        !fails && self.record_sync().is_ok()
    }

    // Records a sync.
    #[tactic(auto, using(crate::proofs::Recording::replayed_more))]
    fn record_sync(&mut self) -> Result<(), NoMemory>
        ensures ok { OnOk result
            (self.new ≡ record self.old { steps = self.old.steps ++ Synced ∷ [] }) }
        ensures err { OnErr result (self.new ≡ self.old) }
    {
        self.steps.push(Step::Synced)?;
        Ok(())
    }
}

impl SlabFile for MemoryFile {
    ghost seen = { seen_of };

    ghost may_leave = { Leaves };

    ghost moment = { moment_of };

    ghost left_since = { LeftSince };

    ghost is_usable = { λ f. f.usable };

    ghost is_clean = { λ _. true };

    ghost faults = { λ f. f.faults };

    ghost seen_may_stay = { seen_stays };

    ghost counts_now = { counts };

    ghost only_now = { nothing_more };

    fn may_be_used(&self) -> bool {
        self.usable
    }

    #[tactic(auto, using(crate::proofs::Recording::stands_still))]
    fn len(&mut self) -> Result<u64, FileFault> {
        if self.next_fails() {
            return self.fail();
        }
        Ok(self.bytes.len() as u64)
    }

    #[tactic(auto, using(crate::proofs::Recording::stands_still, crate::proofs::Pieces::holds_part))]
    fn read_at(&mut self, at: u64, room: &mut [u8]) -> Result<(), FileFault> {
        let there = self.bytes.len() as u64;
        if self.next_fails() || at > there || room.len() as u64 > there - at {
            return self.fail();
        }
        let at = at as usize;
        room.copy_from_slice(&self.bytes[at..at + room.len()]);
        Ok(())
    }

    fn read_checked(
        &mut self,
        key: u64,
        check: u64,
        at: u64,
        room: &mut [u8],
    ) -> Result<bool, FileFault> {
        self.read_at(at, room)?;
        Ok(digest_of(key, room) == check)
    }

    #[tactic(auto, using(crate::proofs::Recording::some_elapses))]
    fn write_at(&mut self, at: u64, piece: &[u8]) -> Result<(), FileFault> {
        let fails = self.next_fails();
        self.try_write(at, piece, fails)
    }

    #[tactic(auto, using(crate::proofs::Recording::stands_still, crate::proofs::Recording::longer_elapses, crate::proofs::Recording::longer_follows, crate::proofs::Recording::longer_long))]
    fn lengthen(&mut self, len: u64) -> Result<(), FileFault> {
        if self.next_fails() {
            return self.fail();
        }
        match self.record_length(len) {
            Ok(()) => Ok(()),
            Err(NoMemory) => self.fail(),
        }
    }

    #[tactic(auto, using(crate::proofs::Recording::stands_still, crate::proofs::Recording::synced_elapses, crate::proofs::Recording::synced_only, crate::proofs::Recording::synced_crash, crate::proofs::Recording::synced_seen))]
    fn sync(&mut self) -> Result<(), FileFault> {
        if self.try_sync() {
            return Ok(());
        }
        self.usable = false;
        self.fail()
    }
}
