ghost use Rattle.std.specs.Prelude.{◌≡◌, ◌≤◌, ◌<◌, ◌↔◌, ◌^◌, ◌-◌, [], ◌++◌, Some, true, false, length, take, min, Contains, IsErr, is_err, IfOk, OnOk, OnErr};
ghost use Rattle.std.specs.Io.{ReadsAtMost};
ghost use Rattle.std.specs.Io.KnownBytes.{ReadConsumes};
ghost use Rattle.outside_io.specs.Causes.{HasCause, one_more};

use crate::calm::give;
use crate::sink::Sink;
use crate::source::{Failed, Source};
use cross_sum::Bytes;
use lists::ItemList;
use std::alloc::Global;
use std::marker::Model;

/// Numbers of calls, counted from 0, in any order. Each call looks through the whole list, which is meant to be short.
pub type Calls = ItemList<u64>;

/// Bytes in memory, of which some reads fail.
#[derive(Drop)]
pub struct MemorySource {
    bytes: Bytes,
    at: usize,
    most: usize,
    fails: Calls,
    calls: u64,
    faults: u64,
    failed: bool,
}

impl Model for MemorySource {
    ghost use Rattle.std.specs.Prelude.{◌≤◌, length, drop};
    ghost use Rattle.outside_io.specs.Memory.{FailingGiving};

    ghost Value = { FailingGiving };

    ghost view = { λ s. record {
      left = drop s.at s.bytes;
      most = s.most;
      fails = s.fails;
      calls = s.calls;
      faults = s.faults;
      failed = s.failed;
    } };

    ghost invariant = { λ s. (s.at ≤ length s.bytes) × (1 ≤ s.most) };
}

impl MemorySource {
    /// A source of these bytes, which gives at most `most` at a time, and fails at the listed calls.
    pub fn new(bytes: Bytes, most: usize, fails: Calls) -> MemorySource
        requires { 1 ≤ most }
        ensures { result ≡ record {
          left = bytes;
          most = most;
          fails = fails;
          calls = 0;
          faults = 0;
          failed = false;
        } }
    {
        MemorySource {
            bytes,
            at: 0,
            most,
            fails,
            calls: 0,
            faults: 0,
            failed: false,
        }
    }
}

impl Source for MemorySource {
    ghost left = { λ s. Some s.left };

    ghost faults = { λ s. s.faults };

    ghost last = { Some (2 ^ 64 - 1) };

    ghost failed = { λ s. s.failed };

    fn read(&mut self, room: &mut [u8]) -> Result<usize, Failed>
        ensures bound { ReadsAtMost result room.new }
        ensures bytes { ReadConsumes (Some self.old.left) (Some self.new.left) result room.new }
        ensures cause { HasCause (Some (2 ^ 64 - 1)) self.old.faults self.new.faults result }
        ensures failed { self.new.failed ≡ is_err result }
        ensures exact { IsErr result ↔ Contains self.old.fails self.old.calls }
        ensures count { IfOk result (λ k.
            k ≡ min (min (length self.old.left) (length room.new)) self.old.most) }
        ensures calls { self.new.calls ≡ one_more self.old.calls }
        ensures faults { OnErr result (self.new.faults ≡ one_more self.old.faults) }
        ensures fails { self.new.fails ≡ self.old.fails }
        ensures same { self.new.most ≡ self.old.most }
    {
        self.failed = self.fails.as_slice().contains(&self.calls);
        self.calls = self.calls.saturating_add(1);
        if self.failed {
            self.faults = self.faults.saturating_add(1);
            return Err(Failed);
        }
        let count = give(self.bytes.tail(self.at), self.most, room);
        self.at += count;
        Ok(count)
    }
}

/// A sink in memory, of which some writes and flushes fail. Writes and flushes are counted together as calls.
#[derive(Drop)]
pub struct MemorySink {
    bytes: Vec<u8>,
    flushed: usize,
    most: usize,
    fails: Calls,
    calls: u64,
    faults: u64,
}

impl Model for MemorySink {
    ghost use Rattle.std.specs.Prelude.{◌≤◌};
    ghost use Rattle.outside_io.specs.Memory.{FailingTaking};

    ghost Value = { FailingTaking };

    ghost view = { λ s. record {
      taken = s.bytes.items;
      flushed = s.flushed;
      most = s.most;
      fails = s.fails;
      calls = s.calls;
      faults = s.faults;
    } };

    ghost invariant = { λ s. 1 ≤ s.most };
}

impl MemorySink {
    /// An empty sink, which takes at most `most` bytes of a piece, and fails at the listed calls and where it finds no memory.
    pub fn new(alloc: Global, most: usize, fails: Calls) -> MemorySink
        requires { 1 ≤ most }
        ensures { result ≡ record {
          taken = [];
          flushed = 0;
          most = most;
          fails = fails;
          calls = 0;
          faults = 0;
        } }
    {
        MemorySink {
            bytes: Vec::new(alloc),
            flushed: 0,
            most,
            fails,
            calls: 0,
            faults: 0,
        }
    }

    /// The bytes taken so far.
    pub fn taken(&self) -> &[u8]
        ensures { result.now ≡ self.now.taken }
    {
        self.bytes.as_slice()
    }

    // Counts a call, and answers whether it is one that fails.
    fn is_failing(&mut self) -> bool
        ensures fails { result ≡ true ↔ Contains self.old.fails self.old.calls }
        ensures same { self.new ≡ record self.old { calls = one_more self.old.calls } }
        ensures faults { self.new.faults ≡ self.old.faults }
    {
        let fails = self.fails.as_slice().contains(&self.calls);
        self.calls = self.calls.saturating_add(1);
        fails
    }

    fn fail<T>(&mut self) -> Result<T, Failed>
        ensures err { IsErr result }
        ensures cause { HasCause (Some (2 ^ 64 - 1)) self.old.faults self.new.faults result }
        ensures same { self.new ≡ record self.old { faults = one_more self.old.faults } }
    {
        self.faults = self.faults.saturating_add(1);
        Err(Failed)
    }
}

impl Sink for MemorySink {
    ghost taken = { λ s. Some s.taken };

    ghost flushed = { λ s. s.flushed };

    ghost faults = { λ s. s.faults };

    ghost last = { Some (2 ^ 64 - 1) };

    fn write(&mut self, piece: &[u8]) -> Result<usize, Failed>
        ensures bound { IfOk result (λ count. count ≤ length piece.now) }
        ensures some { 0 < length piece.now → IfOk result (λ count. 0 < count) }
        ensures bytes { IfOk result (λ count.
            self.new.taken ≡ self.old.taken ++ take count piece.now) }
        ensures nothing { OnErr result (Some self.new.taken ≡ Some self.old.taken) }
        ensures unflushed { self.new.flushed ≡ self.old.flushed }
        ensures cause { HasCause (Some (2 ^ 64 - 1)) self.old.faults self.new.faults result }
        // a call that isn't listed fails only where no memory was found
        ensures fails { Contains self.old.fails self.old.calls → IsErr result }
        ensures count { IfOk result (λ k. k ≡ min (length piece.now) self.old.most) }
        ensures calls { self.new.calls ≡ one_more self.old.calls }
        ensures faults { OnErr result (self.new.faults ≡ one_more self.old.faults) }
        ensures same { (self.new.fails ≡ self.old.fails) × (self.new.most ≡ self.old.most) }
    {
        if self.is_failing() {
            return self.fail();
        }
        let count = piece.len().min(self.most);
        match self.bytes.extend_from_slice(&piece[..count]) {
            Ok(()) => Ok(count),
            Err(_) => self.fail(),
        }
    }

    fn flush(&mut self) -> Result<(), Failed>
        ensures all { OnOk result (self.new.flushed ≡ length self.new.taken) }
        ensures bytes { Some self.new.taken ≡ Some self.old.taken }
        ensures unflushed { OnErr result (self.new.flushed ≡ self.old.flushed) }
        ensures cause { HasCause (Some (2 ^ 64 - 1)) self.old.faults self.new.faults result }
        ensures exact { IsErr result ↔ Contains self.old.fails self.old.calls }
        ensures calls { self.new.calls ≡ one_more self.old.calls }
        ensures faults { OnErr result (self.new.faults ≡ one_more self.old.faults) }
        ensures same { (self.new.fails ≡ self.old.fails) × (self.new.most ≡ self.old.most) }
    {
        if self.is_failing() {
            return self.fail();
        }
        self.flushed = self.bytes.len();
        Ok(())
    }
}
