//! The input that was read and isn't served yet.
ghost use Rattle.std.specs.Prelude.{◌≡◌, ◌≢◌, ◌≤◌, ◌<◌, ◌+◌, ◌^◌, ◌↔◌, ◌++◌, ◌⊎◌, ℕ, List, IsTrue, Ok, Err, true, length, drop, [], IfOk, OnOk, OnErr, IfErr, IsErrOf};
ghost use Rattle.outside_io.specs.Causes.{Rose};
ghost use Rattle.store_front.specs.Inputs.{HasRead};
ghost use Rattle.store_front.specs.Sessions.{HasReadOn, HasLost};

use lists::NoMemory;
use nbd_front::SessionEnd;
use outside_io::Source;
use std::alloc::Global;
use std::marker::Model;

/// How many bytes are read at once, at most.
const ROOM: usize = 1_048_576;

/// The input that was read and isn't served yet. Contracts see its bytes.
#[derive(Drop)]
pub(crate) struct Input {
    /// What was read.
    bytes: Vec<u8>,
    /// How many of these bytes are served.
    served: usize,
    /// Where the next bytes are read to.
    room: Vec<u8>,
}

impl Model for Input {
    ghost use Rattle.std.specs.Prelude.{◌≡◌, ◌≤◌, ℕ, List, length, drop};

    ghost Value = { List ℕ };

    ghost view = { λ s. drop s.served s.bytes.items };

    ghost invariant = { λ s. (s.served ≤ length s.bytes.items) × (length s.room.items ≡ 1048576) };
}

impl Input {
    /// An input of which nothing was read.
    pub(crate) fn new(alloc: Global) -> Result<Input, NoMemory>
        ensures { IfOk result (λ input. input ≡ []) }
    {
        Ok(Input {
            bytes: Vec::new(alloc),
            served: 0,
            room: vec![in alloc; 0; ROOM]?,
        })
    }

    /// The bytes at hand.
    pub(crate) fn at_hand(&self) -> &[u8]
        ensures { result.now ≡ self.now }
    {
        &self.bytes[self.served..]
    }

    /// Drops bytes at the front, which are served.
    pub(crate) fn drop_front(&mut self, len: usize)
        requires { len ≤ length self.old }
        ensures { self.new ≡ drop len self.old }
    {
        self.served += len;
    }

    /// Reads what the source has, and answers whether the input goes on: its end has no more bytes.
    pub(crate) fn read_more<S: Source>(&mut self, source: &mut S) -> Result<bool, SessionEnd>
        ensures read { IfOk result (λ more.
            HasRead self.old self.new (S.left source.old) (S.left source.new) more) }
        ensures longer { result ≡ Ok true → length self.old < length self.new }
        ensures room { OnOk result (length self.new ≤ length self.old + 2 ^ 20) }
        ensures failed { IsErrOf result SessionEnd.ReadFault
            → (self.new ≡ self.old) × HasReadOn self.old self.new (S.left source.old) (S.left source.new) }
        ensures lost { IsErrOf result SessionEnd.NoMemory
            → HasLost self.old self.new (S.left source.old) (S.left source.new) }
        ensures ends { IfErr result (λ end. (end ≡ SessionEnd.ReadFault) ⊎ (end ≡ SessionEnd.NoMemory)) }
        ensures fault { IsErrOf result SessionEnd.ReadFault
            → Rose S.last (S.faults source.old) (S.faults source.new) }
        ensures calm { result ≢ Err SessionEnd.ReadFault
            → S.faults source.new ≡ S.faults source.old }
    {
        if self.served > 0 {
            self.bytes.drain(..self.served);
            self.served = 0;
        }
        match source.read(&mut self.room) {
            Err(_) => Err(SessionEnd::ReadFault),
            Ok(count) => {
                self.bytes.extend_from_slice(&self.room[..count])?;
                Ok(count > 0)
            }
        }
    }
}
