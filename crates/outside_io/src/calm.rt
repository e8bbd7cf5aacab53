ghost use Rattle.std.specs.Prelude.{◌≡◌, ◌≤◌, ◌<◌, ◌-◌, ◌&&◌, nat_le, ◌++◌, [], Some, None, Ok, true, false, length, take, drop, min, IfOk, IsOk, OnOk, OnErr};
ghost use Rattle.std.specs.Io.{ReadsAtMost};
ghost use Rattle.std.specs.Io.KnownBytes.{ReadConsumes};
ghost use Rattle.outside_io.specs.Causes.{HasCause};
ghost use Rattle.outside_io.specs.Memory.{told};
ghost use Rattle.outside_io.specs.Written.{Adds, AllFlushed};

use crate::sink::Sink;
use crate::source::{Failed, Source};
use cross_sum::Bytes;
use lists::NoMemory;
use std::alloc::Global;
use std::marker::Model;

/// Bytes in memory, which are read without a fault.
#[derive(Drop)]
pub struct CalmSource {
    bytes: Bytes,
    at: usize,
    most: usize,
}

impl Model for CalmSource {
    ghost use Rattle.std.specs.Prelude.{◌≤◌, length, drop};
    ghost use Rattle.outside_io.specs.Memory.{Giving};

    ghost Value = { Giving };

    ghost view = { λ s. record { left = drop s.at s.bytes; most = s.most } };

    ghost invariant = { λ s. (s.at ≤ length s.bytes) × (1 ≤ s.most) };
}

impl CalmSource {
    /// A source of these bytes, which gives at most `most` at a time.
    pub fn new(bytes: Bytes, most: usize) -> CalmSource
        requires { 1 ≤ most }
        ensures { result ≡ record { left = bytes; most = most } }
    {
        CalmSource { bytes, at: 0, most }
    }
}

impl Source for CalmSource {
    ghost left = { λ s. Some s.left };

    ghost faults = { λ _. 0 };

    ghost last = { None };

    ghost failed = { λ _. false };

    // it never fails
    fn read(&mut self, room: &mut [u8]) -> Result<usize, Failed>
        ensures bound { ReadsAtMost result room.new }
        ensures bytes { ReadConsumes (Some self.old.left) (Some self.new.left) result room.new }
        ensures cause { HasCause None 0 0 result }
        ensures count { result
            ≡ Ok (min (min (length self.old.left) (length room.new)) self.old.most) }
        ensures same { self.new.most ≡ self.old.most }
    {
        let count = give(self.bytes.tail(self.at), self.most, room);
        self.at += count;
        Ok(count)
    }
}

/// Copies as many bytes as there are, as fit the room and as may be given, and answers how many.
pub(crate) fn give(left: &[u8], most: usize, room: &mut [u8]) -> usize
    requires { 1 ≤ most }
    ensures count { result ≡ min (min (length left.now) (length room.new)) most }
    ensures within { result ≤ length left.now }
    ensures fits { result ≤ length room.new }
    ensures same { take result room.new ≡ take result left.now }
    ensures end { result ≡ 0 → 0 < length room.new → left.now ≡ [] }
{
    let count = left.len().min(room.len()).min(most);
    room[..count].copy_from_slice(&left[..count]);
    count
}

/// A room in memory, which takes every piece whole, keeps the bytes that fit, and never fails. It tells its bytes as long as
/// all of them fitted.
#[derive(Drop)]
pub struct CalmSink {
    room: Vec<u8>,
    used: usize,
    whole: bool,
    flushed: usize,
}

impl Model for CalmSink {
    ghost use Rattle.std.specs.Prelude.{◌≤◌, ◌-◌, take, length};
    ghost use Rattle.outside_io.specs.Memory.{Keeping};

    ghost Value = { Keeping };

    ghost view = { λ s. record {
      kept = take s.used s.room.items;
      room = length s.room.items - s.used;
      whole = s.whole;
      flushed = s.flushed;
    } };

    ghost invariant = { λ s. s.used ≤ length s.room.items };
}

impl CalmSink {
    /// An empty room for so many bytes, whose memory is taken here.
    pub fn new(alloc: Global, room: usize) -> Result<CalmSink, NoMemory>
        ensures { IfOk result (λ s.
            s ≡ record { kept = []; room = room; whole = true; flushed = 0 }) }
    {
        Ok(CalmSink {
            room: vec![in alloc; 0; room]?,
            used: 0,
            whole: true,
            flushed: 0,
        })
    }

    /// The bytes kept.
    pub fn taken(&self) -> &[u8]
        ensures { result.now ≡ self.now.kept }
    {
        &self.room[..self.used]
    }

    // Keeps what fits of a piece.
    fn keep(&mut self, piece: &[u8])
        ensures kept { self.new.kept ≡ self.old.kept ++ take self.old.room piece.now }
        ensures room { self.new.room ≡ self.old.room - length piece.now }
        ensures whole { self.new.whole
            ≡ (self.old.whole && nat_le (length piece.now) self.old.room) }
        ensures flushed { self.new.flushed ≡ self.old.flushed }
    {
        let count = piece.len().min(self.room.len() - self.used);
        self.room[self.used..self.used + count].copy_from_slice(&piece[..count]);
        self.used += count;
        self.whole = self.whole && count == piece.len();
    }

    /// Whether all bytes fitted.
    pub fn is_whole(&self) -> bool
        ensures { result ≡ self.now.whole }
    {
        self.whole
    }
}

impl Sink for CalmSink {
    ghost taken = { λ s. told s };

    ghost flushed = { λ s. s.flushed };

    ghost faults = { λ _. 0 };

    ghost last = { None };

    // it takes the piece whole, and never fails
    fn write(&mut self, piece: &[u8]) -> Result<usize, Failed>
        ensures bound { IfOk result (λ count. count ≤ length piece.now) }
        ensures some { 0 < length piece.now → IfOk result (λ count. 0 < count) }
        ensures bytes { IfOk result (λ count. Adds (told self.old) (told self.new)
            (take count piece.now)) }
        ensures nothing { OnErr result (told self.new ≡ told self.old) }
        ensures unflushed { self.new.flushed ≡ self.old.flushed }
        ensures cause { HasCause None 0 0 result }
        ensures all { result ≡ Ok (length piece.now) }
        ensures kept { self.new.kept ≡ self.old.kept ++ take self.old.room piece.now }
        ensures room { self.new.room ≡ self.old.room - length piece.now }
        ensures whole { self.new.whole
            ≡ (self.old.whole && nat_le (length piece.now) self.old.room) }
    {
        self.keep(piece);
        Ok(piece.len())
    }

    // it never fails
    fn flush(&mut self) -> Result<(), Failed>
        ensures all { OnOk result (AllFlushed (told self.new) self.new.flushed) }
        ensures bytes { told self.new ≡ told self.old }
        ensures unflushed { OnErr result (self.new.flushed ≡ self.old.flushed) }
        ensures cause { HasCause None 0 0 result }
        ensures ok { IsOk result }
        ensures same { self.new ≡ record self.old { flushed = length self.old.kept } }
    {
        self.flushed = self.used;
        Ok(())
    }
}
