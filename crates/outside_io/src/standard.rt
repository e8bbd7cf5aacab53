ghost use Rattle.std.specs.Prelude.{◌≡◌, ◌≤◌, ◌<◌, ◌^◌, ◌-◌, Some, None, true, false, length, IfOk, IsErr};
ghost use Rattle.std.specs.Io.KnownBytes.{Keeps, WriteAppends};
ghost use Rattle.outside_io.specs.Causes.{HasCause, RoseByOne};

use crate::sink::Sink;
use crate::source::{Failed, Source};
use std::io::{ErrorKind, Read, Write};

/// A reader of std, as standard input. It tells the bytes that std tells of the reader: none of standard input. A read that is
/// interrupted is tried again; each other `Err` is counted, up to the last u64.
#[derive(Drop)]
pub struct StdSource<R: Read> {
    inner: R,
    faults: u64,
    failed: bool,
}

impl<R: Read> StdSource<R> {
    /// A source over a reader, with no fault so far.
    pub fn new(inner: R) -> StdSource<R>
        ensures inner { result.inner ≡ inner }
        ensures faults { result.faults ≡ 0 }
    {
        StdSource {
            inner,
            faults: 0,
            failed: false,
        }
    }

    // Counts a fault.
    fn fail(&mut self) -> Result<usize, Failed>
        ensures err { IsErr result }
        ensures cause { HasCause (Some (2 ^ 64 - 1)) self.old.faults self.new.faults result }
        ensures counted { RoseByOne (Some (2 ^ 64 - 1)) self.old.faults self.new.faults }
        ensures failed { self.new.failed ≡ true }
        ensures same { self.new.inner ≡ self.old.inner }
    {
        self.faults = self.faults.saturating_add(1);
        self.failed = true;
        Err(Failed)
    }
}

impl<R: Read> Source for StdSource<R> {
    ghost left = { λ s. R.remaining s.inner };

    ghost faults = { λ s. s.faults };

    ghost last = { Some (2 ^ 64 - 1) };

    ghost failed = { λ s. s.failed };

    fn read(&mut self, room: &mut [u8]) -> Result<usize, Failed> {
        self.failed = false;
        for _ in 0..u64::MAX {
            match self.inner.read(room) {
                Ok(count) => return Ok(count),
                Err(error) if error.kind() == ErrorKind::Interrupted => {}
                Err(_) => return self.fail(),
            }
        }
        self.fail()
    }
}

/// A writer of std, as standard output. As a sink it tells nothing of its bytes: std's writers may begin to tell theirs, and a
/// sink never does. What std tells stands in the clauses here. A write or a flush that is interrupted is tried again; each other
/// `Err` is counted, up to the last u64.
#[derive(Drop)]
pub struct StdSink<W: Write> {
    inner: W,
    faults: u64,
}

impl<W: Write> StdSink<W> {
    /// A sink over a writer, with no fault so far.
    pub fn new(inner: W) -> StdSink<W>
        ensures inner { result.inner ≡ inner }
        ensures faults { result.faults ≡ 0 }
    {
        StdSink { inner, faults: 0 }
    }

    // Counts a fault.
    fn fail<T>(&mut self) -> Result<T, Failed>
        ensures err { IsErr result }
        ensures cause { HasCause (Some (2 ^ 64 - 1)) self.old.faults self.new.faults result }
        ensures same { self.new.inner ≡ self.old.inner }
    {
        self.faults = self.faults.saturating_add(1);
        Err(Failed)
    }
}

impl<W: Write> Sink for StdSink<W> {
    ghost taken = { λ _. None };

    ghost flushed = { λ _. 0 };

    ghost faults = { λ s. s.faults };

    ghost last = { Some (2 ^ 64 - 1) };

    fn write(&mut self, piece: &[u8]) -> Result<usize, Failed>
        ensures bound { IfOk result (λ count. count ≤ length piece.now) }
        ensures some { 0 < length piece.now → IfOk result (λ count. 0 < count) }
        ensures cause { HasCause (Some (2 ^ 64 - 1)) self.old.faults self.new.faults result }
        ensures written { WriteAppends (W.contents self.old.inner)
            (W.contents self.new.inner) result piece.now }
    {
        for _ in 0..u64::MAX {
            match self.inner.write(piece) {
                Ok(0) if !piece.is_empty() => return self.fail(),
                Ok(count) => return Ok(count),
                Err(error) if error.kind() == ErrorKind::Interrupted => {}
                Err(_) => return self.fail(),
            }
        }
        self.fail()
    }

    fn flush(&mut self) -> Result<(), Failed>
        ensures cause { HasCause (Some (2 ^ 64 - 1)) self.old.faults self.new.faults result }
        ensures kept { Keeps (W.contents self.old.inner) (W.contents self.new.inner) }
    {
        for _ in 0..u64::MAX {
            match self.inner.flush() {
                Ok(()) => return Ok(()),
                Err(error) if error.kind() == ErrorKind::Interrupted => {}
                Err(_) => return self.fail(),
            }
        }
        self.fail()
    }
}
