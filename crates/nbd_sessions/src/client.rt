//! A client at the other end of a session, as the source of what it sends and the sink of what it hears. Both tell nothing of their
//! bytes, and count no faults: they only behave as a client does.
ghost use Rattle.std.specs.Prelude.{Some, None};

use outside_io::{Failed, Sink, Source};
use std::alloc::Global;
use std::cell::Cell;

/// A client sends the bytes up to a place only when it has heard so many.
#[derive(Clone, Copy)]
pub struct Turn {
    pub sent: usize,
    pub heard: usize,
}

/// What a client sends. It would wait for good where the session reads on before it has flushed what the client waits for: such a
/// read fails. Its end, too, comes only when all was flushed.
#[derive(Drop)]
pub struct Sending<'a> {
    input: &'a [u8],
    turns: &'a [Turn],
    place: usize,
    most: usize,
    heard: &'a Cell<usize>,
    /// Whether the last read failed.
    failed: bool,
}

impl<'a> Sending<'a> {
    /// At most `most` bytes of the input at once.
    pub fn new(
        input: &'a [u8],
        turns: &'a [Turn],
        most: usize,
        heard: &'a Cell<usize>,
    ) -> Sending<'a> {
        Sending {
            input,
            turns,
            place: 0,
            most,
            heard,
            failed: false,
        }
    }

    // Up to where the client sends by now; none where it waits.
    fn end(&self) -> Option<usize> {
        for turn in self.turns {
            if self.heard.get() < turn.heard {
                return None;
            }
            if self.place < turn.sent {
                return Some(turn.sent);
            }
        }
        Some(self.input.len())
    }
}

impl<'a> Source for Sending<'a> {
    ghost left = { λ _. None };

    ghost faults = { λ _. 0 };

    ghost last = { Some 0 };

    ghost failed = { λ s. s.failed };

    fn read(&mut self, room: &mut [u8]) -> Result<usize, Failed> {
        let Some(end) = self.end() else {
            self.failed = true;
            return Err(Failed);
        };
        self.failed = false;
        let left = self.input.get(self.place..end).unwrap_or(&[]);
        let count = left.len().min(room.len()).min(self.most);
        room[..count].copy_from_slice(&left[..count]);
        self.place = self.place.saturating_add(count);
        Ok(count)
    }
}

/// What a client hears. What was not flushed has not reached it.
#[derive(Drop)]
pub struct Hearing<'a> {
    bytes: Vec<u8>,
    most: usize,
    heard: &'a Cell<usize>,
}

impl<'a> Hearing<'a> {
    /// It takes at most `most` bytes at once, and at least one.
    pub fn new(alloc: Global, most: usize, heard: &'a Cell<usize>) -> Hearing<'a> {
        Hearing {
            bytes: Vec::new(alloc),
            most,
            heard,
        }
    }

    /// The bytes that it took.
    pub fn bytes(&self) -> &[u8] {
        self.bytes.as_slice()
    }
}

impl<'a> Sink for Hearing<'a> {
    ghost taken = { λ _. None };

    ghost flushed = { λ _. 0 };

    ghost faults = { λ _. 0 };

    ghost last = { Some 0 };

    fn write(&mut self, piece: &[u8]) -> Result<usize, Failed> {
        let count = piece.len().min(self.most.max(1));
        match self.bytes.extend_from_slice(&piece[..count]) {
            Ok(()) => Ok(count),
            Err(_) => Err(Failed),
        }
    }

    fn flush(&mut self) -> Result<(), Failed> {
        self.heard.set(self.bytes.len());
        Ok(())
    }
}
