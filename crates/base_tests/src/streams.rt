use cross_sum::Bytes;
use outside_io::{
    CalmSink, CalmSource, Failed, ReadRefusal, StdSink, StdSource, read_all, write_all,
};
use std::alloc::Global;
use std::io;
use std::io::{ErrorKind, Read, Write};

fn input(alloc: Global) -> Result<Vec<u8>, ReadRefusal> {
    let mut source = CalmSource::new(Bytes::of(alloc, b"abcde")?, 2);
    read_all(alloc, &mut source)
}

#[test]
fn a_calm_sink_keeps_what_fits(rt: HostRuntime) -> Result<(), ReadRefusal> {
    let input = input(rt.alloc())?;
    let mut sink = CalmSink::new(rt.alloc(), 3)?;
    let is_taken = write_all(&mut sink, input.as_slice()).is_ok();
    let is_kept = sink.taken() == b"abc".as_slice() && !sink.is_whole();
    assert!(rt; is_taken && is_kept);
    Ok(())
}

// What a call of a stream does.
#[derive(Clone, Copy)]
enum Turn {
    Goes,
    Stops,
    Fails(ErrorKind),
}

const INTERRUPTED: Turn = Turn::Fails(ErrorKind::Interrupted);

const BROKEN: Turn = Turn::Fails(ErrorKind::BrokenPipe);

// A stream whose calls go as its turns say, one after another, and then stop. A read gives one byte, a write takes one.
#[derive(Drop)]
struct Stream {
    turns: &'static [Turn],
    bytes: [u8; 3],
    count: usize,
    flushes: u64,
}

impl Stream {
    fn new(turns: &'static [Turn]) -> Stream {
        Stream {
            turns,
            bytes: [0; 3],
            count: 0,
            flushes: 0,
        }
    }

    // Whether the next call goes.
    fn turn(&mut self) -> io::Result<bool> {
        let Some((turn, rest)) = self.turns.split_first() else {
            return Ok(false);
        };
        self.turns = rest;
        match turn {
            Turn::Goes => Ok(true),
            Turn::Stops => Ok(false),
            Turn::Fails(kind) => Err(io::Error::from(*kind)),
        }
    }
}

impl Read for Stream {
    fn read(&mut self, buf: &mut [u8]) -> io::Result<usize> {
        if !self.turn()? || buf.is_empty() {
            return Ok(0);
        }
        buf[0] = b'a';
        Ok(1)
    }
}

impl Write for Stream {
    fn write(&mut self, buf: &[u8]) -> io::Result<usize> {
        if !self.turn()? || buf.is_empty() {
            return Ok(0);
        }
        if let Some(room) = self.bytes.get_mut(self.count) {
            *room = buf[0];
        }
        self.count = self.count.saturating_add(1);
        Ok(1)
    }

    fn flush(&mut self) -> io::Result<()> {
        let _goes = self.turn()?;
        self.flushes = self.flushes.saturating_add(1);
        Ok(())
    }
}

const READS: &[(&[Turn], Result<usize, ReadRefusal>)] = &[
    (&[Turn::Goes, Turn::Goes], Ok(2)),
    (
        &[
            INTERRUPTED,
            Turn::Goes,
            INTERRUPTED,
            INTERRUPTED,
            Turn::Goes,
        ],
        Ok(2),
    ),
    (&[BROKEN, Turn::Goes], Err(ReadRefusal::ReadFault)),
    (
        &[Turn::Goes, BROKEN, Turn::Goes],
        Err(ReadRefusal::ReadFault),
    ),
    (
        &[INTERRUPTED, BROKEN, Turn::Goes],
        Err(ReadRefusal::ReadFault),
    ),
];

fn read_len(alloc: Global, turns: &'static [Turn]) -> Result<usize, ReadRefusal> {
    let mut source = StdSource::new(Stream::new(turns));
    let input = read_all(alloc, &mut source)?;
    Ok(input.len())
}

#[test]
fn a_std_reader_is_read_again_after_an_interruption_alone(rt: HostRuntime) {
    for (turns, expected) in READS {
        let read = read_len(rt.alloc(), turns);
        assert!(rt; read == *expected, "{read:?} in place of {expected:?}");
    }
}

// Writes of two bytes: what the stream has then, how often it was flushed, and whether all went well.
const WRITES: &[(&[Turn], &[u8], u64, Result<(), Failed>)] = &[
    (&[Turn::Goes, Turn::Goes, Turn::Goes], b"xy", 1, Ok(())),
    (
        &[
            INTERRUPTED,
            Turn::Goes,
            INTERRUPTED,
            Turn::Goes,
            INTERRUPTED,
            Turn::Goes,
        ],
        b"xy",
        1,
        Ok(()),
    ),
    (&[BROKEN, Turn::Goes, Turn::Goes], b"", 0, Err(Failed)),
    (&[Turn::Goes, BROKEN, Turn::Goes], b"x", 0, Err(Failed)),
    (&[Turn::Goes, Turn::Stops, Turn::Goes], b"x", 0, Err(Failed)),
    (&[Turn::Goes, Turn::Goes, BROKEN], b"xy", 0, Err(Failed)),
];

/// Whether two bytes are written as expected, and the stream has these bytes then, and was flushed so often.
fn is_written(
    turns: &'static [Turn],
    bytes: &[u8],
    flushes: u64,
    expected: Result<(), Failed>,
) -> bool {
    let mut stream = Stream::new(turns);
    let written = write_all(&mut StdSink::new(&mut stream), b"xy");
    let has_bytes = stream.count == bytes.len() && stream.bytes.starts_with(bytes);
    written == expected && has_bytes && stream.flushes == flushes
}

#[test]
fn a_std_writer_gets_all_bytes_and_one_flush(rt: HostRuntime) {
    for (turns, bytes, flushes, expected) in WRITES {
        let is_written = is_written(turns, bytes, *flushes, *expected);
        assert!(rt; is_written, "{bytes:?} and {expected:?}");
    }
}
