//! A write and a read, byte by byte, in which each call fails once.

use crate::played::{NARROW, Pace, SMALL, play};
use crate::rows::{WRITE_AND_READ, bytes_of, output};
use crate::unmade::Unmade;
use nbd_front::SessionEnd;
use std::alloc::Global;

// How many bytes the three requests have: the write and its data, the read, and the one that leaves.
const WRITE_END: u64 = 30;

const READ_END: u64 = 58;

const INPUT_END: u64 = 86;

// How many bytes the greeting and the first reply have.
const GREETING_LEN: usize = 152;

const REPLY_LEN: usize = 16;

// The calls of the sink: a write for each byte, and a flush after the greeting and after each reply.
const GREETING_FLUSH: u64 = 152;

const FIRST_FLUSH: u64 = 169;

const SECOND_FLUSH: u64 = 190;

// How many bytes are written where a read of this number fails: the replies of the requests that were read before it.
fn written_at_read(call: u64) -> usize {
    match call {
        0..WRITE_END => GREETING_LEN,
        WRITE_END..READ_END => GREETING_LEN + REPLY_LEN,
        _ => GREETING_LEN + REPLY_LEN + 20,
    }
}

// How many bytes are written where a call of this number fails.
fn written_at_write(call: u64) -> u64 {
    match call {
        0..=GREETING_FLUSH => call,
        153..=FIRST_FLUSH => call - 1,
        _ => call.saturating_sub(2),
    }
}

/// Each read fails once: every reply of a whole request is written, and no more.
pub fn each_read(alloc: Global) -> Result<bool, Unmade> {
    let input = bytes_of(alloc, WRITE_AND_READ.input)?;
    let whole = output(alloc, WRITE_AND_READ.replies)?;
    for call in 0..INPUT_END {
        let reads = Pace {
            most: 1,
            failing: Some(call),
        };
        let played = play(alloc, &SMALL, &input, reads, NARROW)?;
        let expected = whole.get(..written_at_read(call));
        if played.ended != Err(SessionEnd::ReadFault) || Some(played.taken.as_slice()) != expected {
            return Ok(false);
        }
    }
    Ok(true)
}

/// Each write and each flush fails once: what was written is a beginning of what would have been.
pub fn each_write(alloc: Global) -> Result<bool, Unmade> {
    let input = bytes_of(alloc, WRITE_AND_READ.input)?;
    let whole = output(alloc, WRITE_AND_READ.replies)?;
    for call in 0..=SECOND_FLUSH {
        let writes = Pace {
            most: 1,
            failing: Some(call),
        };
        let played = play(alloc, &SMALL, &input, NARROW, writes)?;
        let expected = whole.get(..written_at_write(call) as usize);
        if played.ended != Err(SessionEnd::WriteFault)
            || Some(played.taken.as_slice()) != expected
        {
            return Ok(false);
        }
    }
    Ok(true)
}
