//! Sessions that are written down, byte for byte. The first 28 bytes of a greeting are written, and the 124 zeros after them are
//! added.

use crate::played::{NARROW, Pace, SMALL, WIDE, play};
use crate::unmade::Unmade;
use nbd_front::SessionEnd;
use std::alloc::Global;

/// A session: its input, what is written after the greeting, and how it ends.
#[derive(Clone, Copy)]
pub struct Row {
    pub name: &'static str,
    pub input: &'static str,
    pub replies: &'static str,
    pub ended: Result<(), SessionEnd>,
}

/// The greeting of four bytes, without its zeros.
pub const GREETING: &str = "4e42444d4147494300004202818612530000000000000004 00000005";

/// A write, a read of what was written, and the client leaves.
pub const WRITE_AND_READ: Row = Row {
    name: "a write and a read",
    input: "25609513 0000 0001 0000000000000001 0000000000000001 00000002 0a0b \
            25609513 0000 0000 0000000000000002 0000000000000000 00000004 \
            25609513 0000 0002 0000000000000003 0000000000000000 00000000",
    replies: "67446698 00000000 0000000000000001 67446698 00000000 0000000000000002 000a0b00",
    ended: Ok(()),
};

/// The rows, on two blocks of two bytes.
pub const ROWS: [Row; 12] = [
    WRITE_AND_READ,
    Row {
        name: "a read past the end, and a request that is cut",
        input: "25609513 0000 0000 0000000000000007 0000000000000003 00000002 25609513 0000 0000 0000",
        replies: "67446698 00000016 0000000000000007",
        ended: Err(SessionEnd::CutRequest { at: 28 }),
    },
    Row {
        name: "no magic",
        input: "00000000",
        replies: "",
        ended: Err(SessionEnd::BadMagic { at: 0 }),
    },
    Row {
        name: "a write past the end changes nothing",
        input: "25609513 0000 0001 0000000000000009 0000000000000003 00000002 0102 \
                25609513 0000 0000 0000000000000002 0000000000000000 00000004 \
                25609513 0000 0002 0000000000000003 0000000000000000 00000000",
        replies: "67446698 0000001c 0000000000000009 67446698 00000000 0000000000000002 00000000",
        ended: Ok(()),
    },
    Row {
        name: "no request",
        input: "",
        replies: "",
        ended: Ok(()),
    },
    Row {
        name: "nothing is read after the client has left",
        input: "25609513 0001 0002 0000000000000003 0000000000000000 00000000 00",
        replies: "",
        ended: Ok(()),
    },
    Row {
        name: "a flush has no range",
        input: "25609513 0000 0003 0000000000000004 ffffffffffffffff ffffffff",
        replies: "67446698 00000000 0000000000000004",
        ended: Ok(()),
    },
    Row {
        name: "flags and kinds that aren't served",
        input: "25609513 0001 0001 0000000000000005 0000000000000000 00000002 0102 \
                25609513 0001 0000 0000000000000006 0000000000000000 00000002 \
                25609513 0000 0004 0000000000000007 0000000000000000 00000002 \
                25609513 0000 0000 0000000000000008 0000000000000000 00000002",
        replies: "67446698 00000016 0000000000000005 67446698 00000016 0000000000000006 \
                  67446698 00000016 0000000000000007 67446698 00000000 0000000000000008 0000",
        ended: Ok(()),
    },
    Row {
        name: "ranges of no bytes",
        input: "25609513 0000 0000 000000000000000a 0000000000000004 00000000 \
                25609513 0000 0001 000000000000000b 0000000000000003 00000000 \
                25609513 0000 0000 000000000000000c 0000000000000005 00000000",
        replies: "67446698 00000000 000000000000000a 67446698 00000000 000000000000000b \
                  67446698 00000016 000000000000000c",
        ended: Ok(()),
    },
    Row {
        name: "data that are cut",
        input: "25609513 0000 0001 0000000000000001 0000000000000001 00000002 0a",
        replies: "",
        ended: Err(SessionEnd::CutRequest { at: 0 }),
    },
    Row {
        name: "dropped data that are cut",
        input: "25609513 0000 0003 0000000000000004 0000000000000000 00000000 \
                25609513 0000 0001 0000000000000001 ffffffffffffffff ffffffff 0a",
        replies: "67446698 00000000 0000000000000004",
        ended: Err(SessionEnd::CutRequest { at: 28 }),
    },
    Row {
        name: "part of a magic",
        input: "256095",
        replies: "",
        ended: Err(SessionEnd::CutRequest { at: 0 }),
    },
];

/// The bytes of digits with spaces among them.
pub fn bytes_of(alloc: Global, digits: &str) -> Result<Vec<u8>, Unmade> {
    let mut bytes = Vec::new(alloc);
    for word in digits.split(' ') {
        bytes.extend_from_slice(&hex::decode(alloc, word)?)?;
    }
    Ok(bytes)
}

/// The whole greeting.
pub fn greeting(alloc: Global) -> Result<Vec<u8>, Unmade> {
    let mut bytes = bytes_of(alloc, GREETING)?;
    bytes.extend_from_slice(&[0; 124])?;
    Ok(bytes)
}

/// The greeting and these replies.
pub fn output(alloc: Global, replies: &str) -> Result<Vec<u8>, Unmade> {
    let mut bytes = greeting(alloc)?;
    bytes.extend_from_slice(&bytes_of(alloc, replies)?)?;
    Ok(bytes)
}

fn is_at_pace(alloc: Global, row: &Row, pace: Pace) -> Result<bool, Unmade> {
    let input = bytes_of(alloc, row.input)?;
    let played = play(alloc, &SMALL, &input, pace, pace)?;
    Ok(played.ended == row.ended && played.taken == output(alloc, row.replies)?)
}

/// A row comes out as written, in whole pieces and byte by byte.
pub fn is_as_written(alloc: Global, row: &Row) -> Result<bool, Unmade> {
    Ok(is_at_pace(alloc, row, WIDE)? && is_at_pace(alloc, row, NARROW)?)
}
