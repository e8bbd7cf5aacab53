use lists::NoMemory;
use quorum_rules::{Config, Edition};
use slab_codec::{HEAD_LEN, HEADER_LEN, Header, head_piece, header_piece, read_head, read_header};
use slab_layout::Head;
use sqlite_disk::digest_of;
use stamp_order::Stamp;
use std::alloc::Global;

/// The key of the checks.
const KEY: u64 = 0x0123_4567_89ab_cdef;

/// How many flips are found in a header: of node 2 of three nodes, of which one may be faulty, with blocks of 8 bytes.
pub fn in_header(alloc: Global) -> Result<usize, NoMemory> {
    let Ok(config) = Config::of(Edition::One, 3, 1, 0, 2, 1, 8, 3) else {
        return Ok(0);
    };
    let header = Header {
        config,
        number: 2,
        key: KEY,
    };
    let mut bytes = header_piece(alloc, &header)?;
    let mut found = 0usize;
    for bit in 0..8 * HEADER_LEN {
        flip(&mut bytes, bit);
        if bytes.len() == HEADER_LEN && read_header(alloc, &bytes)?.is_none() {
            found = found.saturating_add(1);
        }
        flip(&mut bytes, bit);
    }
    Ok(found)
}

/// How many flips are found in a head.
pub fn in_head(alloc: Global) -> Result<usize, NoMemory> {
    let head = Head {
        block: 1,
        stamp: Stamp {
            time: 7,
            client: 2,
            verifier: [9; 32],
        },
        number: 5,
        data_check: 11,
    };
    let mut bytes = head_piece(alloc, KEY, &head)?;
    let mut found = 0usize;
    for bit in 0..8 * HEAD_LEN {
        flip(&mut bytes, bit);
        if bytes.len() == HEAD_LEN && read_head(KEY, &bytes).is_none() {
            found = found.saturating_add(1);
        }
        flip(&mut bytes, bit);
    }
    Ok(found)
}

/// How many flips are found in the data of a slot: three digests and a fragment of 8 bytes.
pub fn in_data(alloc: Global) -> Result<usize, NoMemory> {
    let mut bytes = vec![in alloc; 5u8; 104]?;
    let check = digest_of(KEY, &bytes);
    let mut found = 0usize;
    for bit in 0..832 {
        flip(&mut bytes, bit);
        if digest_of(KEY, &bytes) != check {
            found = found.saturating_add(1);
        }
        flip(&mut bytes, bit);
    }
    Ok(found)
}

// Turns one bit over, counted from the lowest of the first byte.
fn flip(bytes: &mut Vec<u8>, bit: usize) {
    let byte = bit / 8;
    if byte < bytes.len() {
        bytes[byte] ^= 1 << (bit % 8);
    }
}
