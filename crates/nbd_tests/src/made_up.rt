//! Streams of requests that are made up, in pieces of many sizes, and cut anywhere.

use crate::plain::answers_of;
use crate::played::{Cluster, Pace, play};
use crate::unmade::Unmade;
use rand_core::utils::NextWord;
use rand_pcg::Pcg32;
use std::alloc::Global;

/// A cluster, and the seed of its streams.
#[derive(Clone, Copy)]
pub struct Stream {
    pub name: &'static str,
    pub cluster: Cluster,
    pub seed: u64,
}

pub const STREAMS: [Stream; 3] = [
    Stream {
        name: "made up requests to two blocks of two bytes",
        cluster: [5, 1, 1, 3, 2, 2, 2],
        seed: 1,
    },
    Stream {
        name: "made up requests to four blocks of three bytes",
        cluster: [4, 1, 0, 2, 1, 3, 4],
        seed: 2,
    },
    Stream {
        name: "made up requests to one block of seven bytes",
        cluster: [8, 1, 1, 4, 3, 7, 1],
        seed: 3,
    },
];

// How many streams are made of a seed, and the requests of each.
const SESSIONS: u32 = 12;

const REQUESTS: u32 = 12;

// A number below the limit.
fn below(random: &mut Pcg32, limit: u32) -> u32 {
    random.next_word() % limit.max(1)
}

// One in sixty is no request, one in ten has a flag, and one in fifty leaves.
fn push_request(stream: &mut Vec<u8>, random: &mut Pcg32, size: u32) -> Result<(), Unmade> {
    let magic: [u8; 4] = if below(random, 60) == 0 {
        [0x25, 0x60, 0x95, 0x14]
    } else {
        [0x25, 0x60, 0x95, 0x13]
    };
    let kind = match below(random, 50) {
        0 => 2,
        1..20 => 0,
        20..40 => 1,
        40..45 => 3,
        _ => 4,
    };
    let flags = u8::from(below(random, 10) == 0);
    let len = below(random, size.saturating_add(2));
    let offset = below(random, size.saturating_add(2));
    stream.extend_from_slice(&magic)?;
    stream.extend_from_slice(&[0, flags, 0, kind])?;
    for _ in 0..8 {
        stream.extend_from_slice(&[random.next_word().to_be_bytes()[0]])?;
    }
    stream.extend_from_slice(&u64::from(offset).to_be_bytes())?;
    stream.extend_from_slice(&len.to_be_bytes())?;
    if kind == 1 {
        for _ in 0..len {
            stream.extend_from_slice(&[random.next_word().to_be_bytes()[0]])?;
        }
    }
    Ok(())
}

fn is_one_as_an_array(
    alloc: Global,
    cluster: &Cluster,
    random: &mut Pcg32,
) -> Result<bool, Unmade> {
    let [.., size, blocks] = *cluster;
    let bytes = size.min(4096) * blocks.min(4096);
    let mut stream = Vec::new(alloc);
    for _ in 0..REQUESTS {
        push_request(&mut stream, random, bytes)?;
    }
    let cut = below(random, (stream.len() as u64).min(1 << 30) as u32 + 1) as usize;
    let input = stream.get(..cut).unwrap_or(&[]);
    let pace = Pace {
        most: 1 + below(random, 40) as usize,
        failing: None,
    };
    let played = play(alloc, cluster, input, pace, pace)?;
    let plain = answers_of(alloc, bytes as usize, input)?;
    Ok(played.ended == plain.ended && played.taken.get(152..) == Some(plain.replies.as_slice()))
}

/// The replies to each stream are those that a plain array of bytes gives.
pub fn is_as_an_array(alloc: Global, stream: &Stream) -> Result<bool, Unmade> {
    let mut random = Pcg32::new(stream.seed, 54);
    for _ in 0..SESSIONS {
        if !is_one_as_an_array(alloc, &stream.cluster, &mut random)? {
            return Ok(false);
        }
    }
    Ok(true)
}
