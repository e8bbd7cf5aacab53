//! How fast groups of strings are digested together, and how fast one by one.

use cross_sum::{Bytes, CrossSum, Hash, sha};
use lists::NoMemory;
use std::alloc::Global;
use std::io;
use std::io::ErrorKind;
use std::time::Instant;

/// How many strings a group has.
const COUNTS: [u32; 5] = [4, 5, 8, 16, 80];

/// How many bytes a string has.
const SIZES: [u32; 2] = [2048, 8192];

/// How often each is measured, in turn. The least time counts.
const TURNS: u32 = 15;

fn no_memory(_: NoMemory) -> io::Error {
    io::Error::from(ErrorKind::OutOfMemory)
}

fn string(alloc: Global, size: u32, seed: u32) -> Result<Bytes, NoMemory> {
    let mut bytes = Vec::new(alloc);
    let mut state = seed;
    for _ in 0..size {
        state = state.wrapping_mul(1_103_515_245).wrapping_add(12345);
        bytes.push((state >> 24) as u8)?;
    }
    Bytes::shared(bytes)
}

fn strings(alloc: Global, count: u32, size: u32) -> Result<Vec<Bytes>, NoMemory> {
    let mut strings = Vec::new(alloc);
    for seed in 0..count {
        strings.push(string(alloc, size, seed)?)?;
    }
    Ok(strings)
}

fn one_by_one(alloc: Global, strings: &[Bytes]) -> Result<CrossSum, NoMemory> {
    let mut digests: Vec<Hash> = Vec::with_capacity(alloc, strings.len())?;
    for string in strings {
        digests.push(sha(string.as_slice()))?;
    }
    CrossSum::of_hashes(alloc, digests.as_slice())
}

fn digested(alloc: Global, strings: &[Bytes], together: bool) -> Result<CrossSum, NoMemory> {
    if together {
        CrossSum::of_fragments(alloc, strings)
    } else {
        one_by_one(alloc, strings)
    }
}

/// The nanoseconds that some rounds take, and a byte of what came out.
fn nanoseconds(
    rt: &HostRuntime,
    strings: &[Bytes],
    together: bool,
    rounds: u32,
) -> io::Result<(u64, u8)> {
    let start = Instant::now(rt)?;
    let mut mixed = 0;
    for _ in 0..rounds {
        let sum = digested(rt.alloc(), strings, together).map_err(no_memory)?;
        mixed ^= sum.verifier()[0];
    }
    let took = start.elapsed(rt)?.as_nanos();
    Ok((u64::try_from(took).unwrap_or(u64::MAX), mixed))
}

fn measure_group(rt: &HostRuntime, count: u32, size: u32) -> io::Result<()> {
    let strings = strings(rt.alloc(), count, size).map_err(no_memory)?;
    let bytes = u64::from(count).saturating_mul(u64::from(size));
    let rounds = (4_000_000 / bytes.max(1)).max(1);
    let rounds = u32::try_from(rounds).unwrap_or(1);
    let mut best = [u64::MAX; 2];
    let mut mixed = 0;
    for _ in 0..TURNS {
        let (alone, first) = nanoseconds(rt, strings.as_slice(), false, rounds)?;
        let (together, second) = nanoseconds(rt, strings.as_slice(), true, rounds)?;
        best = [best[0].min(alone), best[1].min(together)];
        mixed ^= first ^ second;
    }
    let all = bytes.saturating_mul(u64::from(rounds)).saturating_mul(1000);
    let alone = all / best[0].max(1);
    let together = all / best[1].max(1);
    let percent = together.saturating_mul(100) / alone.max(1);
    println!(rt;
        "{count:2} of {size}: {alone} MB/s one by one, {together} together, {percent} percent ({mixed})"
    )
}

/// Measures each group of each size. The number in brackets is 0. It is printed so that no digest is optimized away.
fn measure_all(rt: &HostRuntime) -> io::Result<()> {
    for size in SIZES {
        for count in COUNTS {
            measure_group(rt, count, size)?;
        }
    }
    Ok(())
}

fn number(words: &[String], place: usize) -> Option<u32> {
    words.get(place)?.as_str().parse::<u32>().ok()
}

/// Measures all groups if the only word is `speed`. Three numbers and `together` or another word only digest: a group
/// of so many strings, of so many bytes each, so many times, together or one by one. That is for counting
/// instructions.
pub fn measure(rt: &HostRuntime, words: &[String]) -> io::Result<()> {
    let numbers = (number(words, 0), number(words, 1), number(words, 2));
    let (Some(count), Some(size), Some(times)) = numbers else {
        return measure_all(rt);
    };
    let together = words.len() == 4 && words[3].as_str() == "together";
    let strings = strings(rt.alloc(), count, size).map_err(no_memory)?;
    for _ in 0..times {
        digested(rt.alloc(), strings.as_slice(), together).map_err(no_memory)?;
    }
    Ok(())
}
