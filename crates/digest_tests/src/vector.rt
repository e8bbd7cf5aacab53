//! A line of three words with one space between two: how often the text is repeated in the message, the text, and the
//! message's digest in base 16.

use cross_sum::{Bytes, CrossSum, Hash};
use lists::{Copied, NoMemory};
use std::alloc::Global;

/// The most strings that are digested at once.
const MOST: u32 = 6;

fn message(alloc: Global, times: u32, text: &str) -> Result<Bytes, NoMemory> {
    let mut bytes = Vec::new(alloc);
    for _ in 0..times {
        bytes.extend_from_slice(text.as_bytes())?;
    }
    Bytes::shared(bytes)
}

fn copies(alloc: Global, message: &Bytes, count: u32) -> Result<Vec<Bytes>, NoMemory> {
    let mut strings = Vec::new(alloc);
    for _ in 0..count {
        strings.push(message.copy()?)?;
    }
    Ok(strings)
}

fn are_all(digests: &[Hash], expected: &[u8]) -> bool {
    for digest in digests {
        if digest.as_slice() != expected {
            return false;
        }
    }
    true
}

fn have_digest(
    alloc: Global,
    message: &Bytes,
    count: u32,
    digest: &[u8],
) -> Result<bool, NoMemory> {
    let strings = copies(alloc, message, count)?;
    let sum = CrossSum::of_fragments(alloc, strings.as_slice())?;
    Ok(are_all(sum.hashes(), digest))
}

/// Whether one message, and up to six that are all this one, have the line's digest.
pub fn is_right(alloc: Global, line: &str) -> Result<bool, NoMemory> {
    let mut words = line.split(' ');
    let (Some(times), Some(text), Some(digest)) = (words.next(), words.next(), words.next()) else {
        return Ok(false);
    };
    let (Ok(times), Ok(digest)) = (times.parse::<u32>(), hex::decode(alloc, digest)) else {
        return Ok(false);
    };
    let message = message(alloc, times, text)?;
    for count in 1..=MOST {
        if !have_digest(alloc, &message, count, digest.as_slice())? {
            return Ok(false);
        }
    }
    Ok(true)
}
