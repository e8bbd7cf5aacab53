//! A line of words with one space between two. The first is the SHA-256 of the strings' digests, one after another, in
//! base 16. The second is the place in the bytes where the first string begins. The others are the strings' lengths.
//! Each string begins one byte after the one before it.

use cross_sum::{Bytes, CrossSum};
use lists::NoMemory;
use std::alloc::Global;

/// The strings of these lengths, if the bytes have them all.
fn strings(
    alloc: Global,
    bytes: &[u8],
    start: usize,
    lengths: &str,
) -> Result<Option<Vec<Bytes>>, NoMemory> {
    let mut strings = Vec::new(alloc);
    let mut rest = match bytes.get(start..) {
        Some(rest) => rest,
        None => return Ok(None),
    };
    for word in lengths.split(' ') {
        let Ok(length) = word.parse::<usize>() else {
            return Ok(None);
        };
        let Some(string) = rest.get(..length) else {
            return Ok(None);
        };
        strings.push(Bytes::of(alloc, string)?)?;
        rest = match rest.get(1..) {
            Some(rest) => rest,
            None => return Ok(None),
        };
    }
    Ok(Some(strings))
}

/// Whether the digests of the line's strings have its digest.
pub fn is_right(alloc: Global, bytes: &[u8], line: &str) -> Result<bool, NoMemory> {
    let mut words = line.splitn(3, ' ');
    let (Some(digest), Some(start), Some(lengths)) = (words.next(), words.next(), words.next())
    else {
        return Ok(false);
    };
    let (Ok(digest), Ok(start)) = (hex::decode(alloc, digest), start.parse::<usize>()) else {
        return Ok(false);
    };
    match strings(alloc, bytes, start, lengths)? {
        Some(strings) => {
            let sum = CrossSum::of_fragments(alloc, strings.as_slice())?;
            Ok(sum.verifier().as_slice() == digest.as_slice())
        }
        None => Ok(false),
    }
}
