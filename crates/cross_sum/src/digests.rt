//! The digests of several strings.
ghost use Rattle.std.specs.Prelude.{◌≡◌, ◌<◌, ◌≤◌, ℕ, [], length, map, take, slice_index_or, IfOk};
ghost use Rattle.cross_sum.specs.Digest.{digest};

use crate::bytes::Bytes;
use crate::sum::{Hash, sha};
use digest_lanes::digest_four;
use lists::NoMemory;
use std::alloc::Global;

/// The digests of the strings, in order. Neighbours of one length are digested together, up to four at a time.
pub fn digests_of(alloc: Global, strings: &[Bytes]) -> Result<Vec<Hash>, NoMemory>
    ensures { IfOk result (λ v. v.items ≡ map digest strings.now) }
{
    let mut digests = Vec::with_capacity(alloc, strings.len())?;
    let mut done = 0;
    'groups: while done < strings.len() {
        let rest = &strings[done..];
        let count = equal_neighbours(rest);
        let group = first_digests(rest, count);
        digests.extend_from_slice(&group[..count])?;
        done += count;
    }
    Ok(digests)
}

/// How many of the strings at the start have one length, counted up to four.
fn equal_neighbours(strings: &[Bytes]) -> usize
    requires { 0 < length strings.now }
    ensures low { 1 ≤ result }
    ensures high { result ≤ 4 }
    ensures within { result ≤ length strings.now }
    ensures equal { (i : ℕ) → i < result
        → length (slice_index_or strings.now i []) ≡ length (slice_index_or strings.now 0 []) }
{
    let len = strings[0].len();
    let mut count = 1;
    'equal: while count < 4 && count < strings.len() && strings[count].len() == len {
        count += 1;
    }
    count
}

/// The digests of the first `count` strings, and any after them. Two or more are digested at once.
fn first_digests(strings: &[Bytes], count: usize) -> [Hash; 4]
    requires low { 1 ≤ count }
    requires high { count ≤ 4 }
    requires within { count ≤ length strings.now }
    requires equal { (i : ℕ) → i < count
        → length (slice_index_or strings.now i []) ≡ length (slice_index_or strings.now 0 []) }
    ensures len { length result ≡ 4 }
    ensures digests { take count result ≡ map digest (take count strings.now) }
{
    let first = strings[0].as_slice();
    if count == 1 {
        return [sha(first); 4];
    }
    // A lane that no string is left for takes the first one again.
    let second = strings[1].as_slice();
    let third = if count > 2 {
        strings[2].as_slice()
    } else {
        first
    };
    let fourth = if count > 3 {
        strings[3].as_slice()
    } else {
        first
    };
    digest_four(first, second, third, fourth)
}
