//! What the body of a slot tells.

ghost use Rattle.std.specs.Prelude.{◌≡◌, ◌≤◌, ◌<◌, ◌+◌, ◌*◌, length, IfOk, slice_range};
ghost use Rattle.slot_disk.specs.Slots.{body_len, word_at, long_at, digests, stamp_in, slot_of};

use cross_sum::{Bytes, CrossSum, Hash};
use lists::NoMemory;
use quorum_rules::Config;
use stamp_order::Stamp;
use std::alloc::Global;
use wire_forms::Version;

/// How many bytes stand before the digests.
const HEAD: usize = 49;

/// How many bytes the body of a slot has.
pub fn body_size(config: &Config) -> u64
    ensures size { result ≡ body_len config.now }
    ensures small { result < 131072 }
{
    HEAD as u64 + 32 * u64::from(config.n()) + u64::from(config.share())
}

/// The block of a body.
pub fn block_in(body: &[u8]) -> u32
    requires { 49 ≤ length body.now }
    ensures { result ≡ word_at body.now 1 }
{
    read_word(body, 1)
}

/// The stamp of a body.
pub fn read_stamp(body: &[u8]) -> Stamp
    requires { 49 ≤ length body.now }
    ensures { result ≡ stamp_in body.now }
{
    Stamp {
        time: read_long(body, 5),
        client: read_word(body, 13),
        verifier: read_hash(body, 17),
    }
}

/// The version of a body, in a cluster of so many nodes, read by the node of this number: its fragment is digested now, and where it is
/// the one that its cross checksum tells of, not again.
pub fn read_version(alloc: Global, nodes: u32, number: u8, body: &[u8]) -> Result<Version, NoMemory>
    requires { 49 + 32 * nodes ≤ length body.now }
    ensures { IfOk result (λ version. version ≡ (slot_of nodes body.now).version) }
{
    let fragment = Bytes::of(alloc, &body[HEAD + 32 * nodes as usize..])?;
    let sum = read_digests(alloc, nodes as usize, number, &fragment, &body[HEAD..])?;
    Ok(Version {
        stamp: read_stamp(body),
        sum,
        fragment,
    })
}

fn read_word(body: &[u8], at: usize) -> u32
    requires { at + 4 ≤ length body.now }
    ensures { result ≡ word_at body.now at }
{
    u32::from_be_bytes([body[at], body[at + 1], body[at + 2], body[at + 3]])
}

fn read_long(body: &[u8], at: usize) -> u64
    requires { at + 8 ≤ length body.now }
    ensures { result ≡ long_at body.now at }
{
    u64::from_be_bytes([
        body[at],
        body[at + 1],
        body[at + 2],
        body[at + 3],
        body[at + 4],
        body[at + 5],
        body[at + 6],
        body[at + 7],
    ])
}

fn read_hash(body: &[u8], at: usize) -> Hash
    requires { at + 32 ≤ length body.now }
    ensures { result ≡ slice_range body.now at (at + 32) }
{
    let mut hash = [0; 32];
    hash.copy_from_slice(&body[at..at + 32]);
    hash
}

// Reads so many digests, beside which fragment `number` stands.
#[tactic(auto, using(crate::proofs::lemmas::Codec::digests_more))]
fn read_digests(
    alloc: Global,
    count: usize,
    number: u8,
    fragment: &Bytes,
    bytes: &[u8],
) -> Result<CrossSum, NoMemory>
    requires { 32 * count ≤ length bytes.now }
    ensures { IfOk result (λ sum. sum ≡ digests count bytes.now) }
{
    let mut list = Vec::with_capacity(alloc, count)?;
    for i in 0..count {
        list.push(read_hash(bytes, 32 * i))?;
    }
    CrossSum::of_hashes_beside(alloc, list.as_slice(), number, fragment)
}
