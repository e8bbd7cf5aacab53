//! The digests of four messages (FIPS 180-4, 5.1.1 and 6.2).
ghost use Rattle.std.specs.Prelude.{◌≡◌, ◌<◌, ◌≤◌, ℕ, ◌+◌, ◌*◌, [], ◌∷◌, take, drop, length, slice_index};
ghost use Rattle.sha2.specs.Sha256 as Sha;
ghost use Rattle.digest_lanes.specs.Lanes.{AreVectors, lane};

use crate::compression::compress;
use std::simd::prelude::*;

/// How many bytes a block has.
const BLOCK: usize = 64;

/// The SHA-256 digests of four messages of one length, in the order of the messages.
pub fn digest_four(a: &[u8], b: &[u8], c: &[u8], d: &[u8]) -> [[u8; 32]; 4]
    requires b { length b.now ≡ length a.now }
    requires c { length c.now ≡ length a.now }
    requires d { length d.now ≡ length a.now }
    ensures { result ≡ Sha.sha256 a.now ∷ Sha.sha256 b.now ∷ Sha.sha256 c.now ∷ Sha.sha256 d.now ∷ [] }
{
    let mut state = initial();
    let whole = a.len() / BLOCK;
    let count = (a.len() + 8) / BLOCK + 1;
    'whole: for i in 0..whole {
        let at = BLOCK * i;
        let end = at + BLOCK;
        compress(
            &mut state,
            &a[at..end],
            &b[at..end],
            &c[at..end],
            &d[at..end],
        );
    }
    'padded: for i in whole..count {
        let block_a = padded_block(a, i);
        let block_b = padded_block(b, i);
        let block_c = padded_block(c, i);
        let block_d = padded_block(d, i);
        compress(&mut state, &block_a, &block_b, &block_c, &block_d);
    }
    [
        digest_in(&state, 0),
        digest_in(&state, 1),
        digest_in(&state, 2),
        digest_in(&state, 3),
    ]
}

/// The initial hash value in each lane (FIPS 180-4, 5.3.3).
fn initial() -> [u32x4; 8]
    ensures vectors { AreVectors 8 result }
    ensures each { (j : ℕ) → j < 4 → lane result j ≡ Sha.initial_hash_256 }
{
    [
        u32x4::splat(0x6a09_e667),
        u32x4::splat(0xbb67_ae85),
        u32x4::splat(0x3c6e_f372),
        u32x4::splat(0xa54f_f53a),
        u32x4::splat(0x510e_527f),
        u32x4::splat(0x9b05_688c),
        u32x4::splat(0x1f83_d9ab),
        u32x4::splat(0x5be0_cd19),
    ]
}

/// Block `i` of a message and its padding.
fn padded_block(message: &[u8], i: usize) -> [u8; 64]
    requires { 64 * i + 64 ≤ length (Sha.padded_message message.now) }
    ensures { result ≡ take 64 (drop (i * 64) (Sha.padded_message message.now)) }
{
    let mut block = [0; BLOCK];
    'bytes: for k in 0..BLOCK {
        block[k] = padded_byte(message, BLOCK * i + k);
    }
    block
}

/// Byte `at` of a message and its padding: a 1 bit, zeros, and the message's length in bits.
#[inline(always)]
fn padded_byte(message: &[u8], at: usize) -> u8
    requires { at < length (Sha.padded_message message.now) }
    ensures { result ≡ slice_index (Sha.padded_message message.now) at }
{
    let len = message.len();
    let length_at = BLOCK * ((len + 8) / BLOCK) + 56;
    if at < len {
        message[at]
    } else if at == len {
        0x80
    } else if at < length_at {
        0
    } else {
        (len as u64).wrapping_mul(8).to_be_bytes()[at - length_at]
    }
}

/// The digest in a lane of the hash values.
fn digest_in(state: &[u32x4; 8], j: usize) -> [u8; 32]
    requires lane { j < 4 }
    requires vectors { AreVectors 8 state.now }
    ensures { result ≡ Sha.digest_bytes (lane state.now j) 8 }
{
    let mut digest = [0; 32];
    'words: for i in 0..8usize {
        let word = state[i].to_array()[j];
        digest[4 * i..4 * i + 4].copy_from_slice(&word.to_be_bytes());
    }
    digest
}
