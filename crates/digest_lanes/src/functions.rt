//! The functions of FIPS 180-4, 4.1.2, in each lane.
ghost use Rattle.std.specs.Prelude.{◌≡◌, ◌<◌, ◌≤◌, slice_index};
ghost use Rattle.std.specs.Int.{w32, rotate_right};
ghost use Rattle.sha2.specs.Sha256 as Sha;
ghost use Rattle.digest_lanes.specs.Lanes.{HasLanes};

use std::simd::prelude::*;

/// Each lane rotated to the right by this many bits.
#[inline(always)]
fn rotate(x: u32x4, by: u32) -> u32x4
    requires low { 1 ≤ by }
    requires high { by < 32 }
    ensures { HasLanes result (λ j. rotate_right w32 (slice_index x j) by) }
{
    (x >> u32x4::splat(by)) | (x << u32x4::splat(32 - by))
}

// The rotations are nested: a rotation overwrites its operand, so nesting saves copies of `x`.

/// The upper case Σ 0.
#[inline(always)]
pub fn big_sigma0(x: u32x4) -> u32x4
    ensures { HasLanes result (λ j. Sha.big_sigma0 (slice_index x j)) }
{
    rotate(x ^ rotate(x ^ rotate(x, 9), 11), 2)
}

/// The upper case Σ 1.
#[inline(always)]
pub fn big_sigma1(x: u32x4) -> u32x4
    ensures { HasLanes result (λ j. Sha.big_sigma1 (slice_index x j)) }
{
    rotate(x ^ rotate(x ^ rotate(x, 14), 5), 6)
}

/// The lower case σ 0.
#[inline(always)]
pub fn small_sigma0(x: u32x4) -> u32x4
    ensures { HasLanes result (λ j. Sha.small_sigma0 (slice_index x j)) }
{
    rotate(x ^ rotate(x, 11), 7) ^ (x >> u32x4::splat(3))
}

/// The lower case σ 1.
#[inline(always)]
pub fn small_sigma1(x: u32x4) -> u32x4
    ensures { HasLanes result (λ j. Sha.small_sigma1 (slice_index x j)) }
{
    rotate(x ^ rotate(x, 2), 17) ^ (x >> u32x4::splat(10))
}

/// Ch: the bits of `y` where `x` has a 1, and of `z` where it has a 0.
#[inline(always)]
pub fn choice(x: u32x4, y: u32x4, z: u32x4) -> u32x4
    ensures { HasLanes result (λ j. Sha.ch (slice_index x j) (slice_index y j) (slice_index z j)) }
{
    (x & y) ^ (!x & z)
}

/// Maj: each bit that at least two of the three have.
#[inline(always)]
pub fn majority(x: u32x4, y: u32x4, z: u32x4) -> u32x4
    ensures { HasLanes result (λ j. Sha.maj (slice_index x j) (slice_index y j) (slice_index z j)) }
{
    y ^ ((x ^ y) & (y ^ z))
}
