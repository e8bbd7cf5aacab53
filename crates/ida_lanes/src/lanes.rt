ghost use Rattle.std.specs.Prelude.{◌≡◌, ◌<◌, ◌≤◌, ℕ, length, slice_index, EachIndex};
ghost use Rattle.gf_field.specs.Field.{product, total};
ghost use Rattle.ida_lanes.specs.Multiples.{AreLow, AreHigh, AreMultiples};

use crate::tables::{table_inv, table_mul};
use gf_field::Gf;
use ida_code::Products;
use std::simd::prelude::*;

/// How many bytes are multiplied at once.
const LANES: usize = 32;

/// Products by logarithms, and by lanes for a string.
pub struct Lanes;

impl Products for Lanes {
    fn mul(a: Gf, b: Gf) -> Gf {
        table_mul(a, b)
    }

    fn inv(a: Gf) -> Gf {
        table_inv(a)
    }

    fn add_multiple(out: &mut [u8], element: u8, string: &[u8]) {
        let multiples = Multiples::of(element);
        let mut at = 0;
        'lanes: while LANES <= out.len() - at {
            add_lanes(&mut out[at..], &multiples, &string[at..]);
            at += LANES;
        }
        add_rest(&mut out[at..], &multiples, &string[at..]);
    }
}

/// The product of `c` and each lane.
pub fn mul_lanes(c: Gf, lanes: Simd<u8, 32>) -> Simd<u8, 32>
    ensures { AreMultiples c.0 lanes result }
{
    Multiples::of(c.0).times(lanes)
}

/// The products of an element and each half of a byte, each table twice over.
#[derive(Clone, Copy)]
struct Multiples {
    element: u8,
    low: u8x32,
    high: u8x32,
    ghost low_half: { AreLow element low },
    ghost high_half: { AreHigh element high },
}

impl Multiples {
    fn of(element: u8) -> Multiples
        ensures { result.element ≡ element }
    {
        Multiples {
            element,
            low: u8x32::from_array(half(element)),
            high: u8x32::from_array(high_half(element)),
        }
    }

    /// The product of the element and each lane.
    fn times(&self, lanes: u8x32) -> u8x32
        ensures { AreMultiples self.now.element lanes result }
    {
        let low = lanes & u8x32::splat(15);
        let high = lanes >> u8x32::splat(4);
        self.low.swizzle_dyn_within::<16>(low) ^ self.high.swizzle_dyn_within::<16>(high)
    }
}

/// Twice an element: the product of it and `x`.
fn double(x: u8) -> u8
    ensures { result ≡ product 2 x }
{
    if x < 128 {
        2 * x
    } else {
        (2 * (x - 128)) ^ 0x1D
    }
}

/// The products of an element and the numbers below 16, twice over.
fn half(element: u8) -> [u8; 32]
    ensures { AreLow element result }
{
    let mut out = [0; 32];
    for i in 1..16usize {
        out[i] = if i % 2 == 1 {
            out[i - 1] ^ element
        } else {
            double(out[i / 2])
        };
    }
    for i in 0..16usize {
        out[16 + i] = out[i];
    }
    out
}

/// The products of an element and the multiples of 16, twice over.
fn high_half(element: u8) -> [u8; 32]
    ensures { AreHigh element result }
{
    half(double(double(double(double(element)))))
}

/// Adds the multiples of the first lanes of a string.
fn add_lanes(out: &mut [u8], multiples: &Multiples, string: &[u8])
    requires out { 32 ≤ length out.old }
    requires string { 32 ≤ length string.now }
    ensures lanes { (j : ℕ) → j < 32 → slice_index out.new j
        ≡ total (slice_index out.old j) (product multiples.now.element (slice_index string.now j)) }
    ensures rest { (j : ℕ) → 32 ≤ j → slice_index out.new j ≡ slice_index out.old j }
{
    let sum = u8x32::from_slice(out) ^ multiples.times(u8x32::from_slice(string));
    sum.copy_to_slice(out);
}

/// Adds the multiples of a string that is shorter than the lanes.
fn add_rest(out: &mut [u8], multiples: &Multiples, string: &[u8])
    requires same { length string.now ≡ length out.old }
    requires short { length string.now < 32 }
    ensures { EachIndex out.new (λ j. slice_index out.new j
        ≡ total (slice_index out.old j)
        (product multiples.now.element (slice_index string.now j))) }
{
    let mut front = [0; LANES];
    front[..string.len()].copy_from_slice(string);
    let products = multiples.times(u8x32::from_array(front)).to_array();
    for j in 0..out.len() {
        out[j] ^= products[j];
    }
}
