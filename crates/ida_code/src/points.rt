ghost use Rattle.std.specs.Prelude.{◌≡◌, ◌≢◌, ◌<◌, length, slice_index, EachIndex, IfOk, IfSome, IfNone};
ghost use Rattle.gf_field.specs.Polynomials.{AreDistinct};
ghost use Rattle.gf_field.specs.Interpolation.{others, weight, product_below};
ghost use Rattle.ida_code.specs.Points.{ArePoints, AreScales, added};

use crate::products::Products;
use cross_sum::NoMemory;
use gf_field::{Gf, add};
use std::alloc::Global;

/// The different numbers of some strings, with what the weights of each number have in common.
#[derive(Drop)]
pub struct Points {
    numbers: Vec<u8>,
    // For each number the inverse of the product of its sums with the others.
    scales: Vec<u8>,
    ghost are_points: { ArePoints numbers.items scales.items },
}

impl Points {
    pub fn of<P: Products>(alloc: Global, numbers: Vec<u8>) -> Result<Points, NoMemory>
        requires { AreDistinct numbers.items }
        ensures { IfOk result (λ p. p.numbers.items ≡ numbers.items) }
    {
        let scales = scales_of::<P>(alloc, numbers.as_slice())?;
        Ok(Points { numbers, scales })
    }

    /// The place of a number.
    pub fn index_of(&self, x: u8) -> Option<usize>
        ensures found { IfSome result
            (λ k. (k < length self.now.numbers.items)
            × (slice_index self.now.numbers.items k ≡ x)) }
        ensures absent { IfNone result
            (EachIndex self.now.numbers.items (λ k. slice_index self.now.numbers.items k ≢ x)) }
    {
        self.numbers.iter().position(|number| *number == x)
    }

    /// The product of the sums of `x` and each number.
    pub fn whole<P: Products>(&self, x: u8) -> Gf
        ensures { result.0 ≡ product_below (length self.now.numbers.items)
            (added self.now.numbers.items x) }
    {
        let mut out = Gf(1);
        for number in &self.numbers {
            out = P::mul(out, add(Gf(x), Gf(*number)));
        }
        out
    }

    /// How much the string of index `k` counts in the one at `x`, where `whole` is the product at `x`.
    pub fn weight<P: Products>(&self, whole: Gf, k: usize, x: u8) -> u8
        requires within { k < length self.now.numbers.items }
        requires whole { whole.0 ≡ product_below (length self.now.numbers.items)
            (added self.now.numbers.items x) }
        requires apart { slice_index self.now.numbers.items k ≢ x }
        ensures { result ≡ weight self.now.numbers.items k x }
    {
        let others = P::mul(whole, P::inv(add(Gf(x), Gf(self.numbers[k]))));
        P::mul(others, Gf(self.scales[k])).0
    }
}

/// The product of `x + r` for each number `r` but that of index `k`.
fn others<P: Products>(numbers: &[u8], k: usize, x: u8) -> Gf
    ensures { result.0 ≡ others numbers.now k x }
{
    let mut out = Gf(1);
    for (l, number) in numbers.iter().enumerate() {
        if l != k {
            out = P::mul(out, add(Gf(x), Gf(*number)));
        }
    }
    out
}

/// For each number the inverse of the product of its sums with the others.
fn scales_of<P: Products>(alloc: Global, numbers: &[u8]) -> Result<Vec<u8>, NoMemory>
    requires { AreDistinct numbers.now }
    ensures { IfOk result (λ v. AreScales numbers.now v.items) }
{
    let mut scales = Vec::with_capacity(alloc, numbers.len())?;
    for k in 0..numbers.len() {
        scales.push(P::inv(others::<P>(numbers, k, numbers[k])).0)?;
    }
    Ok(scales)
}
