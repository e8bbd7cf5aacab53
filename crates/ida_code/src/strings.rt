ghost use Rattle.std.specs.Prelude.{◌≡◌, ◌≢◌, ◌<◌, ◌++◌, length, map, replicate, slice_index, EachIndex, All, OnOk, IfOk};
ghost use Rattle.gf_field.specs.Fragments.{string_at, HaveElements};
ghost use Rattle.cross_sum.specs.Parts.{strings};
ghost use Rattle.ida_code.specs.Lent.{lent};

use crate::points::Points;
use crate::products::Products;
use crate::rows::push_zeros;
use cross_sum::{Bytes, NoMemory, Part};
use std::alloc::Global;

/// A string of bytes, owned or lent.
pub trait ByteString {
    ghost use Rattle.std.specs.Prelude.{List, ℕ};

    ghost string: { Self → List ℕ };

    fn bytes(&self) -> &[u8]
        ensures { result.now ≡ string self.now };
}

impl ByteString for Bytes {
    ghost string = { λ b. b };

    fn bytes(&self) -> &[u8] {
        self.as_slice()
    }
}

impl ByteString for &[u8] {
    ghost string = { λ b. b.now };

    fn bytes(&self) -> &[u8] {
        self
    }
}

/// The strings of parts.
pub fn strings_of(alloc: Global, parts: &[Part]) -> Result<Vec<&[u8]>, NoMemory>
    ensures value { IfOk result (λ v. lent v.items ≡ strings parts.now) }
    ensures elements { IfOk result (λ v. HaveElements (lent v.items)) }
{
    let mut strings = Vec::with_capacity(alloc, parts.len())?;
    for part in parts {
        strings.push(part.bytes.as_slice())?;
    }
    Ok(strings)
}

/// Adds to zeros the string at `x`, as the weighted sum of the strings at other numbers.
fn add_weighted<P: Products, S: ByteString>(out: &mut [u8], points: &Points, strings: &[S], x: u8)
    requires count { length points.now.numbers.items ≡ length strings.now }
    requires lengths { All (λ s. length (S.string s) ≡ length out.old) strings.now }
    requires apart { EachIndex points.now.numbers.items
        (λ k. slice_index points.now.numbers.items k ≢ x) }
    requires zeros { out.old ≡ replicate (length out.old) 0 }
    ensures { out.new ≡ string_at (length out.old) points.now.numbers.items
        (map S.string strings.now) x }
{
    let whole = points.whole::<P>(x);
    for (k, string) in strings.iter().enumerate() {
        P::add_multiple(out, points.weight::<P>(whole, k, x), string.bytes());
    }
}

/// Puts the string at `x` at the end: a copy where there is a string of that number.
pub fn push_string_at<P: Products, S: ByteString>(
    out: &mut Vec<u8>,
    points: &Points,
    strings: &[S],
    len: usize,
    x: u8,
) -> Result<(), NoMemory>
    requires count { length points.now.numbers.items ≡ length strings.now }
    requires lengths { All (λ s. length (S.string s) ≡ len) strings.now }
    requires elements { HaveElements (map S.string strings.now) }
    ensures { OnOk result (out.new.items ≡ out.old.items ++ string_at len points.now.numbers.items
        (map S.string strings.now) x) }
{
    match points.index_of(x) {
        Some(k) => out.extend_from_slice(strings[k].bytes())?,
        None => {
            let at = out.len();
            push_zeros(out, len)?;
            add_weighted::<P, S>(&mut out[at..], points, strings, x);
        }
    }
    Ok(())
}
