ghost use Rattle.std.specs.Prelude.{◌≡◌, ℕ, List, IfOk, SomeIff, length};
ghost use Rattle.gf_field.specs.Fragments.{IsShape, Shape, string_len, IsFragments, fragments_of, AreParts, IsDecoded, decoded, AreFragmentsOf};
ghost use Rattle.cross_sum.specs.Parts.{numbers, strings};

use crate::points::Points;
use crate::products::Products;
use crate::rows::{first_numbers, numbers_of, rows_of};
use crate::strings::{push_string_at, strings_of};
use cross_sum::{Bytes, NoMemory, Part, Shares};
use std::alloc::Global;
use std::marker::Model;

/// How many fragments a block has, and how many of them give it back.
#[derive(Drop)]
pub struct CodeShape {
    n: u8,
    m: u8,
}

impl Model for CodeShape {
    ghost use Rattle.gf_field.specs.Fragments.{Shape, IsShape};

    ghost Value = { Shape };

    ghost view = { λ c. record { n = c.n; m = c.m } };

    ghost invariant = { λ c. IsShape c.n c.m };
}

impl CodeShape {
    /// The shape of `n` fragments of which any `m` give the block: none outside `1 <= m <= n <= 16`.
    pub fn new(n: u32, m: u32) -> Option<CodeShape>
        ensures { SomeIff result (IsShape n m) (record { n = n; m = m }) }
    {
        if m < 1 || n < m || 16 < n {
            return None;
        }
        Some(CodeShape {
            n: n as u8,
            m: m as u8,
        })
    }

    /// The fragments of a block: the rows, and the strings at the numbers after theirs.
    pub fn encode<P: Products>(&self, alloc: Global, block: &Bytes) -> Result<Shares, NoMemory>
        ensures fragments { IfOk result (λ s. IsFragments self.now.n self.now.m block.now s) }
        ensures value { IfOk result (λ s. s ≡ fragments_of self.now.n self.now.m block.now) }
    {
        let m = self.m as usize;
        let len = block.len().div_ceil(m);
        let points = Points::of::<P>(alloc, first_numbers(alloc, self.m)?)?;
        let mut shares = rows_of(alloc, block.as_slice(), self.m, len)?;
        for i in self.m..self.n {
            let mut share = Vec::with_capacity(alloc, len)?;
            let rows = &shares.as_slice()[..m];
            push_string_at::<P, Bytes>(&mut share, &points, rows, len, i)?;
            shares.push(Bytes::shared(share)?)?;
        }
        Ok(shares)
    }

    /// The first `size` bytes of the rows that the parts determine.
    pub fn decode<P: Products>(
        &self,
        alloc: Global,
        size: usize,
        parts: &[Part],
    ) -> Result<Bytes, NoMemory>
        requires { AreParts self.now.n self.now.m (string_len self.now.m size) (numbers parts.now)
            (strings parts.now) }
        ensures determined { IfOk result (λ d. IsDecoded self.now.m size (numbers parts.now)
            (strings parts.now) d) }
        ensures value { IfOk result (λ d. d ≡ decoded self.now.m size (numbers parts.now)
            (strings parts.now)) }
        ensures len { IfOk result (λ d. length d ≡ size) }

        // Fragments of a block decode to it.
        ensures inverse { IfOk result (λ d. (D : List ℕ) → length D ≡ size
            → AreFragmentsOf self.now.n self.now.m D (numbers parts.now) (strings parts.now)
            → d ≡ D) }
    {
        let len = size.div_ceil(self.m as usize);
        let points = Points::of::<P>(alloc, numbers_of(alloc, parts)?)?;
        let strings = strings_of(alloc, parts)?;
        let mut out = Vec::with_capacity(alloc, size.saturating_add(self.m as usize))?;
        for k in 0..self.m {
            push_string_at::<P, &[u8]>(&mut out, &points, strings.as_slice(), len, k)?;
        }
        out.truncate(size);
        Bytes::shared(out)
    }
}
