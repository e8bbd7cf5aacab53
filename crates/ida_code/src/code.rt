ghost use Rattle.std.specs.Prelude.{◌≡◌, ℕ, List, IfOk, SomeIff, length};
ghost use Rattle.gf_field.specs.Fragments.{IsShape, Shape, string_len, IsFragments, fragments_of, AreParts, IsDecoded, decoded, AreFragmentsOf};
ghost use Rattle.cross_sum.specs.Parts.{numbers, strings};

use crate::CodeShape;
use crate::shifts::Shifts;
use cross_sum::{Bytes, NoMemory, Part, Shares};
use std::alloc::Global;
use std::marker::Model;

/// A code of `n` fragments, any `m` of which give the block.
#[derive(Drop)]
pub struct Code {
    shape: CodeShape,
}

impl Model for Code {
    ghost use Rattle.gf_field.specs.Fragments.{Shape};

    ghost Value = { Shape };

    ghost view = { λ c. c.shape };
}

impl Code {
    /// The code of `n` fragments of which `m` give the block: none outside `1 <= m <= n <= 16`.
    pub fn new(n: u32, m: u32) -> Option<Code>
        ensures { SomeIff result (IsShape n m) (record { n = n; m = m }) }
    {
        CodeShape::new(n, m).map(|shape| Code { shape })
    }

    /// The `n` fragments of a block, each of its length over `m`, rounded up.
    pub fn encode(&self, alloc: Global, block: &Bytes) -> Result<Shares, NoMemory>
        ensures fragments { IfOk result (λ s. IsFragments self.now.n self.now.m block.now s) }
        ensures value { IfOk result (λ s. s ≡ fragments_of self.now.n self.now.m block.now) }
    {
        self.shape.encode::<Shifts>(alloc, block)
    }

    /// The first `size` bytes of the rows that `m` parts determine.
    ///
    /// The parts have different numbers below `n`, and their strings the length `size` over `m`,
    /// rounded up.
    pub fn decode(&self, alloc: Global, size: usize, parts: &[Part]) -> Result<Bytes, NoMemory>
        requires { AreParts self.now.n self.now.m (string_len self.now.m size) (numbers parts.now)
            (strings parts.now) }
        ensures determined { IfOk result (λ d.
            IsDecoded self.now.m size (numbers parts.now) (strings parts.now) d) }
        ensures value { IfOk result (λ d.
            d ≡ decoded self.now.m size (numbers parts.now) (strings parts.now)) }
        ensures len { IfOk result (λ d. length d ≡ size) }

        // Fragments of a block decode to it.
        ensures inverse { IfOk result (λ d. (D : List ℕ) → length D ≡ size
            → AreFragmentsOf self.now.n self.now.m D (numbers parts.now) (strings parts.now)
            → d ≡ D) }
    {
        self.shape.decode::<Shifts>(alloc, size, parts)
    }
}
