//! The choices of a case.
ghost use Rattle.std.specs.Prelude.{◌<◌};

use rand_core::utils::NextWord;
use rand_pcg::Pcg32;

/// Numbers that a seed makes: one for each word of the generator's stream 54.
#[derive(Drop)]
pub struct Draws {
    words: Pcg32,
}

impl Draws {
    pub fn new(seed: u32) -> Draws {
        Draws {
            words: Pcg32::new(u64::from(seed), 54),
        }
    }

    /// A number below the limit; 0 where that is 0.
    pub fn below(&mut self, limit: u32) -> u32
        ensures { 0 < limit → result < limit }
    {
        self.words.next_word() % limit.max(1)
    }

    /// A place of so many, of which there are fewer than 2^32.
    pub fn place(&mut self, count: usize) -> usize {
        self.below(u32::try_from(count).unwrap_or(u32::MAX)) as usize
    }

    /// A byte.
    pub fn byte(&mut self) -> u8 {
        self.words.next_word().to_be_bytes()[0]
    }
}
