//! The blocks of a store, in groups that are looked at in one go.
ghost use Rattle.std.specs.Prelude.{◌≡◌, ◌+◌, ◌≤◌, ◌<◌, ◌^◌};
ghost use Rattle.pasis_store.specs.Progress.{ends_tenth};

use quorum_rules::Config;
use store_care::MOST_BLOCKS;

/// Blocks from the first on.
#[derive(Clone, Copy)]
pub struct Group {
    pub first: u32,
    pub count: u32,
}

/// How many groups a store's blocks make.
pub fn group_count(config: &Config) -> u32 {
    config.blocks().div_ceil(MOST_BLOCKS)
}

/// The group of this number, counted from 0. It has no blocks where there are no more groups than that.
pub fn group_of(config: &Config, number: u32) -> Group
    ensures few { result.count ≤ 64 }
    ensures word { result.first + result.count < 2 ^ 32 }
    ensures there { result.first + result.count ≤ config.now.blocks }
{
    let blocks = config.blocks();
    let first = blocks.min(number.saturating_mul(MOST_BLOCKS));
    let count = MOST_BLOCKS.min(blocks - first);
    Group { first, count }
}

/// Whether a tenth more of so many groups is done with the one of this number, counted from 0.
pub fn ends_tenth(number: u32, groups: u32) -> bool
    requires { number < groups }
    ensures { result ≡ ends_tenth number groups }
{
    let (number, groups) = (u64::from(number), u64::from(groups));
    number * 10 / groups < (number + 1) * 10 / groups
}
