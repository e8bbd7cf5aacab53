ghost use Rattle.std.specs.Prelude.{◌≡◌, IfOk};

use cross_sum::{Bytes, CrossSum};
use lists::NoMemory;
use quorum_rules::Config;
use stamp_order::Stamp;
use std::alloc::Global;

/// The version that each node keeps of each block from the beginning.
#[derive(Drop)]
pub struct First {
    pub stamp: Stamp,
    pub sum: CrossSum,
    pub fragment: Bytes,
}

impl First {
    ghost use Rattle.wire_forms.specs.Firsts.{first_of};

    /// The first version in a cluster: fragments of zeros, and the one stamp of time 0.
    pub fn of(alloc: Global, config: &Config) -> Result<First, NoMemory>
        ensures { IfOk result (λ first. first ≡ first_of config.now) }
    {
        let fragment = Bytes::zeros(alloc, config.share() as usize)?;
        let sum = CrossSum::of_equal(alloc, &fragment, config.n())?;
        let stamp = Stamp {
            time: 0,
            client: 0,
            verifier: sum.verifier(),
        };
        Ok(First {
            stamp,
            sum,
            fragment,
        })
    }
}
