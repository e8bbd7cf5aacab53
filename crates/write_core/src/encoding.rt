ghost use Rattle.std.specs.Prelude.{◌≡◌, IfOk, IfSome};
ghost use Rattle.operation_core.specs.Stages.{IsEncoded};
ghost use Rattle.write_core.specs.Made.{IsMadeOf};
ghost use Rattle.write_core.specs.Writers.{drawn_stamp};

use cross_sum::Bytes;
use frag_check::{Summed, code_of, summed_block};
use lists::{Copied, NoMemory};
use operation_core::Storing;
use quorum_rules::Config;
use stamp_order::Stamp;
use std::alloc::Global;

/// Encodes a value that a client stores under a time, by what was made of it ahead, if it was.
pub(crate) fn encoded(
    alloc: Global,
    config: &Config,
    client: u32,
    time: u64,
    value: &Bytes,
    made: &Option<Summed>,
) -> Result<Storing, NoMemory>
    requires made { IfSome made.now (IsMadeOf config.now value.now) }
    ensures value { IfOk result (λ s. s.value ≡ value.now) }
    ensures stamp { IfOk result (λ s. s.stamp ≡ drawn_stamp config.now client time value.now) }
    ensures encoded { IfOk result (λ s. IsEncoded config.now s) }
{
    let Summed { shares, sum } = made_of(alloc, config, value, made)?;
    let stamp = Stamp {
        time,
        client,
        verifier: sum.verifier(),
    };
    Ok(Storing {
        stamp,
        value: value.copy()?,
        shares,
        sum,
    })
}

/// A value's fragments and its cross checksum: copies of those that were made ahead, or else made here.
fn made_of(
    alloc: Global,
    config: &Config,
    value: &Bytes,
    made: &Option<Summed>,
) -> Result<Summed, NoMemory>
    requires made { IfSome made.now (IsMadeOf config.now value.now) }
    ensures { IfOk result (IsMadeOf config.now value.now) }
{
    match made {
        Some(made) => Ok(Summed {
            shares: made.shares.copy()?,
            sum: made.sum.copy()?,
        }),
        None => summed_block(alloc, &code_of(config), value),
    }
}
