//! Versions of blocks, as a liar makes them.
ghost use Rattle.std.specs.Prelude.{◌≡◌, ◌<◌, length, IfOk};
ghost use Rattle.gf_field.specs.Fragments.{fragments_of};
ghost use Rattle.stamp_order.specs.declared.Stamp.{Stamp};
ghost use Rattle.protocol.specs.Instance.{setting};
ghost use Rattle.protocol.specs.Setting.{verifier_of};
ghost use Rattle.protocol.specs.Lines.{version_of, flipped};

use cross_sum::{Bytes, Shares};
use frag_check::{Summed, code_of, summed_block};
use lists::{Copied, NoMemory};
use quorum_rules::Config;
use stamp_order::Stamp;
use std::alloc::Global;
use wire_forms::Version;

/// The fragments of a block.
pub fn fragments(alloc: Global, config: &Config, value: &Bytes) -> Result<Shares, NoMemory>
    ensures all { IfOk result (λ shares.
        shares ≡ fragments_of config.now.n config.now.m value.now) }
    ensures count { IfOk result (λ shares. length shares ≡ config.now.n) }
{
    code_of(config).encode(alloc, value)
}

/// A node's version of a block, whose stamp is sound.
pub fn version(
    alloc: Global,
    config: &Config,
    time: u64,
    client: u32,
    node: u8,
    value: &Bytes,
) -> Result<Version, NoMemory>
    requires { node < config.now.n }
    ensures { IfOk result (λ v.
        v ≡ version_of (setting config.now)
        (record {
          time = time;
          client = client;
          verifier = verifier_of (setting config.now)
              value.now;
        }) value.now node) }
{
    let Summed { shares, sum } = summed_block(alloc, &code_of(config), value)?;
    let stamp = Stamp {
        time,
        client,
        verifier: sum.verifier(),
    };
    let fragment = shares.into_vec().swap_remove(usize::from(node));
    Ok(Version {
        stamp,
        sum,
        fragment,
    })
}

/// The fragment with the lowest bit of its first byte changed.
pub fn damaged(alloc: Global, fragment: &Bytes) -> Result<Bytes, NoMemory>
    ensures { IfOk result (λ bytes. bytes ≡ flipped fragment.now) }
{
    let mut bytes = Vec::from_slice(alloc, fragment.as_slice())?;
    if !bytes.is_empty() {
        let first = bytes[0];
        bytes[0] = if first % 2 == 0 { first + 1 } else { first - 1 };
    }
    Bytes::shared(bytes)
}
