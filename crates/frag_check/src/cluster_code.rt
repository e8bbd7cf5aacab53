ghost use Rattle.std.specs.Prelude.{◌≡◌};
ghost use Rattle.gf_field.specs.Fragments.{IsShape};

use ida_lanes::Code;
use quorum_rules::Config;

/// The code of a cluster: a fragment for each node, and as many of them as its share count give the block.
pub fn code_of(config: &Config) -> Code
    ensures code { result ≡ record { n = config.now.n; m = config.now.m } }
    ensures shape { IsShape config.now.n config.now.m }
{
    match Code::new(config.n(), config.m()) {
        Some(code) => code,
        None => unreachable!(),
    }
}
