ghost use Rattle.std.specs.Prelude.{◌↔◌, IsTrue};

use cross_sum::Bytes;
use quorum_rules::Config;

/// An operation of a client on one block.
#[derive(Drop)]
pub enum Op {
    Read { block: u32 },
    Write { block: u32, value: Bytes },
}

impl Op {
    ghost use Rattle.wire_forms.specs.Ops.{Fits};

    /// Whether the configuration has the block, and the value the length of its blocks.
    pub fn fits(&self, config: &Config) -> bool
        ensures { IsTrue result ↔ Fits config.now self.now }
    {
        match self {
            Op::Read { block } => *block < config.blocks(),
            Op::Write { block, value } => {
                *block < config.blocks() && value.len() == config.size() as usize
            }
        }
    }
}
