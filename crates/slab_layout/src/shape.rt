ghost use Rattle.std.specs.Prelude.{◌≡◌, ◌≤◌, ◌<◌, ◌+◌, ◌^◌};
ghost use Rattle.slab_layout.specs.Shapes.{answer_at, mark_at, head_at, data_at, data_len, slab_len, shape_of};

use quorum_rules::Config;

/// How large a slab is: its blocks, its slots, the nodes of the cluster, and the bytes of a fragment.
#[derive(Clone, Copy)]
pub struct Shape {
    pub blocks: u64,
    pub count: u64,
    pub nodes: u64,
    pub share: u64,
}

impl Shape {
    /// The slab of a node of this cluster: two slots for each block, and 64 more.
    #[tactic(auto, using(crate::proofs::Sizes::slab_is_small))]
    pub fn of(config: &Config) -> Shape
        ensures is { result ≡ shape_of config.now }
        ensures small { slab_len result < 2 ^ 63 }
    {
        let blocks = u64::from(config.blocks());
        Shape {
            blocks,
            count: 2 * blocks + 64,
            nodes: u64::from(config.n()),
            share: u64::from(config.share()),
        }
    }

    /// Where the byte stands that tells whether the node answers for a block.
    pub fn answer_at(self, block: u64) -> u64
        requires block { block < self.blocks }
        requires small { slab_len self < 2 ^ 63 }
        ensures place { result ≡ answer_at self block }
        ensures within { result + 1 ≤ slab_len self }
    {
        4096 + block
    }

    /// Where the mark of a slot stands.
    pub fn mark_at(self, slot: u64) -> u64
        requires slot { slot < self.count }
        requires small { slab_len self < 2 ^ 63 }
        ensures place { result ≡ mark_at self slot }
        ensures within { result + 1 ≤ slab_len self }
    {
        4096 + self.blocks + slot
    }

    /// Where the head of a slot stands.
    pub fn head_at(self, slot: u64) -> u64
        requires slot { slot < self.count }
        requires small { slab_len self < 2 ^ 63 }
        ensures place { result ≡ head_at self slot }
        ensures within { result + 72 ≤ slab_len self }
    {
        4096 + self.blocks + self.count + slot * 72
    }

    /// How many bytes the data of a slot have.
    pub fn data_len(self) -> u64
        requires some { 1 ≤ self.count }
        requires small { slab_len self < 2 ^ 63 }
        ensures { result ≡ data_len self }
    {
        32 * self.nodes + self.share
    }

    /// Where the data of a slot stand.
    pub fn data_at(self, slot: u64) -> u64
        requires slot { slot < self.count }
        requires small { slab_len self < 2 ^ 63 }
        ensures place { result ≡ data_at self slot }
        ensures within { result + data_len self ≤ slab_len self }
    {
        4096 + self.blocks + 73 * self.count + slot * (32 * self.nodes + self.share)
    }

    /// How many bytes the slab has.
    pub fn slab_len(self) -> u64
        requires some { 1 ≤ self.count }
        requires small { slab_len self < 2 ^ 63 }
        ensures { result ≡ slab_len self }
    {
        4096 + self.blocks + 73 * self.count + self.count * (32 * self.nodes + self.share)
    }
}
