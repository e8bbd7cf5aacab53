//! Which blocks of which node a cell serves.
ghost use Rattle.std.specs.Prelude.{◌↔◌, ◌<◌, ℕ, All, IsTrue};
ghost use Rattle.locked_nodes.specs.CellShards.{IsFor, IsPlace};

/// Which blocks of which node a cell serves: those whose numbers leave the rest `shard` when they are divided by `shards`.
#[derive(Clone, Copy, Debug, PartialEq, Eq)]
pub struct CellShard {
    /// The node's number.
    pub node: u8,
    pub shard: u32,
    /// How many cells the node has.
    pub shards: u32,
}

impl CellShard {
    /// Whether the cell serves this block of this node.
    pub fn serves(&self, node: u8, block: u32) -> bool
        requires some { 0 < self.now.shards }
        ensures { IsTrue result ↔ IsFor self.now node block }
    {
        self.node == node && block % self.shards == self.shard
    }
}

/// The place of the first shard for this block of this node, which one of them is for.
pub fn place_of(cell_shards: &[CellShard], node: u8, block: u32) -> usize
    requires some { All (λ s. 0 < s.shards) cell_shards.now }
    requires there { (place : ℕ) × IsPlace cell_shards.now place node block }
    ensures { IsPlace cell_shards.now result node block }
{
    for place in 0..cell_shards.len() {
        if cell_shards[place].serves(node, block) {
            return place;
        }
    }
    unreachable!()
}
