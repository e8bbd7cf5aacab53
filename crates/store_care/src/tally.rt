ghost use Rattle.std.specs.Prelude.{◌≡◌};
ghost use Rattle.store_care.specs.Tallies.{counted, is_lacking, one_more};

use crate::holding::Holding;

/// Of how many blocks a node holds what. A count stays at the greatest number that a word has.
#[derive(Clone, Copy, Debug, Default, PartialEq, Eq)]
pub struct NodeTally {
    /// What a read of the block gave.
    pub sound: u64,
    /// An older version.
    pub older: u64,
    /// A newer version, of a write that didn't reach enough nodes.
    pub newer: u64,
    /// Another fragment or cross checksum under the same stamp.
    pub wrong: u64,
    /// Of how many that weren't sound it holds the value again.
    pub restored: u64,
}

impl NodeTally {
    /// Counts one block.
    pub fn count(&mut self, holding: Holding)
        ensures { self.new ≡ counted holding self.old }
    {
        match holding {
            Holding::Sound => self.sound = self.sound.saturating_add(1),
            Holding::Older => self.older = self.older.saturating_add(1),
            Holding::Newer => self.newer = self.newer.saturating_add(1),
            Holding::False => self.wrong = self.wrong.saturating_add(1),
        }
    }

    /// Counts one block more that it holds again.
    pub fn count_restored(&mut self)
        ensures { self.new ≡ record self.old { restored = one_more self.old.restored } }
    {
        self.restored = self.restored.saturating_add(1);
    }

    /// Whether a block was counted that wasn't sound.
    pub fn is_lacking(&self) -> bool
        ensures { result ≡ is_lacking self.now }
    {
        self.older > 0 || self.newer > 0 || self.wrong > 0
    }
}
