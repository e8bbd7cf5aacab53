//! Stamps, their order, and bounds.
#![tactic(auto)]

ghost use Rattle.std.specs.Prelude.{◌≡◌, ◌↔◌, IsTrue, true};
ghost use Rattle.stamp_order.specs.Stamps.{has};

/// A stamp: when, by whom and of which value a version was written. Stamps are compared by time, then by client, then by
/// the verifier's bytes from the first on; the derived order is that one.
#[derive(Clone, Copy, Debug, PartialEq, Eq, PartialOrd, Ord)]
pub struct Stamp {
    /// The time that the writer drew, one above a time that it was told; 0 in the first stamp of a block alone.
    pub time: u64,
    /// The writer's number.
    pub client: u32,
    /// The SHA-256 of the cross checksum of the value's fragments.
    pub verifier: [u8; 32],
}

/// Which stamps a read asks for.
#[derive(Clone, Copy, Debug, PartialEq, Eq)]
pub enum Bound {
    /// Every stamp.
    All,
    /// The stamps up to this one.
    AtMost(Stamp),
    /// The stamps below this one.
    Below(Stamp),
}

impl Bound {
    /// Whether the bound has the stamp.
    pub fn has(&self, stamp: &Stamp) -> bool
        ensures { IsTrue result ↔ (has self.now stamp.now ≡ true) }
    {
        match self {
            Bound::All => true,
            Bound::AtMost(most) => stamp.cmp(most).is_le(),
            Bound::Below(limit) => stamp.cmp(limit).is_lt(),
        }
    }
}
