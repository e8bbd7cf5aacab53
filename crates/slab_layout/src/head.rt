use stamp_order::Stamp;

/// The head of a slot: whose version it has, when it was accepted, and the check of its data.
#[derive(Clone, Copy)]
pub struct Head {
    /// The block, counted from 0.
    pub block: u32,
    pub stamp: Stamp,
    /// Each head that a node writes has a greater number than those before.
    pub number: u64,
    /// The digest of the data under the slab's key.
    pub data_check: u64,
}
