use crate::bytes::Bytes;
use lists::{Copied, ItemList, NoMemory};

/// Fragments of a block, one for each number from 0 on.
pub type Shares = ItemList<Bytes>;

/// A fragment with its number.
#[derive(Drop)]
pub struct Part {
    /// Which fragment of its block this is, from 0 on.
    pub number: u8,
    /// The fragment.
    pub bytes: Bytes,
}

impl Copied for Part {
    fn copy(&self) -> Result<Part, NoMemory> {
        Ok(Part {
            number: self.number,
            bytes: self.bytes.copy()?,
        })
    }
}
