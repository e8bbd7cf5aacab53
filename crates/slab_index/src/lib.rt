//! What a node remembers of its slab: for each block the slots of its versions, in order of acceptance.
#![tactic(auto)]

pub mod index;
pub mod kept;
pub mod laws;

pub use index::{SlabIndex, SlotList};
pub use kept::{Kept, greatest_in, keeps, latest_time};
