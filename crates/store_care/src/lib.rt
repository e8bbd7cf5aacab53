//! What keeps a store sound: its blocks are read, what each node holds of them is looked at, nodes are restored, old versions are pruned,
//! and what writes left that were cut off is settled.
#![tactic(auto)]

mod blocks;
mod calls;
pub mod care;
mod counting;
pub mod filling;
pub mod holding;
pub mod laws;
mod newest;
pub mod pruning;
pub mod remembered;
pub mod settling;
pub mod tally;

pub use blocks::MOST_BLOCKS;
pub use care::Care;
pub use filling::{Filled, FilledDisk, fill_disk};
pub use holding::Holding;
pub use pruning::{later_versions, prune_all, prune_due};
pub use remembered::prune_acknowledged;
pub use settling::settle_all;
pub use tally::NodeTally;
