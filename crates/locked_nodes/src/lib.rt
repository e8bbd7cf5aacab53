//! Nodes of a run in threads. A node stands in a cell with the journal of what it did, and whoever has the cell lets
//! the node meet an ask. A node whose asks are never held back and that doesn't crash may stand in several cells, each of
//! which serves the blocks of its shard: so asks on different blocks needn't wait for each other.
#![tactic(auto)]

pub mod answers;
pub mod by_number;
pub mod cell;
pub mod cell_shard;
pub mod charter;
pub mod laws;
mod state;

pub use answers::{CellRefusal, Late, Pruning, Told};
pub use by_number::join;
pub use cell::{NodeCell, shards_in};
pub use cell_shard::{CellShard, place_of};
pub use charter::{Charter, Item};
