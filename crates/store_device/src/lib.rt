//! A device over nodes that keep their versions on disks, and that may fail, be gone, or have been changed by others.
//!
//! A store has a seat for each node of a cluster. Reads and writes of distinct blocks are done in batches: in each phase a node is
//! handed what all of them ask in one call, so that a batch costs a node two syncs and not two for each operation.
#![tactic(auto)]

mod forms;
pub mod laws;
mod phase;
mod remembering;
mod seat;
pub mod seating;
pub mod store;

pub use remembering::MOST_REMEMBERED;
pub use store::{MOST_OPERATIONS, Store};
