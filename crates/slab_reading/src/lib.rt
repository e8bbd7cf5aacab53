//! What is read from a slab: what it tells when it is opened, and a version's data when a reader asks.
#![tactic(auto)]

pub mod answers;
pub mod checking;
pub mod fault;
pub mod opened;
pub mod opening;
pub mod piece;
pub mod run;
pub mod version;

pub use answers::read_answers;
pub use checking::check_slot;
pub use fault::{OpenFault, ReadFault};
pub use opened::Opened;
pub use opening::read_index;
pub use version::read_slot;
