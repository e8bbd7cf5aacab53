//! A node's versions on a disk, in slots that a crash leaves whole or not at all, and nodes that are opened again from their
//! disks.
#![tactic(auto)]

mod add;
mod batch;
mod calm;
mod compact;
pub mod compact_fault;
mod fault;
mod keep;
pub mod laws;
mod prune;
pub mod refusal;
mod replay;
mod start;
pub mod stored;

pub use compact_fault::{CompactFault, CompactRefusal};
pub use prune::Prune;
pub use refusal::StoreRefusal;
pub use stored::{JournalLen, OpenRefusal, Replies, StoredNode};
