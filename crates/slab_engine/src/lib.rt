//! A node on a slab: it answers asks, keeps versions in slots that are written in place, and drops those that are
//! pruned.
#![tactic(auto)]

pub mod batch;
pub mod free;
pub mod identity;
pub mod laws;
pub mod leaving;
pub mod plan;
pub mod prune;
pub mod refusal;
pub mod reply;

pub use identity::Identity;
pub use leaving::{Leaving, Prune};
pub use prune::{greatest_stamp, stays};
pub use refusal::SlabRefusal;
pub use reply::{Replies, reply_all};
