//! Exactly so many bytes of a source: read into a room, or dropped as they come.
#![tactic(auto)]

pub mod dropping;
pub mod filling;

pub use dropping::drop_bytes;
pub use filling::fill;
