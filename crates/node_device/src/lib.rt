//! A device over nodes: blocks that are read and written by one client on nodes in the same process; and what device commands do in
//! runs, by the run's history: the bytes that a put leaves, and those that a get gives (`laws`).
#![tactic(auto)]

mod asking;
pub mod device;
pub mod laws;

pub use device::NodeDevice;
