//! Clients of a run in threads: each has a desk, calls nodes in their cells, and keeps the records of its operations.
#![tactic(auto)]

pub mod desk;
pub mod laws;
pub mod recording;

pub use desk::{Desk, Finished};
