//! A file in memory for tests. It records each of its steps, so what a crash leaves after any of them is data.
#![tactic(auto)]

pub mod crash;
pub mod memory;
pub mod step;

pub use crash::Fate;
pub use memory::MemoryFile;
pub use step::Step;
