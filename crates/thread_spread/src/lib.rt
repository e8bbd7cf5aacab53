//! Work on the elements of a slice in threads, while the caller waits.
#![tactic(auto)]

mod spread;

pub use spread::for_each_apart;
