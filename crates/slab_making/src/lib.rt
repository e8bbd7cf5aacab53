//! How the slab of a node is made.
#![tactic(auto)]

pub mod fault;
pub mod filling;
pub mod laws;
pub mod making;

pub use fault::MakeFault;
pub use making::make_slab;
