//! The node that a slab holds: its state from the bytes, what a crash leaves of it, and how a batch is written.
#![tactic(auto)]

pub mod batch;
pub mod batch_fault;
pub mod clearing;
pub mod laws;
pub mod over;
pub mod renewing;

pub use batch::{Fresh, put_bodies, put_marks, write_batch};
pub use batch_fault::BatchFault;
pub use clearing::{clear_marks, put_answers};
pub use over::write_over;
pub use renewing::renew_blocks;
