//! The file below a node: what a read gives, and what a crash may leave.
#![tactic(auto)]

pub mod fault;
pub mod file;

pub use fault::FileFault;
pub use file::SlabFile;
