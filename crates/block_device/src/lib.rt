//! Ranges of bytes over the blocks of a cluster.
//!
//! The bytes of the device are those of all blocks, one block after the other. A command reads or writes a range of them,
//! as a list of steps each of which reads or writes one block. Each step is an operation of a client: where it changes part of a
//! block, what the client's latest read of the block gave, but for the bytes that it changes.
#![tactic(auto)]

mod cutting;
mod latest;
pub mod laws;
mod merging;
mod pieces;
mod queue;
mod refusal;
mod steps;

pub use cutting::{commands, range_fault, step_count};
pub use latest::block_of;
pub use line_forms::DeviceFault;
pub use merging::merge;
pub use pieces::{Blocks, Piece, blocks_of, device_len, piece_of};
pub use queue::Command;
pub use refusal::DeviceRefusal;
pub use steps::{BlockStep, BlockSteps};
pub use wire_forms::DeviceOp;
