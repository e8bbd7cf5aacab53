//! What is written into a slab, and what is read from it: its header, heads and data.
#![tactic(auto)]

pub mod data;
pub mod head;
pub mod header;
mod numbers;

pub use data::{data_piece, read_version};
pub use head::{HEAD_LEN, head_piece, read_head};
pub use header::{HEADER_LEN, Header, header_piece, read_header};
