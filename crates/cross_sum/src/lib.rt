//! Byte strings, their SHA-256 digests, and cross checksums.
#![tactic(auto)]

mod blocks;
pub mod bytes;
mod digests;
pub mod part;
pub mod sum;

pub use bytes::Bytes;
pub use lists::NoMemory;
pub use part::{Part, Shares};
pub use sum::{CrossSum, Hash, sha};
