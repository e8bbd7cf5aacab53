//! The erasure code by tables of logarithms and by lanes of bytes: the same fragments, and the same
//! block of parts, as `ida_code` gives.
#![tactic(auto)]

mod code;
mod lanes;
mod tables;

pub use code::Code;
pub use cross_sum::{Part, Shares};
pub use lanes::mul_lanes;
pub use tables::table_mul;
