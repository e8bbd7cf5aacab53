//! Blocks with the cross checksums of their fragments: made together for a writer, and compared for
//! a reader.
#![tactic(auto)]

mod cluster_code;
mod summed;
mod verdict;

pub use cluster_code::code_of;
pub use ida_lanes::{Code, Part, Shares};
pub use summed::{Summed, summed_block, summed_blocks};
pub use verdict::{Checked, Verdict, checked_block, verdict_of};
