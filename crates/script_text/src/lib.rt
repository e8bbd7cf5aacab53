//! The grammars of the texts that commands read.
#![tactic(auto)]

pub mod laws;
mod liars;
mod replay;
mod sum;

pub use event_lines::ReplayLine;
pub use line_forms::{Cause, DeviceFault, ScriptFault, ScriptRefusal};
pub use replay::{Replay, ReplayLines, print_replay, read_replay};
pub use sum::read_sum;
