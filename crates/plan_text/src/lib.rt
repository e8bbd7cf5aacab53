//! Plans as texts.
//!
//! A plan is the two head lines of a script, and then rules and work in any order, a line each.
#![tactic(auto)]

pub mod laws;
mod marks;
mod plan;
mod seen;

pub use line_forms::{Cause, DeviceFault, ScriptFault, ScriptRefusal};
pub use plan::read_plan;
