//! Plans: who lies and how, which asks are lost or held, when nodes and clients crash, and what each client does; and the lines
//! that say so, one at a time: rules, and work.
//!
//! A line is a word and the fields that may follow it.
#![tactic(auto)]

pub mod fault;
mod forms;
pub mod job;
pub mod laws;
mod liars;
mod line;
mod numbers;
pub mod plan;
mod reading;
mod word;

pub use fault::{Fault, PlanRules};
pub use job::{Job, Work};
pub use line::PlanLine;
pub use plan::Plan;
pub use reading::read_line;
