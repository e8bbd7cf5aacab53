//! Loads: the plans that numbers make, and the line that is written of the run of each.
//!
//! The line tells the number, how many operations were done and how many writes spent, and the digest of the history's entries
//! without their places (specs/Soaks). It is one line for all runs whose operations have one outcome, whatever turns their threads
//! took (`laws`). What it is where the operations of a plan are done one after another on plain registers is told by specs/Plain.
#![tactic(auto)]

pub mod laws;
mod load;
mod print;

pub use load::plan_of;
pub use print::print_soak;
