//! Numbers that several threads draw, each number once.
#![tactic(auto)]

pub mod clock;
pub mod refusal;
mod rule;

pub use clock::{Clock, Drawn, Note, Pass, Passes};
pub use refusal::RunRefusal;
