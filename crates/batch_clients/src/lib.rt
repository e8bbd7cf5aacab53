//! Block operations that go on in step: each by a client of its own, on a block of its own.
#![tactic(auto)]

mod answers;
mod asking;
pub mod batch;
mod encoding;
mod part;
mod run;
mod turn;

pub use batch::{Answers, Asks, Batch};
