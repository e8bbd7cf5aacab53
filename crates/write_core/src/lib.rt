//! A writer: it asks all nodes for times, draws the next one, and stores its value under that time.
#![tactic(auto)]

mod encoding;
mod times;
pub mod writer;

pub use writer::{Writer, Writing};
