//! A correct client: idle, or a writer, or a reader.
#![tactic(auto)]

pub mod client;
pub mod heard;
pub mod step;

pub use client::Client;
pub use heard::Heard;
pub use run_words::{How, Nodes, Outcome};
pub use step::Step;
