//! The world of a run: every message that was sent, what nodes and clients do, and the records of operations. Each line of a
//! script makes of it what the model's definitions say, or is refused and changes nothing.
#![tactic(auto)]

mod actors;
pub mod event;
mod fault;
pub mod laws;
mod play;
pub mod refusal;
pub mod world;

pub use event::Event;
pub use refusal::StepRefusal;
pub use run_words::{Accepted, How, Line, Nodes, Outcome, Record, StepFault};
pub use world::World;
