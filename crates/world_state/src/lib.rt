//! All that there is at one moment of a run: every message that was sent, what nodes and clients do, and the records of
//! operations. Each single deed makes of it what the model's definitions say, or finds no memory and changes nothing.
#![tactic(auto)]

mod answer_effect;
mod block_use;
mod client_slot;
mod clients;
mod lying;
mod node_slot;
mod nodes;
pub mod state;
mod views;

pub use state::State;
