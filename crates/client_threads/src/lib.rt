//! Plans run in threads, phase by phase.
//!
//! A run has one or several cells for each node, a desk for each client, and one clock (`state`). In a phase each desk has a thread of
//! its own (`threads`); when all have ended, what nodes still hold back comes late (`mail`). Between phases (`between`) one pass meets
//! all others, and the nodes prune (`meeting`, `reads`, `pruning`). At the end the journals are taken out, those of a node's cells in
//! one, and the clock is closed (`closing`).
#![tactic(auto)]

mod between;
mod closing;
mod mail;
mod meeting;
mod opening;
mod pruning;
mod reads;
pub mod run;
mod state;
mod threads;

pub use client_desks::Desk;
pub use run::{Ran, run_by, run_plan};
pub use thread_work::{Edge, Gate, OpenGate};
pub use threads::Phased;
