//! A phase of a run in threads: cells come into vaults, each desk's thread does its duty, a courier brings what cells hold back, and
//! the vaults are closed again; and the journals that cells and desks make, phase after phase.
//!
//! A run has a cell for each node and a desk for each client (specs/Standing). Whoever runs them knows what one phase did to each cell
//! and each desk; the contracts of `laws` tell what that says of their journals: what was closed stays closed, a phase more is closed,
//! and at the end the journals are those of a run of the plan.
#![tactic(auto)]

mod close;
mod courier;
pub mod duty;
pub mod laws;
mod open;
pub mod phase;
mod portions;
pub mod refusal;
mod thread_state;

pub use duty::{Duty, Seat};
pub use phase::{Left, run_phase};
pub use portions::{Portions, deal, empty_portions};
pub use refusal::first_refusal;
