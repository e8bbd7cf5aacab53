//! A phase of a run in which each node has a thread of its own, as each desk has: clients ask nodes, and nodes answer clients, by
//! inboxes alone.
#![tactic(auto)]

mod close;
mod open;
pub mod phase;
pub mod run;
mod thread_state;
pub mod worker;

pub use phase::run_mail_phase;
pub use run::run_workers;
