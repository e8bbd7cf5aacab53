//! When the journals of a run in threads follow a plan, wholly or so far; and which blocks nodes prune after a phase (`prunes`).
//!
//! A plan says who lies and crashes, whose asks are lost or held, and what each client does, phase by phase (specs/Asked). A
//! client's journal follows it entry by entry (specs/Clients), a node's between the phases (specs/Nodes), and the whole is a
//! record of these parts (specs/Followed). Journals that follow a plan are those of a run: the contracts of `laws`.
//!
//! While the run goes on, phases are closed one after another (specs/Closed). What is closed stays as it was, since whatever comes
//! later has greater numbers. So whoever runs a plan need only know what one phase did, and that nothing since was numbered below
//! its end.
#![tactic(auto)]

pub mod laws;
mod prunes;

pub use prunes::{BlockStamp, prunings};
