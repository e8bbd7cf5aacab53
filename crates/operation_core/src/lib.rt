//! An operation of a client: what its present phase asks for, and which answers the phase has counted.
#![tactic(auto)]

mod answers;
mod mailing;
pub mod operation;
pub mod phase_end;
pub mod stage;

pub use operation::Operation;
pub use phase_end::PhaseEnd;
pub use stage::{Stage, Storing};
