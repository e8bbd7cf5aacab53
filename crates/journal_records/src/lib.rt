//! The records of a run in threads, as its clients' desks kept them, and what the lines and the history of a run of a plan have.
//!
//! The lines of all journals are a run, whose last world has the records of its history. These are known without that world: they
//! are the records of the operations that correct clients ended, and of those that they left open (specs/Records), so those of all
//! desks in the order of their starts (`telling`). The contracts of `laws` say so, and that journals of a run have lines.
//!
//! Where the run is one of a plan, each operation of a client that neither lies nor crashed in it stands in the history (specs/Shown), and
//! each line is one that a script may have (specs/Told).
#![tactic(auto)]

pub mod laws;
pub mod telling;

pub use telling::by_start;
