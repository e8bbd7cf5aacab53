//! What the nodes and clients of a run in threads put down, and the one run that comes of it.
//!
//! A node acts when an ask comes, when a held ask comes late, and when it prunes; a client starts, crashes and calls. One
//! function says what each does (specs/Acts, specs/Desks), and a journal is kept where each entry is what it says. The lines of
//! all entries by number are a run (specs/Merging), of which every law of runs holds: the contracts of `laws`.
#![tactic(auto)]

pub mod desk;
pub mod laws;
pub mod node;
pub mod whole;

pub use desk::{DeskAct, DeskEntries, DeskEntry, DeskJournal, DeskJournals, Way};
pub use node::{Answer, Nature, NodeAct, NodeEntry, NodeJournal, NodeJournals, Silence};
pub use whole::Journals;
