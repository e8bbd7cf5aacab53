//! The history of a run: completed operations with the writes that they read, in the order that makes them operations of plain
//! registers; its text, a report, printed and read back; and whether it is one of plain registers.
#![tactic(auto)]

mod end_line;
mod entry_line;
mod judging;
pub mod laws;
mod numbers;
mod reading;
mod report;
mod spent_line;

pub use history_making::{Counts, Entry, History, Kind, Spent, history_of};
pub use judging::{Flaw, FlawKind, judge};
pub use reading::read;
pub use report::print;
