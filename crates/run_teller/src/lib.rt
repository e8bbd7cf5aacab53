//! A run, told line by line: from the lines, the messages and the records of a run to what its picture shows.
//!
//! Who takes part, what the cluster's numbers mean and how lines are shortened is exact. What is told beside a line knows no rule of
//! the protocol: it is read off the lines that take place, the pool and the records.
#![tactic(auto)]

mod answers;
mod caption;
mod columns;
mod phases;
mod run;
mod sent;
mod short;
mod teller;
mod words;

pub use caption::caption_of;
pub use columns::columns_of;
pub use run::Run;
pub use short::{short_line, short_lines};
pub use teller::{Step, Teller};
pub use words::starting_text;
