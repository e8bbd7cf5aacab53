//! A history as data, in the order that its entries stand in, and how it is made of the records of a run.
#![tactic(auto)]

mod counts;
mod draft;
pub mod entry;
pub mod history;
mod making;
pub mod order;
mod sweep;

pub use entry::{Counts, Entry, Kind, Spent};
pub use history::History;
pub use making::history_of;
pub use order::compare_places;
