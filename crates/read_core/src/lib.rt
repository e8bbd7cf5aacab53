//! A reader: rounds of asking for versions, and the repair of what too few nodes store.
#![tactic(auto)]

mod candidate;
mod read_end;
mod reader;
mod reading;
mod round;

pub use reader::Reader;
pub use reading::Reading;
pub use run_words::{How, Nodes};
