//! The words of `pasis_store`: what they ask for, why they are refused, and what the program says and ends with.
#![tactic(auto)]

pub mod down;
pub mod laws;
pub mod lines;
pub mod notice;
pub mod refusal;
pub mod status;
pub mod words;

pub use down::Down;
pub use lines::{Found, JournalBytes, NodeLine, ScrubLine, write_nodes, write_scrubbed};
pub use notice::Notice;
pub use refusal::{BadWords, Refusal};
pub use status::Status;
pub use words::{Asked, Command, read_words};
