//! The event lines of a replay script, one line at a time.
//!
//! An event line is a word and what follows it: fields of a form that the word has, or the text of a
//! message.
#![tactic(auto)]

mod event;
mod forms;
pub mod laws;
mod line;
mod message;
mod numbers;
mod printing;
mod word;

pub use event::read_event;
pub use line::ReplayLine;
pub use numbers::{client_and_block, client_and_u64, is_block, is_client, is_node};
pub use printing::add_event;
