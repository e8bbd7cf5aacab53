//! The texts of messages: printed, read, and told apart from all that is none.
#![tactic(auto)]

pub mod laws;
mod piece;
mod printing;
mod reading;
pub mod refusal;
mod word;

pub use printing::print;
pub use reading::read;
pub use refusal::TextRefusal;
