//! A node: what it keeps of each block, and what it answers.
#![tactic(auto)]

mod kept;
pub mod lent;
pub mod node;
mod past;
pub mod prepared;
pub mod undo;

pub use lent::LentVersion;
pub use node::{Node, Stamps};
pub use prepared::Prepared;
pub use undo::UndoRecord;
