//! The endpoint of a client in a run in threads: its desk, with its transport, the right to take each node's cell out of its vault, or
//! to ask each node by mail. What stands on the desk agrees with what nodes told through the transport, which chits keep as receipts
//! and inboxes as answers that were taken, until a refusal comes.
#![tactic(auto)]

pub mod answered;
pub mod asked;
pub mod endpoint;
mod locks;
pub mod mail;
pub mod shared_cells;
pub mod transport;

pub use answered::{Answered, ClientPlace};
pub use asked::{Asked, NodePlace};
pub use endpoint::Endpoint;
pub use mail::ByMail;
pub use shared_cells::{Cells, SharedCells};
pub use transport::Transport;
