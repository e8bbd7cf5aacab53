//! A client's connection to a block device over a store: a handshake, and then requests that are taken in rounds, whose
//! block operations are done in batches, and are answered in their order.
#![tactic(auto)]

mod answer;
mod blocks;
pub mod connection;
mod input;
pub mod keeper;
pub mod laws;
mod operations;
mod refusing;
mod replies;
mod requests;
mod round;
pub mod session;
mod standing;
mod values;
pub mod waiting;
mod writing;

pub use connection::{ConnectionEnd, serve_connection};
pub use keeper::Keeper;
pub use nbd_front::SessionEnd;
pub use session::{Session, serve};
pub use waiting::Came;
