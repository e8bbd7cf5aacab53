//! The server's side of the handshake that NBD calls fixed newstyle: greeting, the client's flags, its options and the replies to them.
#![tactic(auto)]

mod answer;
mod arrival;
pub mod course;
pub mod ending;
pub mod export;
pub mod handshake;
pub mod laws;
mod query;
mod reply;
mod turn;

pub use ending::{Agreement, HandshakeFault};
pub use export::Export;
pub use handshake::shake_hands;
