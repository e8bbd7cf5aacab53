//! A block device that other makers' clients use: greeting, requests and replies as bytes, and a session of them over a source and
//! a sink.
#![tactic(auto)]

mod answer;
mod array;
mod arrival;
pub mod ending;
mod filling;
pub mod laws;
pub mod reply;
pub mod request;
pub mod server;
pub mod session;
mod turn;

pub use ending::{Served, SessionEnd};
pub use request::RequestKind;
pub use server::{Server, Stopped};
pub use session::serve;
