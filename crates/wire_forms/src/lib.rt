//! What clients and nodes say to each other.
#![tactic(auto)]

pub mod copies;
pub mod device;
pub mod first;
pub mod liars;
pub mod message;
pub mod op;
pub mod rule;
mod same;

pub use device::DeviceOp;
pub use first::First;
pub use liars::Liars;
pub use message::{Ask, Body, Mail, Message, Reason, Reply, Request, Tag, Version};
pub use op::Op;
pub use rule::Rule;
