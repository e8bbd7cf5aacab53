//! The file `cluster` of a node's directory: whose it is.
#![tactic(auto)]

pub mod laws;
pub mod membership;
mod reading;
mod writing;

pub use membership::{Membership, MembershipRefusal};
