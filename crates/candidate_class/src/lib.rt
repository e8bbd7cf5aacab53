//! Which answers of a round are valid, and what they show: the pivot, its support, and its class.
#![tactic(auto)]

pub mod answers;
pub mod class;
pub mod stamps;
pub mod validity;

pub use answers::{Answer, pivot, support};
pub use class::{Class, class_of};
pub use stamps::{is_stamp, pivot_of, support_of};
pub use validity::{valid, valid_stamp};
