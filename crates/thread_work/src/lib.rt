//! Work that threads do on states of their own, and the gates at which threads may be held.
#![tactic(auto)]

pub mod at_once;
pub mod gate;
pub mod work;

pub use at_once::{Started, each_at_once};
pub use gate::{Edge, Gate, OpenGate};
pub use work::{ThreadWork, each};
