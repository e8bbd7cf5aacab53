//! Slots on a disk: their bytes, how they are written so that a crash leaves the first few whole, and how the gate behind them is
//! closed.
#![tactic(auto)]

pub mod body;
pub mod close;
pub mod laws;
pub mod piece;
pub mod slots;
