//! What lying nodes answer, and what lying clients send.
#![tactic(auto)]

mod answers;
mod asks;
mod versions;

pub use answers::false_answer;
pub use asks::{mix_ask, sound_ask};
pub use wire_forms::Rule;
