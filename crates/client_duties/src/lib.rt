//! What a plan asks of each client and of each node, as data, and what the thread of each client does by it in a run.
//!
//! A correct client gets its steps, phase by phase, how many of its asks to each node are lost or held back, and when it
//! crashes. A lying client gets the messages that it sends. `tasks_of` makes all of them, by ascending client. Then a correct
//! client does its steps, and a lying one sends its messages.
#![tactic(auto)]

pub mod conduct;
pub mod correct_client;
pub mod liar;
mod mail;
mod named;
mod phases;
mod steps;
pub mod task;
mod turns;
mod ways;
pub mod work;

pub use conduct::{crash_after, nature_of};
pub use correct_client::CorrectClient;
pub use liar::Liar;
pub use task::{ClientTask, Task, Ways, tasks_of};
pub use work::ClientDuty;
