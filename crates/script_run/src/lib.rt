//! The run of a replay script, its plain lines and its device commands step by step; and the history of a run's last world, with
//! what holds of the history of every run.
#![tactic(auto)]

mod command_queues;
mod history;
mod lines_left;
mod run;

pub use history::{fits_history, history_of, history_of_records, last_history};
pub use run::perform;
pub use script_text::{Replay, ReplayLine};
pub use world_steps::World;
