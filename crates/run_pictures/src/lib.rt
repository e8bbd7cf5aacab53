//! Pictures of runs: a replay script is played line by line, told, and drawn.
#![tactic(auto)]

mod replayer;
pub mod status;
mod telling;
pub mod top;

pub use status::{PictureRefusal, PictureStatus};
pub use top::{draw, picture_of};
