//! The words in which runs are told: lines, why one is refused, and how operations end.
#![tactic(auto)]

pub mod boxed_message;
pub mod line;
pub mod outcome;
pub mod record;

pub use boxed_message::BoxedMessage;
pub use line::{Line, StepFault};
pub use outcome::{How, Nodes, Outcome};
pub use record::{Accepted, Record};
