//! What a call of the program is asked for, what its command writes, and how it ended: the words of the command line and which
//! command they are those of; the texts that commands write for their inputs; the statuses, their numbers and the lines that tell
//! of them.
//!
//! `replay`, `check` and `sum` run no threads: `text_of`. Of the run of a plan a report, a trace and the line of a load are written.
//! Journals of such a run tell a run of the definitions, whose history is the report. The records of that run are those of the
//! clients' journals, so its lines are merged and played for the trace alone, which shows them as a script (`script`). The types of
//! a line's parts say that its numbers are in their ranges (`forms`), and what it tells says the rest: so it is an event line.
#![tactic(auto)]

mod check;
mod forms;
pub mod laws;
mod load;
mod nbd;
pub mod refusal;
mod replay;
mod report;
mod script;
pub mod status;
mod sum;
pub mod text;
mod trace;
pub mod words;

pub use load::{load_of, load_text};
pub use refusal::Refusal;
pub use report::run_text;
pub use status::Status;
pub use sum::print_sum;
pub use text::{Answer, text_of};
pub use trace::trace_text;
pub use words::{Command, Form, Serving, form_of};
