//! The top call: words, an input that is read to its end, a text that is written whole, and a status; or a session of requests and
//! replies. The commands that run threads, `run`, `trace` and `soak`, are made here too: a plan is run, and what it left is told.
//! The `edge` is the program: words of the command line, standard streams and exit status.
#![tactic(auto)]

mod edge;
pub mod laws;
mod planned;
mod session;
pub mod top;

pub use client_threads::{Edge, Gate, OpenGate};
pub use command_texts::{Answer, Command, Refusal, Serving, Status};
pub use edge::run;
pub use top::{alone, pasis};
