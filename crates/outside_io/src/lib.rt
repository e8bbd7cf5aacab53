//! What a program reads from and writes to: sources and sinks that may fail, in memory and over the standard streams, and
//! how an input is read to its end and a text is written whole.
#![tactic(auto)]

pub mod calm;
pub mod memory;
pub mod reading;
pub mod sink;
pub mod source;
pub mod standard;
pub mod writing;

pub use calm::{CalmSink, CalmSource};
pub use memory::{Calls, MemorySink, MemorySource};
pub use reading::{LIMIT, ReadRefusal, read_all};
pub use sink::Sink;
pub use source::{Failed, Source};
pub use standard::{StdSink, StdSource};
pub use writing::write_all;
