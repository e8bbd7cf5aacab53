//! The command `soak`, whose line is that of a run in threads: all four clients are at work at once, each ends its 50 operations,
//! and all nodes are asked.

use crate::all_at_once::AllAtOnce;
use crate::runs::written;
use std::alloc::Global;
use std::io;
use std::sync::Wait;
use std::thread::Threads;

// The digest is that of an independent program, which makes the plan and does its operations one after another.
const LINE: &str =
    "soak number=7 done=200 spent=0 sum=24a5e04d7e009dc9cff6c08c95abc7e3b1b26bf0d2a2d8e70b9fad0ba948869a
";

/// Whether a load's line is as it must be, and its clients ran.
pub fn has_run<R: Threads + Wait + Sync>(rt: &R, alloc: Global) -> io::Result<bool> {
    let gate = AllAtOnce::new();
    let sink = written(rt, alloc, "soak 7", &[], &gate)?;
    Ok(sink.taken() == LINE.as_bytes() && gate.has_held(50))
}
