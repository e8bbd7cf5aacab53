//! What the program that draws makes of a script that `replay` refuses.

use crate::case::Case;
use crate::outcome::{sink_of, source_of};
use run_pictures::draw;
use std::alloc::Global;
use std::io;

// Whether a case is of `replay`, whose input it refuses, can't read or finds too long.
fn is_refused(case: &Case) -> bool {
    let is_replay = matches!(case.words.as_slice(), [word] if word.as_str() == "replay");
    is_replay && case.tells.is_none() && matches!(case.status, 3 | 4 | 8)
}

/// Whether such a case ends otherwise for the program that draws: with another number, another line, or something written.
pub fn is_drawn_otherwise(alloc: Global, case: &Case) -> io::Result<bool> {
    if !is_refused(case) {
        return Ok(false);
    }
    let mut source = source_of(alloc, case.input.as_slice(), case.reads)?;
    let mut sink = sink_of(alloc, case.writes)?;
    let status = draw(alloc, &[], &mut source, &mut sink);
    let line = format!(in alloc; "{status}\n")?;
    Ok(
        status.number() != case.status
            || line.as_bytes() != case.told.as_slice()
            || !sink.taken().is_empty(),
    )
}
