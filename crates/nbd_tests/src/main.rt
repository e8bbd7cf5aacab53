//! Sessions of a served block device, and what must come of them. Rows, each in pieces of several sizes; what nodes hold after
//! requests; a row in which each read and each write fails once; and streams of requests that are made up and cut anywhere, against a plain array of bytes.
//! Writes a line for each.
#![tactic(auto)]

mod faults;
mod holding;
mod made_up;
mod plain;
mod played;
mod rows;
mod unmade;

use std::io;
use unmade::Unmade;

// What came of it: as it must be, otherwise, or the session could not be made.
fn tell(rt: &HostRuntime, what: &str, outcome: Result<bool, Unmade>) -> io::Result<()> {
    match outcome {
        Ok(true) => println!(rt; "{what}: ok"),
        Ok(false) => println!(rt; "{what}: otherwise"),
        Err(Unmade) => println!(rt; "{what}: not made"),
    }
}

fn main(rt: HostRuntime) -> io::Result<()> {
    for row in &rows::ROWS {
        tell(&rt, row.name, rows::is_as_written(rt.alloc(), row))?;
    }
    let alloc = rt.alloc();
    tell(
        &rt,
        "nodes hold what was written",
        holding::is_written(alloc),
    )?;
    tell(
        &rt,
        "nodes hold what they had before a write that is cut",
        holding::is_left_by_a_cut_write(alloc),
    )?;
    tell(
        &rt,
        "nodes hold the first version of a block that was never written",
        holding::is_unwritten(alloc),
    )?;
    tell(&rt, "each read fails", faults::each_read(rt.alloc()))?;
    tell(&rt, "each write fails", faults::each_write(rt.alloc()))?;
    for stream in &made_up::STREAMS {
        tell(
            &rt,
            stream.name,
            made_up::is_as_an_array(rt.alloc(), stream),
        )?;
    }
    Ok(())
}
