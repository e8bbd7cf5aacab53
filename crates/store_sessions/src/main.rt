//! Connections to a store as data. The file sessions.cases in the folder that this program runs in has them, in the
//! form that `session_cases` says; its device is SIZE and BLOCKS. Each is played over memory, in whole pieces and byte
//! by byte, with a store of three nodes on disks in memory. Writes a line for each: how it ended and how many bytes the
//! server sent, if all is as it must be, or what is otherwise.
#![tactic(auto)]

mod making;
mod played;

use played::difference;
use session_cases::{Case, cases_of};
use std::thread::Threads;
use std::{fs, io};

fn tell<R: Print + AllocGlobal + Threads + Sync>(rt: &R, case: &Case) -> io::Result<()> {
    let name = case.name.as_str();
    match difference(rt, rt.alloc(), case)? {
        None => {
            let end = case.end.as_str();
            let count = case.output.len();
            println!(rt; "{name}: {end}, {count} bytes")
        }
        Some(what) => println!(rt; "{name}: {what}"),
    }
}

fn main(rt: HostRuntime) -> io::Result<()> {
    let text = fs::read_to_string(&rt, "sessions.cases")?;
    for case in &cases_of(rt.alloc(), text.as_str())? {
        tell(&rt, case)?;
    }
    Ok(())
}
