//! Stores over disks in memory that fail and crash, beside plain arrays. Each file NAME.cases of the folder that this program runs
//! in has a case in each line (`case`). A case makes all its choices by the words of its seed. Writes a line for each.
#![tactic(auto)]

mod batch;
mod case;
mod changes;
mod counts;
mod draws;
mod noted;
mod overwritten;
mod register;
mod step;
mod trial;
mod unmade;

use case::case_of;
use counts::Counts;
use std::rt::Files;
use std::thread::Threads;
use std::{fs, io};
use trial::play;
use unmade::Unmade;

/// The files, in the order in which they are told.
const FILES: [&str; 7] = [
    "arrays.cases",
    "faults.cases",
    "crashes.cases",
    "gone.cases",
    "changed.cases",
    "replaced.cases",
    "remembered.cases",
];

// What came of a case: its counts, or that it could not be made.
fn tell(
    rt: &(impl Print + AllocGlobal),
    name: &str,
    outcome: Result<Counts, Unmade>,
) -> io::Result<()> {
    match outcome {
        Ok(counts) => {
            let sum = counts.sum_text(rt.alloc())?;
            println!(rt; "{name}: {counts} sum={sum}")
        }
        Err(Unmade) => println!(rt; "{name}: not made"),
    }
}

// Plays the case of a line, if it has one.
fn run_line<R: Print + AllocGlobal + Threads + Sync>(rt: &R, line: &str) -> io::Result<()> {
    if line.is_empty() || line.starts_with("#") {
        return Ok(());
    }
    match case_of(line) {
        Some(case) => tell(rt, case.name, play(rt, rt.alloc(), &case)),
        None => println!(rt; "{line}: no case"),
    }
}

fn run_file<R: Files + Print + AllocGlobal + Threads + Sync>(rt: &R, path: &str) -> io::Result<()> {
    let text = fs::read_to_string(rt, path)?;
    for line in text.lines() {
        run_line(rt, line)?;
    }
    Ok(())
}

// What came of the calls of a batch.
fn tell_step<R: Print + AllocGlobal + Threads + Sync>(rt: &R) -> io::Result<()> {
    match step::is_told(rt, rt.alloc()) {
        Ok(true) => println!(rt; "a write in step: ok"),
        Ok(false) => println!(rt; "a write in step: otherwise"),
        Err(Unmade) => println!(rt; "a write in step: not made"),
    }
}

// What came of blocks that were written over and over, and pruned.
fn tell_overwritten<R: Print + AllocGlobal + Threads + Sync>(rt: &R) -> io::Result<()> {
    match overwritten::goes_as_told(rt, rt.alloc()) {
        Ok(true) => println!(rt; "pruned without a read: ok"),
        Ok(false) => println!(rt; "pruned without a read: otherwise"),
        Err(Unmade) => println!(rt; "pruned without a read: not made"),
    }
}

fn main(rt: HostRuntime) -> io::Result<()> {
    tell_step(&rt)?;
    tell_overwritten(&rt)?;
    for path in FILES {
        run_file(&rt, path)?;
    }
    Ok(())
}
