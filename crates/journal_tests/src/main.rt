//! Journals and the lines that they merge into. Journals written by hand show the line of each kind of entry, and which journals
//! can't be merged. Journals of runs in threads are merged in cases of `program_tests`.
#![tactic(auto)]

mod by_hand;
mod sheet;
mod told;
mod unmade;

use std::io;
use unmade::Unmade;

// What came of it: as it must be, otherwise, or the journals could not be made.
fn tell(rt: &HostRuntime, what: &str, outcome: Result<bool, Unmade>) -> io::Result<()> {
    match outcome {
        Ok(true) => println!(rt; "{what}: ok"),
        Ok(false) => println!(rt; "{what}: otherwise"),
        Err(Unmade) => println!(rt; "{what}: not made"),
    }
}

fn main(rt: HostRuntime) -> io::Result<()> {
    for case in &by_hand::CASES {
        tell(&rt, case.name, by_hand::is_as_told(rt.alloc(), case))?;
    }
    Ok(())
}
