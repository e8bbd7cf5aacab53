//! Digests of several strings at once, beside those that FIPS 180-4 and Python's hashlib give.
//!
//! The folder that this program runs in has the cases. Each line of `vectors.cases` is a message (`vector`). Each line
//! of `groups.cases` is a group of strings (`group`), which are cut out of the file `bytes`. The program writes how
//! many came out right. With arguments it measures instead (`speed`).
#![tactic(auto)]

mod group;
mod speed;
mod vector;

use lists::NoMemory;
use std::io::ErrorKind;
use std::{env, fs, io};

/// How many cases there were, and how many came out right.
#[derive(Clone, Copy)]
struct Count {
    right: u32,
    all: u32,
}

impl Count {
    fn with(self, is_right: bool) -> Count {
        Count {
            right: self.right.saturating_add(u32::from(is_right)),
            all: self.all.saturating_add(1),
        }
    }
}

/// Whether a line has a case.
fn is_case(line: &str) -> bool {
    !line.is_empty() && !line.starts_with("#")
}

// Counts a case, and tells of its line if it came out otherwise.
fn counted(
    rt: &HostRuntime,
    count: Count,
    line: &str,
    outcome: Result<bool, NoMemory>,
) -> io::Result<Count> {
    match outcome {
        Ok(is_right) => {
            if !is_right {
                println!(rt; "otherwise: {line}")?;
            }
            Ok(count.with(is_right))
        }
        Err(NoMemory) => Err(io::Error::from(ErrorKind::OutOfMemory)),
    }
}

fn run_vectors(rt: &HostRuntime) -> io::Result<()> {
    let text = fs::read_to_string(rt, "vectors.cases")?;
    let mut count = Count { right: 0, all: 0 };
    for line in text.as_str().split('\n') {
        if is_case(line) {
            count = counted(rt, count, line, vector::is_right(rt.alloc(), line))?;
        }
    }
    println!(rt; "vectors: {} of {}", count.right, count.all)
}

fn run_groups(rt: &HostRuntime) -> io::Result<()> {
    let bytes = fs::read(rt, "bytes")?;
    let text = fs::read_to_string(rt, "groups.cases")?;
    let mut count = Count { right: 0, all: 0 };
    for line in text.as_str().split('\n') {
        if is_case(line) {
            let outcome = group::is_right(rt.alloc(), bytes.as_slice(), line);
            count = counted(rt, count, line, outcome)?;
        }
    }
    println!(rt; "groups: {} of {}", count.right, count.all)
}

fn main(rt: HostRuntime) -> io::Result<()> {
    let mut words = Vec::new(rt.alloc());
    for word in env::args(&rt)? {
        words.push(word)?;
    }
    if words.len() > 1 {
        return speed::measure(&rt, &words[1..]);
    }
    run_vectors(&rt)?;
    run_groups(&rt)
}
