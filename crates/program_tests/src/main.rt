//! Cases of the program, as data. Each file NAME.cases in the folder that this program runs in has cases, in the form that
//! `case` says. Each case goes through the program's top call, with a source and a sink in memory; a script that `replay` refuses
//! goes through that of the program that draws, too. Writes for each file how many cases it has, and a line for each case in which
//! something comes out otherwise.
#![tactic(auto)]

mod case;
mod outcome;
mod picture;

use case::{Case, cases_of};
use outcome::{difference, tells_faults};
use picture::is_drawn_otherwise;
use std::alloc::Global;
use std::rt::Files;
use std::sync::Wait;
use std::thread::Threads;
use std::{fs, io};

fn tell(rt: &impl Print, file: &str, case: &Case, what: &str) -> io::Result<()> {
    println!(rt; "{file}: {}: {what}", case.name)
}

fn run<R: Print + AllocGlobal + Threads + Wait + Sync>(
    rt: &R,
    file: &str,
    case: &Case,
) -> io::Result<()> {
    if let Some(what) = difference(rt, rt.alloc(), case)? {
        tell(rt, file, case, what)?;
    }
    if is_drawn_otherwise(rt.alloc(), case)? {
        tell(rt, file, case, "it is drawn, or refused otherwise")?;
    }
    if tells_faults(rt, rt.alloc(), case)? {
        Ok(())
    } else {
        tell(rt, file, case, "a fault isn't told")
    }
}

fn run_all<R: Print + AllocGlobal + Threads + Wait + Sync>(
    rt: &R,
    file: &str,
    cases: &[Case],
) -> io::Result<()> {
    for case in cases {
        for _ in 0..case.times {
            run(rt, file, case)?;
        }
    }
    println!(rt; "{file}: {} cases", cases.len())
}

fn read_cases(rt: &(impl Files + AllocGlobal), path: &str) -> io::Result<Vec<Case>> {
    let text = fs::read_to_string(rt, path)?;
    cases_of(rt.alloc(), text.as_str())
}

fn run_file<R: Files + Print + AllocGlobal + Threads + Wait + Sync>(
    rt: &R,
    path: &str,
) -> io::Result<()> {
    let Some(file) = path.strip_suffix(".cases") else {
        return Ok(());
    };
    let cases = read_cases(rt, path)?;
    run_all(rt, file, cases.as_slice())
}

fn add_name(names: &mut Vec<String>, alloc: Global, name: &str) -> io::Result<()> {
    names.push(String::from_str(alloc, name)?)?;
    Ok(())
}

fn add_files(rt: &HostRuntime, names: &mut Vec<String>) -> io::Result<()> {
    for entry in fs::read_dir(rt, ".")? {
        let entry = entry?;
        add_name(names, rt.alloc(), entry.file_name())?;
    }
    Ok(())
}

// The names of the files, in order.
fn files(rt: &HostRuntime) -> io::Result<Vec<String>> {
    let mut names = Vec::new(rt.alloc());
    add_files(rt, &mut names)?;
    names.sort()?;
    Ok(names)
}

fn main(rt: HostRuntime) -> io::Result<()> {
    for path in &files(&rt)? {
        run_file(&rt, path.as_str())?;
    }
    Ok(())
}
