//! The examples in the folder that the program runs in. A script NAME.txt is replayed, its report is compared with NAME.out and
//! checked, and its picture is compared with NAME.svg; no two different strings in its messages share a digest. A report NAME.report
//! is checked, and the verdict compared with NAME.verdict. Of a plan NAME.plan there is a trace, whose script must replay to its report, and that report is checked; where
//! a file NAME.trace lies beside it the run is the same each time, and the trace is compared with it. Writes a line for each
//! example.
#![tactic(auto)]

mod pools;

use cross_sum::Bytes;
use outside_io::{Calls, MemorySink, MemorySource};
use pasis_shell::{OpenGate, Status, alone, pasis};
use pools::has_no_clash;
use run_pictures::draw;
use std::alloc::Global;
use std::io::ErrorKind;
use std::rt::Files;
use std::sync::Wait;
use std::thread::Threads;
use std::{fs, io, slice};

const LEGAL: &[u8] = b"legal\n";

// What came of an example.
#[derive(Clone, Copy)]
enum Outcome {
    Ok,
    // The text that lies beside the example is another than the one that was written.
    Differs,
    // The report of a script or of a plan isn't legal.
    Illegal,
    // Two different strings in the messages of a script share a digest.
    Clash,
    // The script of a trace doesn't replay to its report.
    OtherReport,
    // The picture that lies beside the script is another than the one that was drawn.
    OtherPicture,
}

impl Outcome {
    fn text(self) -> &'static str {
        match self {
            Outcome::Ok => "ok",
            Outcome::Differs => "differs",
            Outcome::Illegal => "illegal",
            Outcome::Clash => "clash",
            Outcome::OtherReport => "other report",
            Outcome::OtherPicture => "other picture",
        }
    }
}

fn file_of(rt: &(impl Files + AllocGlobal), name: &str, ending: &str) -> io::Result<Vec<u8>> {
    let path = format!(in rt.alloc(); "{name}.{ending}")?;
    fs::read(rt, path.as_str())
}

fn source_of(alloc: Global, text: &[u8]) -> io::Result<MemorySource> {
    match Bytes::of(alloc, text) {
        Ok(bytes) => Ok(MemorySource::new(bytes, 4096, Calls::new(alloc))),
        Err(_) => Err(io::Error::from(ErrorKind::OutOfMemory)),
    }
}

fn has_number(status: &Option<Status>, number: u8) -> bool {
    match status {
        Some(status) => status.number() == number,
        None => false,
    }
}

// Whether a command that is given a text ends with this number, and writes just this.
fn ends(alloc: Global, command: &str, text: &[u8], number: u8, written: &[u8]) -> io::Result<bool> {
    let word = String::from_str(alloc, command)?;
    let mut source = source_of(alloc, text)?;
    let mut sink = MemorySink::new(alloc, 4096, Calls::new(alloc));
    let status = alone(alloc, slice::from_ref(&word), &mut source, &mut sink);
    Ok(has_number(&status, number) && sink.taken() == written)
}

fn replays(alloc: Global, script: &[u8], report: &[u8]) -> io::Result<bool> {
    ends(alloc, "replay", script, 0, report)
}

fn is_legal(alloc: Global, report: &[u8]) -> io::Result<bool> {
    ends(alloc, "check", report, 0, LEGAL)
}

// Whether the picture of a script is this one.
fn draws(alloc: Global, script: &[u8], picture: &[u8]) -> io::Result<bool> {
    let mut source = source_of(alloc, script)?;
    let mut sink = MemorySink::new(alloc, 4096, Calls::new(alloc));
    let status = draw(alloc, &[], &mut source, &mut sink);
    Ok(status.is_done() && sink.taken() == picture)
}

// A script is replayed and drawn.
fn of_script(alloc: Global, script: &[u8], report: &[u8], picture: &[u8]) -> io::Result<Outcome> {
    if !replays(alloc, script, report)? {
        Ok(Outcome::Differs)
    } else if !is_legal(alloc, report)? {
        Ok(Outcome::Illegal)
    } else if !has_no_clash(alloc, script)? {
        Ok(Outcome::Clash)
    } else if !draws(alloc, script, picture)? {
        Ok(Outcome::OtherPicture)
    } else {
        Ok(Outcome::Ok)
    }
}

fn replayed(rt: &(impl Files + AllocGlobal), name: &str) -> io::Result<Outcome> {
    let script = file_of(rt, name, "txt")?;
    let report = file_of(rt, name, "out")?;
    let picture = file_of(rt, name, "svg")?;
    of_script(
        rt.alloc(),
        script.as_slice(),
        report.as_slice(),
        picture.as_slice(),
    )
}

// A report is checked.
fn of_report(alloc: Global, report: &[u8], verdict: &[u8]) -> io::Result<Outcome> {
    let number = if verdict == LEGAL { 0 } else { 1 };
    if ends(alloc, "check", report, number, verdict)? {
        Ok(Outcome::Ok)
    } else {
        Ok(Outcome::Differs)
    }
}

fn checked(rt: &(impl Files + AllocGlobal), name: &str) -> io::Result<Outcome> {
    let report = file_of(rt, name, "report")?;
    let verdict = file_of(rt, name, "verdict")?;
    of_report(rt.alloc(), report.as_slice(), verdict.as_slice())
}

// The script of a trace, and its report, which stands after the line `report`.
fn parts_of(trace: &[u8]) -> Option<(&[u8], &[u8])> {
    let (front, report) = str::from_utf8(trace).ok()?.split_once("\nreport\n")?;
    // The script has the newline too.
    Some((trace.get(..=front.len())?, report.as_bytes()))
}

// A trace shows a script and its report.
fn of_trace(alloc: Global, trace: &[u8]) -> io::Result<Outcome> {
    let Some((script, report)) = parts_of(trace) else {
        return Ok(Outcome::Differs);
    };
    if !replays(alloc, script, report)? {
        Ok(Outcome::OtherReport)
    } else if !is_legal(alloc, report)? {
        Ok(Outcome::Illegal)
    } else {
        Ok(Outcome::Ok)
    }
}

// Whether a trace is the one that lies beside its plan, where one does.
fn is_kept(rt: &(impl Files + AllocGlobal), name: &str, trace: &[u8]) -> io::Result<bool> {
    match file_of(rt, name, "trace") {
        Ok(kept) => Ok(kept.as_slice() == trace),
        Err(error) if error.kind() == ErrorKind::NotFound => Ok(true),
        Err(error) => Err(error),
    }
}

fn planned(rt: &(impl Files + AllocGlobal), name: &str) -> io::Result<MemorySource> {
    let plan = file_of(rt, name, "plan")?;
    source_of(rt.alloc(), plan.as_slice())
}

// What a run shows that ended so.
fn shown(
    rt: &(impl Files + AllocGlobal),
    name: &str,
    status: &Status,
    trace: &[u8],
) -> io::Result<Outcome> {
    if status.is_done() && is_kept(rt, name, trace)? {
        of_trace(rt.alloc(), trace)
    } else {
        Ok(Outcome::Differs)
    }
}

// A plan is run, whose trace is the one that lies beside it if the run is the same each time.
fn ran<R: Files + AllocGlobal + Threads + Wait + Sync>(rt: &R, name: &str) -> io::Result<Outcome> {
    let mut source = planned(rt, name)?;
    let word = String::from_str(rt.alloc(), "trace")?;
    let mut sink = MemorySink::new(rt.alloc(), 4096, Calls::new(rt.alloc()));
    let status = pasis(
        rt,
        rt.alloc(),
        slice::from_ref(&word),
        &mut source,
        &mut sink,
        &OpenGate,
    );
    shown(rt, name, &status, sink.taken())
}

// What comes of an example, if the file is one.
fn outcome_of<R: Files + AllocGlobal + Threads + Wait + Sync>(
    rt: &R,
    name: &str,
    ending: &str,
) -> io::Result<Option<Outcome>> {
    match ending {
        "txt" => Ok(Some(replayed(rt, name)?)),
        "report" => Ok(Some(checked(rt, name)?)),
        "plan" => Ok(Some(ran(rt, name)?)),
        _ => Ok(None),
    }
}

fn tell<R: Files + Print + AllocGlobal + Threads + Wait + Sync>(
    rt: &R,
    file: &str,
) -> io::Result<()> {
    let (name, ending) = file.rsplit_once('.').unwrap_or((file, ""));
    match outcome_of(rt, name, ending)? {
        Some(outcome) => println!(rt; "{name} {}", outcome.text()),
        None => Ok(()),
    }
}

fn add_name(names: &mut Vec<String>, alloc: Global, name: &str) -> io::Result<()> {
    names.push(String::from_str(alloc, name)?)?;
    Ok(())
}

fn add_files(rt: &HostRuntime, names: &mut Vec<String>) -> io::Result<()> {
    for entry in fs::read_dir(rt, ".")? {
        let entry = entry?;
        add_name(names, rt.alloc(), entry.file_name())?;
    }
    Ok(())
}

// The names of the files, in order.
fn files(rt: &HostRuntime) -> io::Result<Vec<String>> {
    let mut names = Vec::new(rt.alloc());
    add_files(rt, &mut names)?;
    names.sort()?;
    Ok(names)
}

fn main(rt: HostRuntime) -> io::Result<()> {
    for file in &files(&rt)? {
        tell(&rt, file.as_str())?;
    }
    Ok(())
}
