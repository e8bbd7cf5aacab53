//! What comes of a case.

use crate::case::{Case, Ended, Pace, WIDE, number_at};
use cross_sum::Bytes;
use lists::NoMemory;
use outside_io::{Calls, MemorySink, MemorySource};
use pasis_shell::{OpenGate, Status, alone, pasis};
use std::alloc::Global;
use std::io::ErrorKind;
use std::sync::Wait;
use std::thread::Threads;
use std::{io, slice};

fn error_of(_: NoMemory) -> io::Error {
    io::Error::from(ErrorKind::OutOfMemory)
}

fn calls_of(alloc: Global, pace: Pace) -> io::Result<Calls> {
    let mut calls = Calls::new(alloc);
    if let Some(call) = pace.failing {
        calls.push(call).map_err(error_of)?;
    }
    Ok(calls)
}

/// A source of an input, which gives it at this pace.
pub fn source_of(alloc: Global, input: &[u8], pace: Pace) -> io::Result<MemorySource> {
    let calls = calls_of(alloc, pace)?;
    match Bytes::of(alloc, input) {
        Ok(bytes) => Ok(MemorySource::new(bytes, pace.most.max(1), calls)),
        Err(error) => Err(error_of(error)),
    }
}

/// A sink that takes bytes at this pace.
pub fn sink_of(alloc: Global, pace: Pace) -> io::Result<MemorySink> {
    Ok(MemorySink::new(alloc, pace.most.max(1), calls_of(alloc, pace)?))
}

// Runs a case, whose source reads so, with a sink.
fn status_of<R: Threads + Wait + Sync>(
    rt: &R,
    alloc: Global,
    case: &Case,
    reads: Pace,
    sink: &mut MemorySink,
) -> io::Result<Status> {
    let mut source = source_of(alloc, case.input.as_slice(), reads)?;
    Ok(pasis(
        rt,
        alloc,
        case.words.as_slice(),
        &mut source,
        sink,
        &OpenGate,
    ))
}

// Which calls fail in turn.
#[derive(Clone, Copy)]
enum Side {
    Source,
    Sink,
}

// What comes of a call that is to fail.
#[derive(Clone, Copy)]
enum Fault {
    // The status tells it.
    Told,
    // Another call was the last one, and all went well.
    None,
    Untold,
}

// What a sink has taken before this call: at each call as much as it takes at most, until all is taken.
fn taken_before(case: &Case, call: u64) -> &[u8] {
    let output = case.output.as_slice();
    let taken = call.saturating_mul(case.writes.most as u64);
    match usize::try_from(taken) {
        Ok(taken) => output.get(..taken).unwrap_or(output),
        Err(_) => output,
    }
}

// How many calls move so many bytes, and one more: a source tells its end, and a sink is flushed.
fn calls_for(bytes: usize, pace: Pace) -> u64 {
    (bytes.div_ceil(pace.most.max(1)) as u64).saturating_add(1)
}

// How many calls a case has on one side.
fn calls_on(case: &Case, side: Side) -> u64 {
    match side {
        Side::Source => calls_for(case.input.len(), case.reads),
        Side::Sink => calls_for(case.output.len(), case.writes),
    }
}

// A read fault, at which nothing is written, or a write fault, at which just what the calls before took is.
fn fault_of(case: &Case, side: Side, call: u64, status: &Status, written: &[u8]) -> Fault {
    match (side, status) {
        (Side::Source, Status::ReadFault) if written.is_empty() => Fault::Told,
        (Side::Sink, Status::WriteFault) if written == taken_before(case, call) => Fault::Told,
        (_, Status::Done) if written == case.output.as_slice() => Fault::None,
        _ => Fault::Untold,
    }
}

// Runs a case with this call failing.
fn fault_at<R: Threads + Wait + Sync>(
    rt: &R,
    alloc: Global,
    case: &Case,
    side: Side,
    call: u64,
) -> io::Result<Fault> {
    let (reads, writes) = match side {
        Side::Source => (case.reads.failing_at(call), case.writes),
        Side::Sink => (case.reads, case.writes.failing_at(call)),
    };
    let mut sink = sink_of(alloc, writes)?;
    let status = status_of(rt, alloc, case, reads, &mut sink)?;
    Ok(fault_of(case, side, call, &status, sink.taken()))
}

// Whether each call of one side that fails is told, and none is there after the last one.
fn tells_faults_of<R: Threads + Wait + Sync>(
    rt: &R,
    alloc: Global,
    case: &Case,
    side: Side,
) -> io::Result<bool> {
    let calls = calls_on(case, side);
    for call in 0..calls {
        if !matches!(fault_at(rt, alloc, case, side, call)?, Fault::Told) {
            return Ok(false);
        }
    }
    Ok(matches!(fault_at(rt, alloc, case, side, calls)?, Fault::None))
}

/// Whether each fault of a case whose calls fail in turn is told.
pub fn tells_faults<R: Threads + Wait + Sync>(
    rt: &R,
    alloc: Global,
    case: &Case,
) -> io::Result<bool> {
    Ok(
        !case.fails_in_turn
            || tells_faults_of(rt, alloc, case, Side::Source)?
                && tells_faults_of(rt, alloc, case, Side::Sink)?,
    )
}

// The script of a trace, and its report, which stands after the line `report`.
fn parts_of(trace: &str) -> Option<(&[u8], &[u8])> {
    let (front, report) = trace.split_once("\nreport\n")?;
    // The script has the newline too.
    Some((trace.as_bytes().get(..=front.len())?, report.as_bytes()))
}

fn is_done(status: &Option<Status>) -> bool {
    match status {
        Some(status) => status.is_done(),
        None => false,
    }
}

// Whether a command that runs no threads ends well on a text, and writes just this.
fn writes(alloc: Global, command: &str, text: &[u8], output: &[u8]) -> io::Result<bool> {
    let word = String::from_str(alloc, command)?;
    let mut source = source_of(alloc, text, WIDE)?;
    let mut sink = sink_of(alloc, WIDE)?;
    let status = alone(alloc, slice::from_ref(&word), &mut source, &mut sink);
    Ok(is_done(&status) && sink.taken() == output)
}

// Whether what was written is a trace such as the case says.
fn is_traced(alloc: Global, case: &Case, text: &str) -> io::Result<bool> {
    if !case.replays && !case.is_legal {
        return Ok(true);
    }
    let Some((script, report)) = parts_of(text) else {
        return Ok(false);
    };
    Ok(
        (!case.replays || writes(alloc, "replay", script, report)?)
            && (!case.is_legal || writes(alloc, "check", report, b"legal\n")?),
    )
}

// Whether the last line of a report counts as many operations as must have ended.
fn counts(line: &str, wanted: &Ended) -> bool {
    let (Some(done), Some(spent), Some(pending)) = (
        number_at(line, 1, "done="),
        number_at(line, 2, "spent="),
        number_at(line, 3, "pending="),
    ) else {
        return false;
    };
    let ended = done.saturating_add(spent);
    line.starts_with("end ")
        && wanted.least <= ended
        && ended.saturating_add(pending) <= wanted.most
        && pending <= wanted.pending
}

// How many of the lines begin so.
fn number_with(text: &str, front: &str) -> usize {
    let mut found = 0usize;
    for line in text.lines() {
        if line.starts_with(front) {
            found = found.saturating_add(1);
        }
    }
    found
}

// Whether so many of the lines begin as a count N TEXT says.
fn has(text: &str, count: &str) -> bool {
    let (number, front) = count.split_once(' ').unwrap_or((count, ""));
    number_with(text, front) == number.parse().unwrap_or(usize::MAX)
}

fn has_counts(case: &Case, text: &str) -> bool {
    for count in &case.counts {
        if !has(text, count.as_str()) {
            return false;
        }
    }
    true
}

// Whether the last line is such as the case says.
fn is_last(case: &Case, line: &str, end: &str) -> bool {
    match &case.ended {
        Some(wanted) => line.starts_with(end) && counts(line, wanted),
        None => line.starts_with(end),
    }
}

// Whether what was written is what the case says of it.
fn is_written(alloc: Global, case: &Case, written: &[u8]) -> io::Result<bool> {
    let Some(end) = &case.end else {
        return Ok(written == case.output.as_slice());
    };
    let Ok(text) = str::from_utf8(written) else {
        return Ok(false);
    };
    let last = text.lines().last().unwrap_or("");
    Ok(is_last(case, last, end.as_str()) && has_counts(case, text) && is_traced(alloc, case, text)?)
}

// Whether a status stands on standard error as the case says.
fn is_told(alloc: Global, case: &Case, status: &Status) -> io::Result<bool> {
    let mut told = Vec::new(alloc);
    status.tell(&mut told)?;
    Ok(told.as_slice() == case.told.as_slice())
}

// What is otherwise than the case says, if anything is.
fn compared(
    alloc: Global,
    case: &Case,
    status: &Status,
    written: &[u8],
) -> io::Result<Option<&'static str>> {
    if !case.is_readable {
        Ok(Some("a line of the case differs"))
    } else if status.number() != case.status {
        Ok(Some("the status differs"))
    } else if !is_told(alloc, case, status)? {
        Ok(Some("the line on standard error differs"))
    } else if !is_written(alloc, case, written)? {
        Ok(Some("the output differs"))
    } else {
        Ok(None)
    }
}

// The status of a name, of those to which no case can come: memory is there, and no session has so many requests.
fn status_named(name: &str) -> Option<Status> {
    match name {
        "NoMemory" => Some(Status::NoMemory),
        "TooManyRequests" => Some(Status::TooManyRequests),
        _ => None,
    }
}

// What is otherwise of the status of a name, if anything is.
fn named(alloc: Global, case: &Case, name: &str) -> io::Result<Option<&'static str>> {
    match status_named(name) {
        Some(status) => compared(alloc, case, &status, &[]),
        None => Ok(Some("no status has the name")),
    }
}

/// Runs a case. What is otherwise than it says, if anything is.
pub fn difference<R: Threads + Wait + Sync>(
    rt: &R,
    alloc: Global,
    case: &Case,
) -> io::Result<Option<&'static str>> {
    if let Some(name) = &case.tells {
        return named(alloc, case, name.as_str());
    }
    let mut sink = sink_of(alloc, case.writes)?;
    let status = status_of(rt, alloc, case, case.reads, &mut sink)?;
    compared(alloc, case, &status, sink.taken())
}
