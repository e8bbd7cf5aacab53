//! A command under a gate.

use cross_sum::Bytes;
use outside_io::{Calls, MemorySink, MemorySource};
use pasis_shell::{Gate, pasis};
use std::alloc::Global;
use std::io::ErrorKind;
use std::rt::Files;
use std::sync::Wait;
use std::thread::Threads;
use std::{fs, io};

fn add_words(words: &mut Vec<String>, alloc: Global, command: &str) -> io::Result<()> {
    for word in command.split(' ') {
        words.push(String::from_str(alloc, word)?)?;
    }
    Ok(())
}

fn words_of(alloc: Global, command: &str) -> io::Result<Vec<String>> {
    let mut words = Vec::new(alloc);
    add_words(&mut words, alloc, command)?;
    Ok(words)
}

fn source_of(alloc: Global, input: &[u8]) -> io::Result<MemorySource> {
    match Bytes::of(alloc, input) {
        Ok(bytes) => Ok(MemorySource::new(bytes, 4096, Calls::new(alloc))),
        Err(_) => Err(io::Error::from(ErrorKind::OutOfMemory)),
    }
}

/// What a command writes that ends well on an input under a gate. It is nothing where the command doesn't end well.
pub fn written<R: Threads + Wait + Sync, G: Gate + Sync>(
    rt: &R,
    alloc: Global,
    command: &str,
    input: &[u8],
    gate: &G,
) -> io::Result<MemorySink> {
    let words = words_of(alloc, command)?;
    let mut source = source_of(alloc, input)?;
    let mut sink = MemorySink::new(alloc, 4096, Calls::new(alloc));
    let status = pasis(rt, alloc, words.as_slice(), &mut source, &mut sink, gate);
    if status.is_done() {
        Ok(sink)
    } else {
        Ok(MemorySink::new(alloc, 4096, Calls::new(alloc)))
    }
}

/// A plan that lies in the folder.
pub fn plan_of(rt: &(impl Files + AllocGlobal), name: &str) -> io::Result<Vec<u8>> {
    let path = format!(in rt.alloc(); "{name}.plan")?;
    fs::read(rt, path.as_str())
}

/// Whether a command ends well on a plan that lies in the folder under a gate, and writes just what lies in this file.
pub fn writes<R: Files + AllocGlobal + Threads + Wait + Sync, G: Gate + Sync>(
    rt: &R,
    command: &str,
    plan: &str,
    output: &str,
    gate: &G,
) -> io::Result<bool> {
    let input = plan_of(rt, plan)?;
    let wanted = fs::read(rt, output)?;
    let sink = written(rt, rt.alloc(), command, input.as_slice(), gate)?;
    Ok(sink.taken() == wanted.as_slice())
}
