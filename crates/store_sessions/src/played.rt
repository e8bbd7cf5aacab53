//! What comes of a connection.
ghost use Rattle.std.specs.Prelude.{◌≡◌, ◌≤◌};

use crate::making::made_store;
use cross_sum::Bytes;
use disk_model::Disk;
use lists::NoMemory;
use nbd_handshake::HandshakeFault;
use outside_io::{Calls, MemorySink, MemorySource};
use session_cases::Case;
use std::alloc::Global;
use std::io;
use std::io::ErrorKind;
use std::thread::Threads;
use store_device::Store;
use store_front::{ConnectionEnd, Keeper, SessionEnd, serve_connection};

/// Nobody looks after the store.
#[derive(Drop)]
struct Nobody;

impl<D: Disk> Keeper<D> for Nobody {
    ghost use Rattle.std.specs.Prelude.{◌≡◌, ⊤};

    ghost keeps = { λ old new. new ≡ old };

    ghost ready = { λ _. ⊤ };

    fn tend(
        &mut self,
        _store: &mut Store<D>,
        _served: usize,
        _is_ready: bool,
    ) -> Result<(), NoMemory> {
        Ok(())
    }
}

// How a connection ended.
fn told(alloc: Global, end: Result<(), ConnectionEnd>) -> io::Result<String> {
    match end {
        Ok(()) => Ok(format!(in alloc; "over")?),
        Err(ConnectionEnd::Handshake(fault)) => told_of_handshake(alloc, fault),
        Err(ConnectionEnd::Session(end)) => told_of_session(alloc, end),
    }
}

fn told_of_handshake(alloc: Global, fault: HandshakeFault) -> io::Result<String> {
    let text = match fault {
        HandshakeFault::ReadFault => format!(in alloc; "read fault")?,
        HandshakeFault::WriteFault => format!(in alloc; "write fault")?,
        HandshakeFault::UnknownFlags => format!(in alloc; "unknown flags")?,
        HandshakeFault::BadMagic { at } => format!(in alloc; "bad option at {at}")?,
        HandshakeFault::Cut { at } => format!(in alloc; "cut option at {at}")?,
        HandshakeFault::UnknownExport { at } => format!(in alloc; "unknown export at {at}")?,
        HandshakeFault::TooManyOptions => format!(in alloc; "too many options")?,
    };
    Ok(text)
}

fn told_of_session(alloc: Global, end: SessionEnd) -> io::Result<String> {
    let text = match end {
        SessionEnd::ReadFault => format!(in alloc; "read fault")?,
        SessionEnd::WriteFault => format!(in alloc; "write fault")?,
        SessionEnd::NoMemory => format!(in alloc; "no memory")?,
        SessionEnd::BadMagic { at } => format!(in alloc; "bad request at {at}")?,
        SessionEnd::CutRequest { at } => format!(in alloc; "cut request at {at}")?,
        SessionEnd::TooManyRequests => format!(in alloc; "too many requests")?,
    };
    Ok(text)
}

// A number that fits, or the greatest.
fn fitting(number: u64) -> u32 {
    number.min(u64::from(u32::MAX)) as u32
}

// What is otherwise where at most so many bytes are read and written at once, if anything is.
fn difference_at<R: Threads + Sync>(
    rt: &R,
    alloc: Global,
    case: &Case,
    most: usize,
) -> io::Result<Option<&'static str>>
    requires { 1 ≤ most }
{
    let Ok(input) = Bytes::of(alloc, &case.input) else {
        return Err(io::Error::from(ErrorKind::OutOfMemory));
    };
    let (size, blocks) = case.device;
    let mut store = made_store(alloc, fitting(size), fitting(blocks))?;
    let mut source = MemorySource::new(input, most, Calls::new(alloc));
    let mut sink = MemorySink::new(alloc, most, Calls::new(alloc));
    let end = serve_connection(rt, alloc, &mut store, &mut Nobody, &mut source, &mut sink);
    if told(alloc, end)?.as_str() != case.end.as_str() {
        Ok(Some("the end differs"))
    } else if sink.taken() != case.output.as_slice() {
        Ok(Some("what the server sends differs"))
    } else {
        Ok(None)
    }
}

/// What is otherwise than the case says, if anything is, in whole pieces or byte by byte.
pub fn difference<R: Threads + Sync>(
    rt: &R,
    alloc: Global,
    case: &Case,
) -> io::Result<Option<&'static str>> {
    match difference_at(rt, alloc, case, 65_536)? {
        Some(what) => Ok(Some(what)),
        None => difference_at(rt, alloc, case, 1),
    }
}
