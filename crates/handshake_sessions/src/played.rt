//! What comes of a handshake.
ghost use Rattle.std.specs.Prelude.{◌≤◌};

use cross_sum::Bytes;
use nbd_handshake::{Agreement, Export, HandshakeFault, shake_hands};
use outside_io::{Calls, MemorySink, MemorySource, Source};
use session_cases::Case;
use std::alloc::Global;
use std::io;
use std::io::ErrorKind;

// How a handshake ended.
fn told(alloc: Global, end: Result<Agreement, HandshakeFault>) -> io::Result<String> {
    let text = match end {
        Ok(Agreement::Transmission) => format!(in alloc; "transmission")?,
        Ok(Agreement::Departure) => format!(in alloc; "departure")?,
        Err(HandshakeFault::ReadFault) => format!(in alloc; "read fault")?,
        Err(HandshakeFault::WriteFault) => format!(in alloc; "write fault")?,
        Err(HandshakeFault::UnknownFlags) => format!(in alloc; "unknown flags")?,
        Err(HandshakeFault::BadMagic { at }) => format!(in alloc; "bad magic at {at}")?,
        Err(HandshakeFault::Cut { at }) => format!(in alloc; "cut at {at}")?,
        Err(HandshakeFault::UnknownExport { at }) => format!(in alloc; "unknown export at {at}")?,
        Err(HandshakeFault::TooManyOptions) => format!(in alloc; "too many options")?,
    };
    Ok(text)
}

// How many bytes the source has left.
fn left_of(source: &mut MemorySource) -> usize {
    let mut room = [0u8; 4096];
    let mut count = 0usize;
    for _ in 0..u64::MAX {
        match source.read(&mut room) {
            Ok(more) if more > 0 => count = count.saturating_add(more),
            _ => return count,
        }
    }
    count
}

// What is otherwise where at most so many bytes are read and written at once, if anything is.
fn difference_at(alloc: Global, case: &Case, most: usize) -> io::Result<Option<&'static str>>
    requires { 1 ≤ most }
{
    let Ok(input) = Bytes::of(alloc, &case.input) else {
        return Err(io::Error::from(ErrorKind::OutOfMemory));
    };
    let mut source = MemorySource::new(input, most, Calls::new(alloc));
    let mut sink = MemorySink::new(alloc, most, Calls::new(alloc));
    let (size, preferred) = case.device;
    let export = Export {
        size,
        preferred: preferred.min(u64::from(u32::MAX)) as u32,
    };
    let end = shake_hands(&export, &mut source, &mut sink);
    if told(alloc, end)?.as_str() != case.end.as_str() {
        Ok(Some("the end differs"))
    } else if sink.taken() != case.output.as_slice() {
        Ok(Some("what the server sends differs"))
    } else if left_of(&mut source) != case.left {
        Ok(Some("it reads on, or not far enough"))
    } else {
        Ok(None)
    }
}

/// What is otherwise than the case says, if anything is, in whole pieces or byte by byte.
pub fn difference(alloc: Global, case: &Case) -> io::Result<Option<&'static str>> {
    match difference_at(alloc, case, 65_536)? {
        Some(what) => Ok(Some(what)),
        None => difference_at(alloc, case, 1),
    }
}
