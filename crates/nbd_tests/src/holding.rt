//! What nodes hold of blocks after requests to two blocks of two bytes on five nodes. Of a block node i has the value at i of the
//! polynomial of degree 1 that has the block's bytes at 0 and 1.
ghost use Rattle.std.specs.Prelude.{◌≡◌, IfOk};
ghost use Rattle.quorum_rules.specs.Faults.{numbers};
ghost use Rattle.quorum_rules.specs.declared.Edition.TheVariants.{One};

use crate::rows::bytes_of;
use crate::unmade::Unmade;
use cross_sum::Bytes;
use nbd_front::{Served, Server, SessionEnd, Stopped};
use outside_io::{Calls, MemorySink, MemorySource};
use quorum_rules::Config;
use std::alloc::Global;
use wire_forms::Version;

// A source of these requests.
fn source_of(alloc: Global, digits: &str) -> Result<MemorySource, Unmade> {
    let bytes = Bytes::of(alloc, &bytes_of(alloc, digits)?)?;
    Ok(MemorySource::new(bytes, 4096, Calls::new(alloc)))
}

// A server of two blocks of two bytes on five nodes.
fn small_server(alloc: Global) -> Result<Server, Unmade>
    ensures { IfOk result (λ server. server.device.config ≡ numbers One 5 1 1 3 2 2 2) }
{
    let config = Config::new(5, 1, 1, 3, 2, 2, 2).map_err(|_| Unmade)?;
    Ok(Server::new(alloc, &config)?)
}

// Serves a request.
fn serve_next(
    server: Server,
    alloc: Global,
    source: &mut MemorySource,
    sink: &mut MemorySink,
) -> Result<Server, Unmade>
    requires { server.device.config ≡ numbers One 5 1 1 3 2 2 2 }
    ensures { IfOk result (λ next. next.device.config ≡ numbers One 5 1 1 3 2 2 2) }
{
    match server.serve_one(alloc, source, sink) {
        Ok((next, Served::Next)) => Ok(next),
        _ => Err(Unmade),
    }
}

// Comes to a request that is cut.
fn meet_cut(
    server: Server,
    alloc: Global,
    source: &mut MemorySource,
    sink: &mut MemorySink,
) -> Result<Server, Unmade>
    ensures { IfOk result (λ left. left ≡ server) }
{
    match server.serve_one(alloc, source, sink) {
        Err(
            Stopped {
                end: SessionEnd::CutRequest { .. },
                server: Some(left),
            },
        ) => Ok(left),
        _ => Err(Unmade),
    }
}

// Whether a version has this time and this fragment.
fn is(version: &Version, time: u64, fragment: &[u8]) -> bool {
    version.stamp.time == time && version.fragment.as_slice() == fragment
}

const WRITE: &str = "25609513 0000 0001 0000000000000001 0000000000000001 00000002 0a0b";

const READ: &str = "25609513 0000 0000 0000000000000002 0000000000000000 00000004";

// A write whose data lack a byte.
const CUT_WRITE: &str = "25609513 0000 0001 0000000000000003 0000000000000000 00000004 010203";

// A write of no byte in the midst of block 0.
const EMPTY_WRITE: &str = "25609513 0000 0001 0000000000000004 0000000000000001 00000000";

/// After a write to both blocks and a read of them the nodes hold what was written, at time 1.
pub fn is_written(alloc: Global) -> Result<bool, Unmade> {
    let server = small_server(alloc)?;
    let mut sink = MemorySink::new(alloc, 4096, Calls::new(alloc));
    let server = serve_next(server, alloc, &mut source_of(alloc, WRITE)?, &mut sink)?;
    let server = serve_next(server, alloc, &mut source_of(alloc, READ)?, &mut sink)?;
    let first = server.held(2, 0)?;
    let last = server.held(2, 1)?;
    Ok(is(&first, 1, &[0x14]) && is(&last, 1, &[0x1d]))
}

/// A write whose data are cut changes nothing.
pub fn is_left_by_a_cut_write(alloc: Global) -> Result<bool, Unmade> {
    let server = small_server(alloc)?;
    let mut sink = MemorySink::new(alloc, 4096, Calls::new(alloc));
    let server = serve_next(server, alloc, &mut source_of(alloc, WRITE)?, &mut sink)?;
    let server = meet_cut(server, alloc, &mut source_of(alloc, CUT_WRITE)?, &mut sink)?;
    Ok(is(&server.held(2, 0)?, 1, &[0x14]))
}

/// A block to which no byte was written has its first version.
pub fn is_unwritten(alloc: Global) -> Result<bool, Unmade> {
    let server = small_server(alloc)?;
    let mut sink = MemorySink::new(alloc, 4096, Calls::new(alloc));
    let server = serve_next(
        server,
        alloc,
        &mut source_of(alloc, EMPTY_WRITE)?,
        &mut sink,
    )?;
    Ok(is(&server.held(2, 0)?, 0, &[0]))
}
