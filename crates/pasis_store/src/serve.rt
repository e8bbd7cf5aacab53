ghost use Rattle.std.specs.Prelude.{◌≡◌, IfErr};
ghost use Rattle.pasis_store.specs.Ends.{IsUnderstood};
ghost use Rattle.pasis_store.specs.Upkeep.{IsConnection, IsServed, IsTended};

use crate::folder::FileStore;
use crate::keeping::ByClosure;
use crate::opening::open_store;
use crate::settling::settle;
use crate::upkeep::Upkeep;
use lists::NoMemory;
use nbd_handshake::HandshakeFault;
use outside_io::{Sink, Source, StdSink, StdSource};
use std::thread::{Threads, available_parallelism};
use store_front::{ConnectionEnd, SessionEnd};
use store_words::{Refusal, Status};

/// Settles what a crash left, and then serves the device over standard input and output.
pub fn serve<T: Threads + Sync>(
    rt: &HostRuntime,
    threads: &T,
    folders: &[String],
) -> Result<Status, Refusal>
    ensures { IfErr result IsUnderstood }
{
    let mut store = open_store(rt, folders)?;
    if let Ok(processors) = available_parallelism(threads) {
        store.hear_in(processors.get());
    }
    let mut upkeep = Upkeep::new(rt, &store)?;
    let mut source = StdSource::new(rt.stdin());
    let mut sink = StdSink::new(rt.stdout());
    let end = settle_and_serve(
        rt,
        threads,
        folders,
        &mut store,
        &mut upkeep,
        &mut source,
        &mut sink,
    )?;
    match end {
        Ok(()) => Ok(Status::Done),
        Err(end) => {
            let _ = eprintln!(rt; "pasis_store: {}", told(end));
            Ok(Status::Failed)
        }
    }
}

// Settles what a crash left of a store, and then serves it to a client.
fn settle_and_serve<T: Threads + Sync, S: Source, K: Sink>(
    rt: &HostRuntime,
    threads: &T,
    folders: &[String],
    store: &mut FileStore,
    upkeep: &mut Upkeep,
    source: &mut S,
    sink: &mut K,
) -> Result<Result<(), ConnectionEnd>, NoMemory>
    // blocks are settled before anything is read
    ensures { IsServed store.old store.new result (S.left source.old) (S.left source.new)
        (K.taken sink.old) (K.taken sink.new) }
{
    let _unsettled = settle(rt, threads, store)?;
    Ok(serve_store(rt, threads, folders, store, upkeep, source, sink))
}

// Serves a store to a client until the connection ends, and looks after it while nothing waits.
fn serve_store<T: Threads + Sync, S: Source, K: Sink>(
    rt: &HostRuntime,
    threads: &T,
    folders: &[String],
    store: &mut FileStore,
    upkeep: &mut Upkeep,
    source: &mut S,
    sink: &mut K,
) -> Result<(), ConnectionEnd>
    // what was read, asked of the store, and written; between rounds the store is only looked after
    ensures connection { IsConnection store.old.config store.old store.new result
        (S.left source.old) (S.left source.new) (K.taken sink.old) (K.taken sink.new) }
{
    let tend = |upkeep: &mut Upkeep, store: &mut FileStore, served: usize, is_ready: bool| -> Result<
        (),
        NoMemory,
    >
        ensures tended { IsTended store.old store.new }
        ensures config { store.new.config ≡ store.old.config }
    { upkeep.tend(rt, threads, folders, store, served, is_ready) };
    let mut keeper = ByClosure { upkeep, tend };
    store_front::serve_connection(threads, rt.alloc(), store, &mut keeper, source, sink)
}

fn told(end: ConnectionEnd) -> &'static str {
    match end {
        ConnectionEnd::Handshake(fault) => told_of_handshake(fault),
        ConnectionEnd::Session(end) => told_of_session(end),
    }
}

fn told_of_handshake(fault: HandshakeFault) -> &'static str {
    match fault {
        HandshakeFault::ReadFault => "standard input can't be read",
        HandshakeFault::WriteFault => "standard output can't be written",
        HandshakeFault::UnknownFlags => "the client has flags that no handshake has",
        HandshakeFault::BadMagic { .. } => "an option begins with other bytes",
        HandshakeFault::Cut { .. } => "the input ends within the handshake",
        HandshakeFault::UnknownExport { .. } => "the client wants an export that isn't there",
        HandshakeFault::TooManyOptions => "too many options",
    }
}

fn told_of_session(end: SessionEnd) -> &'static str {
    match end {
        SessionEnd::ReadFault => "standard input can't be read",
        SessionEnd::WriteFault => "standard output can't be written",
        SessionEnd::NoMemory => "no memory",
        SessionEnd::BadMagic { .. } => "a request begins with other bytes",
        SessionEnd::CutRequest { .. } => "the input ends within a request",
        SessionEnd::TooManyRequests => "too many requests",
    }
}
