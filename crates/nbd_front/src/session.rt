//! A whole session: the greeting, and then requests and replies.
ghost use Rattle.std.specs.Prelude.{◌≡◌, ◌≢◌, ◌⊎◌, ◌*◌, ◌≤◌, ℕ, List, Some, Result, Ok, Err, replicate, OnOk, IfErr, IsErrOf};
ghost use Rattle.outside_io.specs.Causes.{Rose};
ghost use Rattle.outside_io.specs.Written.{AllFlushed};
ghost use Rattle.nbd_front.specs.Replies.{greeting};
ghost use Rattle.nbd_front.specs.Sessions.{IsSession, EndsSo, end_as};

use crate::ending::{Served, SessionEnd};
use crate::server::Server;
use outside_io::{Sink, Source};
use quorum_rules::Config;
use std::alloc::Global;

/// Serves a device of this configuration, of at most 65,536 blocks, whose bytes are all 0, from its greeting on until the session
/// ends.
pub fn serve<S: Source, K: Sink>(
    alloc: Global,
    config: &Config,
    source: &mut S,
    sink: &mut K,
) -> Result<(), SessionEnd>
    requires { config.now.blocks ≤ 65536 }
    ensures done { OnOk result (let size = config.now.size * config.now.blocks in
        IsSession (greeting size) (replicate size 0) 0 0 (Ok Served.Over) (S.left source.old)
        (S.left source.new) (K.taken sink.old) (K.taken sink.new)) }
    ensures ended { IfErr result (λ end. let size = config.now.size * config.now.blocks in
        IsSession (greeting size) (replicate size 0) 0 0 (Err end) (S.left source.old)
        (S.left source.new) (K.taken sink.old) (K.taken sink.new)) }
    ensures flushed { result ≢ Err SessionEnd.WriteFault → result ≢ Err SessionEnd.NoMemory
        → AllFlushed (K.taken sink.new) (K.flushed sink.new) }
    ensures read_fault { IsErrOf result SessionEnd.ReadFault
        → Rose S.last (S.faults source.old) (S.faults source.new) }
    ensures write_fault { IsErrOf result SessionEnd.WriteFault
        → Rose K.last (K.faults sink.old) (K.faults sink.new) }
    ensures calm_source { result ≢ Err SessionEnd.ReadFault
        → S.faults source.new ≡ S.faults source.old }
    ensures calm_sink { result ≢ Err SessionEnd.WriteFault → K.faults sink.new ≡ K.faults sink.old }
    // where there is memory, an input that meets no fault is served to its end, and that is how it says
    ensures complete { (input : List ℕ) (end : Result Served SessionEnd)
        → S.left source.old ≡ Some input → EndsSo end 0 0 input
        → (Rose S.last (S.faults source.old) (S.faults source.new) → ⊥)
        → (Rose K.last (K.faults sink.old) (K.faults sink.new) → ⊥)
        → (end_as result ≡ end) ⊎ (result ≡ Err SessionEnd.NoMemory) }
{
    let server = Server::new(alloc, config)?;
    server.greet(sink)?;
    match server.serve(alloc, source, sink) {
        Ok(_) => Ok(()),
        Err(stopped) => Err(stopped.end),
    }
}
