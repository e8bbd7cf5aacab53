//! A client's whole connection: the handshake, and then a session.
ghost use Rattle.std.specs.Prelude.{◌≡◌, ◌≤◌, Err};
ghost use Rattle.outside_io.specs.Causes.{Rose};
ghost use Rattle.store_front.specs.Connections.{IsConnection, IsExport, IsPreferred};

use crate::blocks::device_len;
use crate::keeper::Keeper;
use crate::session::serve;
use disk_model::Disk;
use nbd_front::SessionEnd;
use nbd_handshake::{Agreement, Export, HandshakeFault, shake_hands};
use outside_io::{Sink, Source};
use quorum_rules::Config;
use std::alloc::Global;
use std::thread::Threads;
use store_device::Store;

/// Why a connection ended before its client left.
#[derive(Clone, Copy)]
pub enum ConnectionEnd {
    /// Its handshake failed.
    Handshake(HandshakeFault),
    /// Its session ended.
    Session(SessionEnd),
}

/// Serves a store to a client: shakes hands, and where transmission begins serves requests until the session ends. The
/// store is looked after before each wait for a request.
pub fn serve_connection<D: Disk + Send, U: Keeper<D>, S: Source, K: Sink, R: Threads + Sync>(
    rt: &R,
    alloc: Global,
    store: &mut Store<D>,
    keeper: &mut U,
    source: &mut S,
    sink: &mut K,
) -> Result<(), ConnectionEnd>
    requires ready { U.ready keeper.old }
    ensures connection { IsConnection D.pending D.seen D.most D.moment D.left_since U.keeps store.old.config
        store.old store.new (S.left source.old) (S.left source.new) (K.taken sink.old)
        (K.taken sink.new) result }
    ensures config { store.new.config ≡ store.old.config }
    // faults
    ensures read_fault { result ≡ Err (ConnectionEnd.Handshake HandshakeFault.ReadFault)
        → Rose S.last (S.faults source.old) (S.faults source.new) }
    ensures read_fault_later { result ≡ Err (ConnectionEnd.Session SessionEnd.ReadFault)
        → Rose S.last (S.faults source.old) (S.faults source.new) }
    ensures write_fault { result ≡ Err (ConnectionEnd.Handshake HandshakeFault.WriteFault)
        → Rose K.last (K.faults sink.old) (K.faults sink.new) }
    ensures write_fault_later { result ≡ Err (ConnectionEnd.Session SessionEnd.WriteFault)
        → Rose K.last (K.faults sink.old) (K.faults sink.new) }
{
    let export = export_of(store.config());
    match shake_hands(&export, source, sink) {
        Err(fault) => Err(ConnectionEnd::Handshake(fault)),
        Ok(Agreement::Departure) => Ok(()),
        Ok(Agreement::Transmission) => match serve(rt, alloc, store, keeper, source, sink) {
            Ok(()) => Ok(()),
            Err(end) => Err(ConnectionEnd::Session(end)),
        },
    }
}

/// What is told of a store.
fn export_of(config: &Config) -> Export
    ensures { IsExport config.now result }
{
    Export {
        size: device_len(config),
        preferred: preferred(config.size()),
    }
}

/// The block size that clients of a store are to prefer: a whole block needs no other bytes of it.
fn preferred(size: u32) -> u32
    requires { size ≤ 65536 }
    ensures { IsPreferred size result }
{
    match size {
        0..=512 => 512,
        513..=1024 => 1024,
        1025..=2048 => 2048,
        2049..=4096 => 4096,
        4097..=8192 => 8192,
        8193..=16384 => 16384,
        16385..=32768 => 32768,
        _ => 65536,
    }
}
