//! A whole handshake.
ghost use Rattle.std.specs.Prelude.{◌≡◌, ◌≢◌, ◌≤◌, ℕ, List, Some, None, Ok, Err, [], IfOk, IfSome, IfErr, OnOk, IsErrOf};
ghost use Rattle.std.specs.Io.KnownBytes.{Consumes, IsAtEnd};
ghost use Rattle.outside_io.specs.Causes.{Rose};
ghost use Rattle.outside_io.specs.Written.{AllFlushed};
ghost use Rattle.nbd_handshake.specs.Options.{flags_of, leaves_zeros_out};
ghost use Rattle.nbd_handshake.specs.Steps.{HaveNotCome};
ghost use Rattle.nbd_handshake.specs.Handshakes.{AreFlags, End, EndsSo, IsHaggle, IsHandshake};

use crate::answer::send;
use crate::arrival::four;
use crate::ending::{Agreement, HandshakeFault};
use crate::export::Export;
use crate::reply::GREETING;
use crate::turn::{Turn, take_turn};
use exact_input::fill;
use outside_io::{Sink, Source};

/// How many options a handshake may have.
const MOST_OPTIONS: u32 = 256;

/// Greets a client, and answers its options until transmission begins or the client leaves. It takes no memory, reads nothing behind the
/// option that ends it, and flushes each reply before it reads on.
pub fn shake_hands<S: Source, K: Sink>(
    export: &Export,
    source: &mut S,
    sink: &mut K,
) -> Result<Agreement, HandshakeFault>
    ensures handshake { IsHandshake export.now result (S.left source.old) (S.left source.new)
        (K.taken sink.old) (K.taken sink.new) }
    ensures flushed { result ≢ Err HandshakeFault.WriteFault
        → AllFlushed (K.taken sink.new) (K.flushed sink.new) }
    ensures read_fault { IsErrOf result HandshakeFault.ReadFault
        → Rose S.last (S.faults source.old) (S.faults source.new) }
    ensures write_fault { IsErrOf result HandshakeFault.WriteFault
        → Rose K.last (K.faults sink.old) (K.faults sink.new) }
    ensures calm_source { result ≢ Err HandshakeFault.ReadFault
        → S.faults source.new ≡ S.faults source.old }
    ensures calm_sink { result ≢ Err HandshakeFault.WriteFault
        → K.faults sink.new ≡ K.faults sink.old }
    // an input that meets no fault is read to its end, and that is how it says
    ensures complete { (input : List ℕ) (end : End) → S.left source.old ≡ Some input
        → EndsSo end input
        → (Rose S.last (S.faults source.old) (S.faults source.new) → ⊥)
        → (Rose K.last (K.faults sink.old) (K.faults sink.new) → ⊥)
        → result ≡ end }
{
    send(sink, &GREETING)?;
    match read_flags(source)? {
        Some(short) => haggle(export, short, source, sink),
        None => Ok(Agreement::Departure),
    }
}

/// Reads the client's flags, and tells whether it takes an export without its zeros; none where the input has ended.
fn read_flags<S: Source>(source: &mut S) -> Result<Option<bool>, HandshakeFault>
    ensures some { IfOk result (λ found. IfSome found (λ short.
        (flags : List ℕ) × Consumes (S.left source.old) (S.left source.new) flags
        × AreFlags flags × (short ≡ leaves_zeros_out (flags_of flags)))) }
    ensures none { result ≡ Ok None → Consumes (S.left source.old) (S.left source.new) []
        × IsAtEnd (S.left source.new) }
    ensures failed { IfErr result
        (λ fault. HaveNotCome fault (S.left source.old) (S.left source.new)) }
    ensures fault { IsErrOf result HandshakeFault.ReadFault
        → Rose S.last (S.faults source.old) (S.faults source.new) }
    ensures calm { result ≢ Err HandshakeFault.ReadFault
        → S.faults source.new ≡ S.faults source.old }
{
    let mut room = [0u8; 4];
    match fill(source, &mut room) {
        Err(_) => Err(HandshakeFault::ReadFault),
        Ok(0) => Ok(None),
        Ok(4) => match four(&room) {
            flags @ 0..=3 => Ok(Some(flags >= 2)),
            _ => Err(HandshakeFault::UnknownFlags),
        },
        Ok(_) => Err(HandshakeFault::Cut { at: 0 }),
    }
}

/// Answers options until one of them ends the handshake; `short` tells whether the client takes an export without its zeros.
fn haggle<S: Source, K: Sink>(
    export: &Export,
    short: bool,
    source: &mut S,
    sink: &mut K,
) -> Result<Agreement, HandshakeFault>
    ensures haggle { IsHaggle export.now short result (S.left source.old) (S.left source.new)
        (K.taken sink.old) (K.taken sink.new) }
    ensures flushed { result ≢ Err HandshakeFault.WriteFault
        → AllFlushed (K.taken sink.old) (K.flushed sink.old)
        → AllFlushed (K.taken sink.new) (K.flushed sink.new) }
    ensures read_fault { IsErrOf result HandshakeFault.ReadFault
        → Rose S.last (S.faults source.old) (S.faults source.new) }
    ensures write_fault { IsErrOf result HandshakeFault.WriteFault
        → Rose K.last (K.faults sink.old) (K.faults sink.new) }
    ensures calm_source { result ≢ Err HandshakeFault.ReadFault
        → S.faults source.new ≡ S.faults source.old }
    ensures calm_sink { result ≢ Err HandshakeFault.WriteFault
        → K.faults sink.new ≡ K.faults sink.old }
{
    let mut place = 4;
    for _count in 0..MOST_OPTIONS {
        match take_turn(export, short, place, source, sink)? {
            Turn::More { len } => place += len,
            Turn::Transmit => return Ok(Agreement::Transmission),
            Turn::Leave => return Ok(Agreement::Departure),
        }
    }
    Err(HandshakeFault::TooManyOptions)
}
