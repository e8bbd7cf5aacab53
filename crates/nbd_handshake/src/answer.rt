//! The answer to an option.
ghost use Rattle.std.specs.Prelude.{◌≡◌, ◌≢◌, ◌≤◌, ℕ, List, length, OnOk, IfOk, OnErr, IfErr};
ghost use Rattle.outside_io.specs.Causes.{Rose};
ghost use Rattle.outside_io.specs.Written.{Adds, AllFlushed, TakesPrefix};
ghost use Rattle.nbd_handshake.specs.Options.{course_of};
ghost use Rattle.nbd_handshake.specs.Replies.{reply_to};
ghost use Rattle.nbd_handshake.specs.Steps.{asked, IsTaken};

use crate::arrival::Head;
use crate::course::Course;
use crate::ending::HandshakeFault;
use crate::export::Export;
use crate::query::{ABORT, ACK, EXPORT_NAME, GO, LIST};
use crate::reply::{details, last, listing, start};
use outside_io::{Sink, write_all};

impl Head {
    /// How the handshake goes on behind an option whose last reply is of this kind.
    pub fn course(&self, kind: u32) -> Course
        ensures { (bytes : List ℕ) → IsTaken self.now kind bytes
            → result ≡ course_of (asked self.now bytes) }
    {
        match self.number {
            EXPORT_NAME if self.len == 0 => Course::Transmit,
            EXPORT_NAME => Course::Unknown,
            ABORT => Course::Leave,
            GO if kind == ACK => Course::Transmit,
            _ => Course::More,
        }
    }
}

/// Writes and flushes the replies to an option, the last of which is of this kind.
pub(crate) fn reply<K: Sink>(
    export: &Export,
    short: bool,
    head: &Head,
    kind: u32,
    sink: &mut K,
) -> Result<(), HandshakeFault>
    requires known { (bytes : List ℕ) × IsTaken head.now kind bytes
        × (course_of (asked head.now bytes) ≢ Course.Unknown) }
    ensures whole { OnOk result ((bytes : List ℕ) → IsTaken head.now kind bytes
        → Adds (K.taken sink.old) (K.taken sink.new)
        (reply_to export.now short (asked head.now bytes))) }
    ensures prefix { (bytes : List ℕ) → IsTaken head.now kind bytes
        → TakesPrefix (K.taken sink.old) (K.taken sink.new)
        (reply_to export.now short (asked head.now bytes)) }
    ensures flushed { OnOk result (AllFlushed (K.taken sink.new) (K.flushed sink.new)) }
    ensures fault { IfErr result (λ fault. fault ≡ HandshakeFault.WriteFault) }
    ensures cause { OnErr result (Rose K.last (K.faults sink.old) (K.faults sink.new)) }
    ensures calm { OnOk result (K.faults sink.new ≡ K.faults sink.old) }
{
    if head.number == EXPORT_NAME {
        let text = start(export);
        let len = if short { 10 } else { text.len() };
        return send(sink, &text[..len]);
    }
    if kind != ACK {
        return send(sink, &last(head.number, kind));
    }
    if head.asks_about() {
        return send(sink, &details(export, head.number));
    }
    if head.number == LIST {
        return send(sink, &listing());
    }
    send(sink, &last(head.number, ACK))
}

/// Writes and flushes a text.
pub(crate) fn send<K: Sink>(sink: &mut K, text: &[u8]) -> Result<(), HandshakeFault>
    ensures whole { OnOk result (Adds (K.taken sink.old) (K.taken sink.new) text.now) }
    ensures flushed { OnOk result (AllFlushed (K.taken sink.new) (K.flushed sink.new)) }
    ensures prefix { TakesPrefix (K.taken sink.old) (K.taken sink.new) text.now }
    ensures fault { IfErr result (λ fault. fault ≡ HandshakeFault.WriteFault) }
    ensures cause { OnErr result (Rose K.last (K.faults sink.old) (K.faults sink.new)) }
    ensures calm { OnOk result (K.faults sink.new ≡ K.faults sink.old) }
{
    match write_all(sink, text) {
        Ok(()) => Ok(()),
        Err(_) => Err(HandshakeFault::WriteFault),
    }
}
