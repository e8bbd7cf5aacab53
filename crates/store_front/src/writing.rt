//! Texts that are written whole.
ghost use Rattle.std.specs.Prelude.{◌≡◌, OnOk, OnErr, IfErr};
ghost use Rattle.outside_io.specs.Causes.{Rose};
ghost use Rattle.outside_io.specs.Written.{Adds, AllFlushed, TakesPrefix};

use nbd_front::SessionEnd;
use outside_io::{Sink, write_all};

/// Writes and flushes a text.
pub(crate) fn write_or_end<K: Sink>(sink: &mut K, text: &[u8]) -> Result<(), SessionEnd>
    ensures whole { OnOk result (Adds (K.taken sink.old) (K.taken sink.new) text.now) }
    ensures flushed { OnOk result (AllFlushed (K.taken sink.new) (K.flushed sink.new)) }
    ensures prefix { TakesPrefix (K.taken sink.old) (K.taken sink.new) text.now }
    ensures end { IfErr result (λ end. end ≡ SessionEnd.WriteFault) }
    ensures cause { OnErr result (Rose K.last (K.faults sink.old) (K.faults sink.new)) }
    ensures calm { OnOk result (K.faults sink.new ≡ K.faults sink.old) }
{
    match write_all(sink, text) {
        Ok(()) => Ok(()),
        Err(_) => Err(SessionEnd::WriteFault),
    }
}
