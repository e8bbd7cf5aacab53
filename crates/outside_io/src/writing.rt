ghost use Rattle.std.specs.Prelude.{◌≡◌, ◌≤◌, OnOk, OnErr};
ghost use Rattle.outside_io.specs.Causes.{Rose};
ghost use Rattle.outside_io.specs.Written.{Adds, AllFlushed, TakesPrefix};

use crate::sink::Sink;
use crate::source::Failed;

/// Writes a text whole, handing the sink all that is left at each write, and flushes it once after the last.
pub fn write_all<K: Sink>(sink: &mut K, text: &[u8]) -> Result<(), Failed>
    ensures whole { OnOk result (Adds (K.taken sink.old) (K.taken sink.new) text.now) }
    ensures flushed { OnOk result (AllFlushed (K.taken sink.new) (K.flushed sink.new)) }
    ensures prefix { TakesPrefix (K.taken sink.old) (K.taken sink.new) text.now }
    ensures unflushed { OnErr result (K.flushed sink.new ≡ K.flushed sink.old) }
    ensures cause { OnErr result (Rose K.last (K.faults sink.old) (K.faults sink.new)) }
    ensures calm { OnOk result (K.faults sink.new ≡ K.faults sink.old) }
    ensures later { K.faults sink.old ≤ K.faults sink.new }
{
    let mut at = 0;
    while at < text.len() {
        at += sink.write(&text[at..])?;
    }
    sink.flush()
}
