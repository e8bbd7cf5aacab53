//! One turn of a handshake: an option is read and answered.
ghost use Rattle.std.specs.Prelude.{◌≡◌, ◌≢◌, ℕ, List, Err, IfOk, IsErrOf};
ghost use Rattle.outside_io.specs.Causes.{Rose};
ghost use Rattle.outside_io.specs.Written.{AllFlushed};
ghost use Rattle.nbd_handshake.specs.Steps.{HasStepped, IsAnsweredSo, IsNear, IsTaken};

use crate::answer::reply;
use crate::arrival::{Arrival, Head, read_head};
use crate::course::Course;
use crate::ending::HandshakeFault;
use crate::export::Export;
use crate::query::take_data;
use outside_io::{Sink, Source};

/// How many bytes an option has before its data.
const HEAD: u64 = 16;

/// How a handshake goes on.
#[derive(Clone, Copy)]
pub(crate) enum Turn {
    /// An option of so many bytes was answered, and another one may follow.
    More { len: u64 },
    /// Transmission begins.
    Transmit,
    /// The client has left.
    Leave,
}

/// Reads and answers the option that begins at a place; `short` tells whether the client takes an export without its zeros.
pub(crate) fn take_turn<S: Source, K: Sink>(
    export: &Export,
    short: bool,
    place: u64,
    source: &mut S,
    sink: &mut K,
) -> Result<Turn, HandshakeFault>
    ensures step { HasStepped export.now short place (S.left source.old) (S.left source.new)
        (K.taken sink.old) (K.taken sink.new) result }
    ensures near { IfOk result IsNear }
    ensures flushed { result ≢ Err HandshakeFault.WriteFault
        → AllFlushed (K.taken sink.old) (K.flushed sink.old)
        → AllFlushed (K.taken sink.new) (K.flushed sink.new) }
    ensures read_fault { IsErrOf result HandshakeFault.ReadFault
        → Rose S.last (S.faults source.old) (S.faults source.new) }
    ensures write_fault { IsErrOf result HandshakeFault.WriteFault
        → Rose K.last (K.faults sink.old) (K.faults sink.new) }
    ensures calm_source { result ≢ Err HandshakeFault.ReadFault
        → S.faults source.new ≡ S.faults source.old }
    ensures calm_sink { result ≢ Err HandshakeFault.WriteFault
        → K.faults sink.new ≡ K.faults sink.old }
{
    let head = match read_head(source) {
        Err(_) => return Err(HandshakeFault::ReadFault),
        Ok(Arrival::Nothing) => return Ok(Turn::Leave),
        Ok(Arrival::Wrong) => return Err(HandshakeFault::BadMagic { at: place }),
        Ok(Arrival::Cut) => return Err(HandshakeFault::Cut { at: place }),
        Ok(Arrival::Head(head)) => head,
    };
    match take_data(source, &head) {
        Err(_) => Err(HandshakeFault::ReadFault),
        Ok(None) => Err(HandshakeFault::Cut { at: place }),
        Ok(Some(kind)) => answer(export, short, place, &head, kind, sink),
    }
}

/// Answers an option that begins at a place, the last reply to which is of this kind.
fn answer<K: Sink>(
    export: &Export,
    short: bool,
    place: u64,
    head: &Head,
    kind: u32,
    sink: &mut K,
) -> Result<Turn, HandshakeFault>
    requires taken { (bytes : List ℕ) × IsTaken head.now kind bytes }
    ensures answered { (bytes : List ℕ) → IsTaken head.now kind bytes
        → IsAnsweredSo export.now short place head.now bytes (K.taken sink.old)
        (K.taken sink.new) result }
    ensures near { IfOk result IsNear }
    ensures flushed { result ≢ Err HandshakeFault.WriteFault
        → AllFlushed (K.taken sink.old) (K.flushed sink.old)
        → AllFlushed (K.taken sink.new) (K.flushed sink.new) }
    ensures unread { result ≢ Err HandshakeFault.ReadFault }
    ensures write_fault { IsErrOf result HandshakeFault.WriteFault
        → Rose K.last (K.faults sink.old) (K.faults sink.new) }
    ensures calm_sink { result ≢ Err HandshakeFault.WriteFault
        → K.faults sink.new ≡ K.faults sink.old }
{
    let course = head.course(kind);
    if course == Course::Unknown {
        return Err(HandshakeFault::UnknownExport { at: place });
    }
    reply(export, short, head, kind, sink)?;
    match course {
        Course::More => Ok(Turn::More {
            len: HEAD + u64::from(head.len),
        }),
        Course::Transmit => Ok(Turn::Transmit),
        Course::Leave | Course::Unknown => Ok(Turn::Leave),
    }
}
