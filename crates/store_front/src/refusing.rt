//! Writes that are refused: their data are dropped as they come.
ghost use Rattle.std.specs.Prelude.{◌≡◌, ◌≢◌, ◌⊎◌, Err, OnOk, OnErr, IfErr, IsErrOf};
ghost use Rattle.outside_io.specs.Causes.{Rose};
ghost use Rattle.outside_io.specs.Given.{GaveExactly};
ghost use Rattle.outside_io.specs.Written.{Adds, AllFlushed, TakesPrefix};
ghost use Rattle.store_front.specs.Refusals.{IsDropEnd, IsReplyEnd, refusal};

use crate::blocks::device_len;
use crate::requests::error;
use crate::writing::write_or_end;
use exact_input::drop_bytes;
use nbd_front::SessionEnd;
use nbd_front::reply::push_head;
use nbd_front::request::Request;
use outside_io::{Sink, Source};
use quorum_rules::Config;
use std::alloc::Global;

/// Drops so many bytes of data, of the request that begins at `place`.
pub(crate) fn drop_data<S: Source>(source: &mut S, len: u32, place: u64) -> Result<(), SessionEnd>
    ensures all { OnOk result (GaveExactly len (S.left source.old) (S.left source.new)) }
    ensures ends { IfErr result (IsDropEnd len place (S.left source.old) (S.left source.new)) }
    ensures fault { IsErrOf result SessionEnd.ReadFault
        → Rose S.last (S.faults source.old) (S.faults source.new) }
    ensures calm { result ≢ Err SessionEnd.ReadFault → S.faults source.new ≡ S.faults source.old }
{
    match drop_bytes(source, len) {
        Ok(true) => Ok(()),
        Ok(false) => Err(SessionEnd::CutRequest { at: place }),
        Err(_) => Err(SessionEnd::ReadFault),
    }
}

/// Writes and flushes the reply to a write that is refused.
pub(crate) fn reply_error<K: Sink>(
    alloc: Global,
    config: &Config,
    request: &Request,
    sink: &mut K,
) -> Result<(), SessionEnd>
    ensures whole { OnOk result (Adds (K.taken sink.old) (K.taken sink.new)
        (refusal config.now request.now)) }
    ensures ends { IfErr result (IsReplyEnd config.now request.now (K.taken sink.old)
        (K.taken sink.new)) }
    ensures flushed { OnOk result (AllFlushed (K.taken sink.new) (K.flushed sink.new)) }
    ensures fault { IsErrOf result SessionEnd.WriteFault
        → Rose K.last (K.faults sink.old) (K.faults sink.new) }
    ensures calm { result ≢ Err SessionEnd.WriteFault → K.faults sink.new ≡ K.faults sink.old }
{
    let mut text = Vec::new(alloc);
    push_head(
        &mut text,
        error(request, device_len(config)),
        &request.handle,
    )?;
    write_or_end(sink, &text)
}
