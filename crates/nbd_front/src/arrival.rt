ghost use Rattle.std.specs.Prelude.{◌≡◌, ◌≢◌, ◌≤◌, Err, IfOk, IsErrOf};
ghost use Rattle.outside_io.specs.Causes.{Rose};
ghost use Rattle.outside_io.specs.Given.{GaveAtMost};
ghost use Rattle.nbd_front.specs.Arrivals.{HasArrived, HasBegun};
ghost use Rattle.nbd_front.specs.Requests.{head_len};

use crate::filling::{TakeRefusal, take_bytes};
use crate::request::{Request, four};
use outside_io::Source;
use std::alloc::Global;

/// The number with which each request begins.
const MAGIC: u32 = 0x2560_9513;

/// What stands where a request would begin.
#[derive(Clone, Copy, Debug, PartialEq, Eq)]
pub enum Arrival {
    /// The input has ended.
    Nothing,
    /// Four bytes that begin no request. No more were read.
    Wrong,
    /// The input has ended before all of a request's bytes, its data aside, were there.
    Cut,
    /// A request. Its data are still to be read.
    Head(Request),
}

/// Reads a request, its data aside.
pub fn read_request<S: Source>(alloc: Global, source: &mut S) -> Result<Arrival, TakeRefusal>
    ensures arrival { IfOk result (λ arrival.
        HasArrived (S.left source.old) (S.left source.new) arrival) }
    ensures fault { IsErrOf result TakeRefusal.ReadFault
        → Rose S.last (S.faults source.old) (S.faults source.new) }
    ensures begun { IsErrOf result TakeRefusal.ReadFault
        → HasBegun (S.left source.old) (S.left source.new) }
    ensures most { IsErrOf result TakeRefusal.NoMemory
        → GaveAtMost head_len (S.left source.old) (S.left source.new) }
    ensures calm { result ≢ Err TakeRefusal.ReadFault → S.faults source.new ≡ S.faults source.old }
    ensures later { S.faults source.old ≤ S.faults source.new }
{
    let magic = take_bytes(alloc, source, 4)?;
    if magic.is_empty() {
        return Ok(Arrival::Nothing);
    }
    if magic.len() < 4 {
        return Ok(Arrival::Cut);
    }
    if four(&magic) != MAGIC {
        return Ok(Arrival::Wrong);
    }
    let rest = take_bytes(alloc, source, 24)?;
    if rest.len() < 24 {
        return Ok(Arrival::Cut);
    }
    Ok(Arrival::Head(Request::of(&rest)))
}
