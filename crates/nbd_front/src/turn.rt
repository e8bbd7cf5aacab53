//! One turn of a session: a request is read, and then carried out.
ghost use Rattle.std.specs.Prelude.{◌≡◌, ◌≢◌, ◌+◌, ◌≤◌, ◌<◌, ℕ, List, Ok, Err, None, [], length, OnOk, IfOk, IfErr, IfSome, IsErrOf};
ghost use Rattle.std.specs.Io.KnownBytes.{Consumes, IsAtEnd};
ghost use Rattle.outside_io.specs.Causes.{Rose};
ghost use Rattle.nbd_front.specs.Arrays.{array_of, IsInOrder, IsWrittenUpTo};
ghost use Rattle.nbd_front.specs.Requests.{data_len, head_len};
ghost use Rattle.nbd_front.specs.Sessions.{most_requests};
ghost use Rattle.nbd_front.specs.Servers.{HasAsked, HasCome, HasLeft, HasNotCome, HasRefreshed, HasReplied, IsAsked, IsInLife, IsPastTheLast, most_len};

use crate::answer::{answer, take_data};
use crate::arrival::{Arrival, read_request};
use crate::ending::SessionEnd;
use crate::request::{Request, RequestKind};
use lists::NoMemory;
use node_device::NodeDevice;
use outside_io::Source;
use std::alloc::Global;

/// The most requests of a session.
const MOST: u64 = 1 << 31;

/// How many requests a client serves before another one takes its place.
const LIFE: u64 = 1 << 14;

/// How many bytes a request has before its data.
const HEAD: u64 = 28;

/// A request that was read, and the error of its reply.
#[derive(Drop)]
pub(crate) struct Asked {
    pub request: Request,
    pub error: u32,
    /// The data of a write that is served.
    pub bytes: Vec<u8>,
}

impl Asked {
    /// How many bytes the request had, with its data.
    pub fn len(&self) -> u64
        ensures is { result ≡ head_len + data_len self.now.request }
        ensures most { result ≤ most_len }
    {
        HEAD + u64::from(self.request.data_len())
    }
}

/// Reads a request to a device of so many bytes; none where the client leaves or the input has ended. The session has served so many
/// requests before it, and it begins at `place`.
pub(crate) fn take_request<S: Source>(
    alloc: Global,
    source: &mut S,
    size: u64,
    served: u64,
    place: u64,
) -> Result<Option<Asked>, SessionEnd>
    requires { served ≤ most_requests }
    ensures some { IfOk result (λ found. IfSome found
        (HasAsked size served (S.left source.old) (S.left source.new))) }
    ensures none { result ≡ Ok None
        → HasLeft served place (S.left source.old) (S.left source.new) }
    ensures end { IfErr result
        (λ end. HasNotCome end served place (S.left source.old) (S.left source.new)) }
    ensures fault { IsErrOf result SessionEnd.ReadFault
        → Rose S.last (S.faults source.old) (S.faults source.new) }
    ensures calm { result ≢ Err SessionEnd.ReadFault → S.faults source.new ≡ S.faults source.old }
{
    let Some(request) = next_request(alloc, source, served, place)? else {
        return Ok(None);
    };
    if request.asks() == RequestKind::Leave {
        return Ok(None);
    }
    let error = request.error(size);
    let bytes = take_data(alloc, source, &request, error, place)?;
    Ok(Some(Asked {
        request,
        error,
        bytes,
    }))
}

/// Does what a request asks, and makes the reply to it. The device has served so many before it.
pub(crate) fn carry_out(
    alloc: Global,
    device: NodeDevice,
    asked: &Asked,
    served: u64,
) -> Result<(NodeDevice, Vec<u8>), NoMemory>
    requires asked { (bytes : List ℕ) × IsAsked (length (array_of device.held)) bytes asked.now }
    requires order { IsInOrder device }
    requires times { IsWrittenUpTo served device }
    requires life { IsInLife device served }
    requires few { served < most_requests }
    ensures { IfOk result (λ done. (bytes : List ℕ)
        → IsAsked (length (array_of device.held)) bytes asked.now
        → HasReplied served bytes device done.0 done.1.items) }
{
    let mut device = device;
    refresh(alloc, &mut device, served)?;
    answer(alloc, device, &asked.request, asked.error, &asked.bytes)
}

/// Reads a request, its data aside; none where the input has ended. The session has served so many requests before it, and it
/// begins at `place`.
fn next_request<S: Source>(
    alloc: Global,
    source: &mut S,
    served: u64,
    place: u64,
) -> Result<Option<Request>, SessionEnd>
    requires { served ≤ most_requests }
    ensures some { IfOk result (λ found.
        IfSome found (λ r. HasCome r served (S.left source.old) (S.left source.new))) }
    ensures none { result ≡ Ok None → Consumes (S.left source.old) (S.left source.new) []
        × IsAtEnd (S.left source.new) }
    ensures end { IfErr result
        (λ end. HasNotCome end served place (S.left source.old) (S.left source.new)) }
    ensures fault { IsErrOf result SessionEnd.ReadFault
        → Rose S.last (S.faults source.old) (S.faults source.new) }
    ensures calm { result ≢ Err SessionEnd.ReadFault → S.faults source.new ≡ S.faults source.old }
{
    if served == MOST {
        past_the_last(source)?;
        return Ok(None);
    }
    match read_request(alloc, source)? {
        Arrival::Nothing => Ok(None),
        Arrival::Wrong => Err(SessionEnd::BadMagic { at: place }),
        Arrival::Cut => Err(SessionEnd::CutRequest { at: place }),
        Arrival::Head(request) => Ok(Some(request)),
    }
}

/// Whether the input ends after the last request that a session may have.
fn past_the_last<S: Source>(source: &mut S) -> Result<(), SessionEnd>
    ensures ended { OnOk result (Consumes (S.left source.old) (S.left source.new) []
        × IsAtEnd (S.left source.new)) }
    ensures end { IfErr result (λ end. IsPastTheLast end (S.left source.old) (S.left source.new)) }
    ensures fault { IsErrOf result SessionEnd.ReadFault
        → Rose S.last (S.faults source.old) (S.faults source.new) }
    ensures calm { result ≢ Err SessionEnd.ReadFault → S.faults source.new ≡ S.faults source.old }
{
    let mut room = [0u8; 1];
    match source.read(&mut room) {
        Ok(0) => Ok(()),
        Ok(_) => Err(SessionEnd::TooManyRequests),
        Err(_) => Err(SessionEnd::ReadFault),
    }
}

/// Puts another client in the place of one that has served the requests of its life.
fn refresh(alloc: Global, device: &mut NodeDevice, served: u64) -> Result<(), NoMemory>
    requires life { IsInLife device.old served }
    requires few { served < most_requests }
    ensures { OnOk result (HasRefreshed served device.old device.new) }
{
    if served > 0 && served % LIFE == 0 {
        device.renew(alloc, (served / LIFE) as u32)?;
    }
    Ok(())
}
