//! What a request's data are, and the answer to it: its reply, and what it changes.
ghost use Rattle.std.specs.Prelude.{◌≡◌, ◌≢◌, ◌+◌, ◌-◌, ◌*◌, ◌^◌, ◌<◌, ◌++◌, Err, length, OnOk, IfOk, IfErr, IsErrOf};
ghost use Rattle.outside_io.specs.Causes.{Rose};
ghost use Rattle.nbd_front.specs.Requests.{data_len, write_kind};
ghost use Rattle.nbd_front.specs.Replies.{error_of};
ghost use Rattle.nbd_front.specs.Arrays.{array_of, IsInOrder, IsWrittenUpTo, HasRead, HasWritten};
ghost use Rattle.nbd_front.specs.Sessions.{array_after, sent_of, writes_to};
ghost use Rattle.nbd_front.specs.Answers.{most_steps, HasAnswered, HasStopped, HasTakenData};

use crate::array::{read_range, write_range};
use crate::ending::SessionEnd;
use crate::filling::{drop_bytes, take_bytes};
use crate::reply::push_head;
use crate::request::{Request, RequestKind};
use lists::NoMemory;
use node_device::NodeDevice;
use outside_io::Source;
use std::alloc::Global;

/// Reads the data of a request with this error, which begins at `place`. It gives those of a write that is served; others are
/// dropped.
pub(crate) fn take_data<S: Source>(
    alloc: Global,
    source: &mut S,
    request: &Request,
    error: u32,
    place: u64,
) -> Result<Vec<u8>, SessionEnd>
    ensures taken { IfOk result (λ taken.
        HasTakenData request.now error (S.left source.old) (S.left source.new) taken.items) }
    ensures stopped { IfErr result
        (λ end. HasStopped request.now place (S.left source.old) (S.left source.new) end) }
    ensures fault { IsErrOf result SessionEnd.ReadFault
        → Rose S.last (S.faults source.old) (S.faults source.new) }
    ensures calm { result ≢ Err SessionEnd.ReadFault → S.faults source.new ≡ S.faults source.old }
{
    if error == 0 && request.asks() == RequestKind::Write {
        let bytes = take_bytes(alloc, source, request.len)?;
        if bytes.len() < request.len as usize {
            return Err(SessionEnd::CutRequest { at: place });
        }
        return Ok(bytes);
    }
    match drop_bytes(source, request.data_len()) {
        Ok(true) => Ok(Vec::new(alloc)),
        Ok(false) => Err(SessionEnd::CutRequest { at: place }),
        Err(_) => Err(SessionEnd::ReadFault),
    }
}

/// Does what a request with this error asks, and makes the reply to it. The bytes are the data of a write that is served.
pub(crate) fn answer(
    alloc: Global,
    device: NodeDevice,
    request: &Request,
    error: u32,
    bytes: &[u8],
) -> Result<(NodeDevice, Vec<u8>), NoMemory>
    requires error { error ≡ error_of (length (array_of device.held)) request.now }
    requires bytes { request.now.kind ≡ write_kind → error ≡ 0
        → length bytes.now ≡ request.now.len }
    requires order { IsInOrder device }
    requires steps { device.started + most_steps < 2 ^ 32 - 1 }
    requires times { IsWrittenUpTo (2 ^ 63) device }
    ensures { IfOk result (λ done.
        HasAnswered request.now bytes.now device done.0 done.1.items) }
{
    let mut reply = Vec::new(alloc);
    push_head(&mut reply, error, &request.handle)?;
    let device = push_range(device, request, error, &mut reply)?;
    let device = put_data(alloc, device, request, error, bytes)?;
    Ok((device, reply))
}

/// Adds the data of the reply to a request with this error.
fn push_range(
    device: NodeDevice,
    request: &Request,
    error: u32,
    reply: &mut Vec<u8>,
) -> Result<NodeDevice, NoMemory>
    requires error { error ≡ error_of (length (array_of device.held)) request.now }
    requires order { IsInOrder device }
    requires steps { device.started + 65536 < 2 ^ 32 - 1 }
    ensures sent { OnOk result (reply.new.items ≡ reply.old.items ++ sent_of
        (array_of device.held) request.now) }
    ensures read { IfOk result (HasRead 65536 device) }
{
    if error == 0 && request.asks() == RequestKind::Read {
        return read_range(device, request.offset, u64::from(request.len), reply);
    }
    Ok(device)
}

/// Writes the data of a write with this error.
fn put_data(
    alloc: Global,
    device: NodeDevice,
    request: &Request,
    error: u32,
    bytes: &[u8],
) -> Result<NodeDevice, NoMemory>
    requires error { error ≡ error_of (length (array_of device.held)) request.now }
    requires bytes { request.now.kind ≡ write_kind → error ≡ 0
        → length bytes.now ≡ request.now.len }
    requires order { IsInOrder device }
    requires steps { device.started + 131072 < 2 ^ 32 - 1 }
    requires times { IsWrittenUpTo (2 ^ 63) device }
    ensures { IfOk result (HasWritten 131072
        (array_after (array_of device.held) request.now bytes.now)
        (writes_to device.config request.now) device) }
{
    if error == 0 && request.asks() == RequestKind::Write {
        return write_range(alloc, device, request.offset, bytes);
    }
    Ok(device)
}
