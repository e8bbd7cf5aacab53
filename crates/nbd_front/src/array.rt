//! Ranges of a device's bytes, read and written block by block.
ghost use Rattle.std.specs.Prelude.{◌≡◌, ◌+◌, ◌-◌, ◌*◌, ◌^◌, ◌<◌, ◌≤◌, ◌++◌, length, slice_range, IfOk, OnOk};
ghost use Rattle.block_device.specs.Device.{merged};
ghost use Rattle.block_device.specs.Ranges.{is_touched};
ghost use Rattle.protocol.specs.Messages.{IsBytes};
ghost use Rattle.node_device.specs.Held.{held_at};
ghost use Rattle.nbd_front.specs.Arrays.{array_of, time_at, IsInOrder, IsWrittenUpTo, HasRead, HasWritten, HasWrittenOne};

use block_device::{Piece, blocks_of, merge, piece_of};
use cross_sum::Bytes;
use lists::NoMemory;
use node_device::NodeDevice;
use std::alloc::Global;

/// Adds the bytes of a range to a text.
pub(crate) fn read_range(
    device: NodeDevice,
    start: u64,
    len: u64,
    text: &mut Vec<u8>,
) -> Result<NodeDevice, NoMemory>
    requires order { IsInOrder device }
    requires within { start + len ≤ device.config.size * device.config.blocks }
    requires steps { device.started + 65536 < 2 ^ 32 - 1 }
    ensures text { OnOk result (text.new.items ≡ text.old.items ++ slice_range
        (array_of device.held) start (start + len)) }
    ensures read { IfOk result (HasRead 65536 device) }
{
    let config = *device.config();
    let blocks = blocks_of(&config, start, len);
    let mut device = device;
    for block in blocks.first..blocks.end {
        let piece = piece_of(&config, start, len, block);
        let (next, value) = device.read(block)?;
        text.extend_from_slice(&value.as_slice()[piece.at..piece.end])?;
        device = next;
    }
    Ok(device)
}

/// Writes bytes from a place on, to each block that has one of these places.
pub(crate) fn write_range(
    alloc: Global,
    device: NodeDevice,
    start: u64,
    bytes: &[u8],
) -> Result<NodeDevice, NoMemory>
    requires order { IsInOrder device }
    requires within { start + length bytes.now ≤ device.config.size * device.config.blocks }
    requires steps { device.started + 131072 < 2 ^ 32 - 1 }
    requires times { IsWrittenUpTo (2 ^ 63) device }
    ensures { IfOk result (HasWritten 131072
        (merged (array_of device.held) start bytes.now)
        (is_touched device.config.size start (length bytes.now)) device) }
{
    let config = *device.config();
    let len = bytes.len() as u64;
    let blocks = blocks_of(&config, start, len);
    let mut device = device;
    for block in blocks.first..blocks.end {
        let piece = piece_of(&config, start, len, block);
        let part = bytes_of(alloc, &bytes[piece.from..piece.to])?;
        device = write_piece(alloc, device, block, piece, part)?;
    }
    Ok(device)
}

/// Writes the bytes of a piece into its block. Where they are only a part of it, the block is read first.
fn write_piece(
    alloc: Global,
    device: NodeDevice,
    block: u32,
    piece: Piece,
    part: Bytes,
) -> Result<NodeDevice, NoMemory>
    requires order { IsInOrder device }
    requires block { block < device.config.blocks }
    requires bytes { IsBytes part }
    requires len { piece.at + length part ≡ piece.end }
    requires within { piece.end ≤ device.config.size }
    requires steps { device.started + 1 < 2 ^ 32 - 1 }
    requires times { time_at device block < 2 ^ 64 - 1 }
    ensures { IfOk result (HasWrittenOne device block
        (merged (held_at device.config device.held block).value piece.at part)) }
{
    if piece.is_whole(device.config().size()) {
        return device.write(block, part);
    }
    let (device, old) = device.read(block)?;
    let value = known(merge(alloc, &old, piece.at as u32, &part)?);
    device.write(block, value)
}

/// A string of these bytes, each of which is one.
fn bytes_of(alloc: Global, bytes: &[u8]) -> Result<Bytes, NoMemory>
    ensures value { IfOk result (λ b. b ≡ bytes.now) }
    ensures bytes { IfOk result IsBytes }
{
    Ok(known(Bytes::of(alloc, bytes)?))
}

/// The same string, of which it is known that it has bytes.
fn known(bytes: Bytes) -> Bytes
    ensures value { result ≡ bytes }
    ensures bytes { IsBytes result }
{
    let _bytes = bytes.as_slice();
    bytes
}
