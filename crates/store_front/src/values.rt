//! The values that blocks are left with by writes.
ghost use Rattle.std.specs.Prelude.{◌≡◌, ◌+◌, ◌-◌, ◌≤◌, [], length, replicate, IfOk, OnOk, IfSome, All};
ghost use Rattle.std.specs.Option.{option_copied};
ghost use Rattle.block_device.specs.Device.{merged};
ghost use Rattle.store_front.specs.Blocks.{Reaches};
ghost use Rattle.store_front.specs.Rounds.{IsAsked, requests_of, value_after, value_with, left_at, left_by, values_left};
ghost use Rattle.store_front.specs.Values.{AreBlocks, read_of, with_values};

use crate::blocks::{Piece, blocks_of, piece_of};
use crate::operations::{Values, put_value, value_in};
use crate::requests::{WRITE, changes};
use crate::round::Asked;
use crate::standing::HEAD;
use cross_sum::Bytes;
use lists::{Copied, NoMemory};
use quorum_rules::Config;
use std::alloc::Global;
use std::collections::BTreeMap;

/// The values to be written to blocks for the requests of a round. A block of which only a part is changed has none
/// where it wasn't read.
pub(crate) fn values_of(
    alloc: Global,
    config: &Config,
    asked: &[Asked<'_>],
    found: &Values,
) -> Result<Values, NoMemory>
    requires found { AreBlocks config.now found.now }
    requires asked { All IsAsked asked.now }
    ensures values { IfOk result (λ values. values.entries
        ≡ values_left config.now (read_of found.now) (requests_of asked.now)) }
    ensures blocks { IfOk result (λ values. AreBlocks config.now values) }
{
    let zeros = Bytes::zeros(alloc, config.size() as usize)?;
    let mut values = BTreeMap::new(alloc);
    for one in asked {
        put_values(alloc, config, one, &zeros, found, &mut values)?;
    }
    Ok(values)
}

/// Adds the values to be written for a request, where it changes bytes. `zeros` are those of a whole block.
fn put_values(
    alloc: Global,
    config: &Config,
    asked: &Asked<'_>,
    zeros: &Bytes,
    found: &Values,
    values: &mut Values,
) -> Result<(), NoMemory>
    requires zeros { zeros.now ≡ replicate config.now.size 0 }
    requires found { AreBlocks config.now found.now }
    requires values { AreBlocks config.now values.old }
    requires asked { IsAsked asked.now }
    ensures put { OnOk result (values.new.entries ≡ with_values values.old.entries
        (left_by config.now (read_of found.now) asked.now.bytes.now)) }
    ensures blocks { OnOk result (AreBlocks config.now values.new) }
{
    if !changes(asked.request.kind) {
        return Ok(());
    }
    let blocks = blocks_of(config, &asked.request);
    for block in blocks.first..blocks.end {
        put_block(alloc, config, asked, block, zeros, found, values)?;
    }
    Ok(())
}

/// Adds the value to be written to a block for a request.
fn put_block(
    alloc: Global,
    config: &Config,
    asked: &Asked<'_>,
    block: u32,
    zeros: &Bytes,
    found: &Values,
    values: &mut Values,
) -> Result<(), NoMemory>
    requires reaches { Reaches config.now asked.now.request block }
    requires zeros { zeros.now ≡ replicate config.now.size 0 }
    requires found { AreBlocks config.now found.now }
    requires values { AreBlocks config.now values.old }
    requires asked { IsAsked asked.now }
    ensures put { OnOk result (values.new.entries ≡ with_values values.old.entries
        (left_at config.now (read_of found.now) asked.now.bytes.now block)) }
    ensures blocks { OnOk result (AreBlocks config.now values.new) }
{
    let Some(value) = value_of(alloc, config, asked, block, zeros, value_in(found, block))? else {
        return Ok(());
    };
    put_value(values, config, block, value)
}

/// The value with which a request leaves a block that held this one; none where it changes a part of it, and that isn't
/// known.
fn value_of(
    alloc: Global,
    config: &Config,
    asked: &Asked<'_>,
    block: u32,
    zeros: &Bytes,
    old: Option<&Bytes>,
) -> Result<Option<Bytes>, NoMemory>
    requires reaches { Reaches config.now asked.now.request block }
    requires asked { IsAsked asked.now }
    requires zeros { zeros.now ≡ replicate config.now.size 0 }
    requires old { IfSome old (λ value. length value.now ≡ config.now.size) }
    ensures value { IfOk result (λ value. value
        ≡ value_after config.now asked.now.bytes.now block (option_copied old.entry)) }
    ensures sized { IfOk result (λ value. IfSome value (λ bytes. length bytes ≡ config.now.size)) }
{
    let piece = piece_of(config, &asked.request, block);
    if asked.request.kind != WRITE {
        return cleared(alloc, config, piece, zeros, old);
    }
    let bytes = &asked.bytes[HEAD + piece.from..HEAD + piece.to];
    if bytes.len() == config.size() as usize {
        return Ok(Some(Bytes::of(alloc, bytes)?));
    }
    match old {
        None => Ok(None),
        Some(old) => Ok(Some(merged(alloc, old, piece.at, bytes)?)),
    }
}

/// The value of a block that held this one, with zeros in a piece of it.
fn cleared(
    alloc: Global,
    config: &Config,
    piece: Piece,
    zeros: &Bytes,
    old: Option<&Bytes>,
) -> Result<Option<Bytes>, NoMemory>
    requires piece { piece.from ≤ piece.to }
    requires fits { piece.at + (piece.to - piece.from) ≤ config.now.size }
    requires zeros { zeros.now ≡ replicate config.now.size 0 }
    requires old { IfSome old (λ value. length value.now ≡ config.now.size) }
    ensures value { IfOk result (λ value. value ≡ value_with config.now piece.at
        (replicate (piece.to - piece.from) 0) (option_copied old.entry)) }
    ensures sized { IfOk result (λ value. IfSome value (λ bytes. length bytes ≡ config.now.size)) }
{
    let len = piece.to - piece.from;
    if len == config.size() as usize {
        return Ok(Some(zeros.copy()?));
    }
    match old {
        None => Ok(None),
        Some(old) => Ok(Some(merged(alloc, old, piece.at, &zeros.as_slice()[..len])?)),
    }
}

/// A block's value with other bytes from a place on, which end within it.
#[tactic(auto, unfolding(block_device::specs::Device::merged))]
fn merged(alloc: Global, old: &Bytes, at: usize, bytes: &[u8]) -> Result<Bytes, NoMemory>
    requires { at + length bytes.now ≤ length old.now }
    ensures value { IfOk result (λ value. value ≡ merged old.now at bytes.now) }
    ensures len { IfOk result (λ value. length value ≡ length old.now) }
{
    let mut value = Vec::with_capacity(alloc, old.len())?;
    value.extend_from_slice(&old.as_slice()[..at])?;
    value.extend_from_slice(bytes)?;
    value.extend_from_slice(old.tail(at + bytes.len()))?;
    Bytes::shared(value)
}
