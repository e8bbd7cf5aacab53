//! Which blocks of the device a request reads or writes, and which bytes of each.
ghost use Rattle.std.specs.Prelude.{◌≡◌, ℕ, ◌+◌, ◌*◌, ◌^◌, ◌≤◌, ◌<◌, ◌-◌, min};
ghost use Rattle.store_front.specs.Blocks.{first_of, end_of, is_served, piece_of as piece_in, IsPiece, Reaches};

use crate::requests::{error, has_range};
use nbd_front::request::Request;
use quorum_rules::Config;

/// Blocks, from a first one up to an end that is none of them.
#[derive(Clone, Copy)]
pub(crate) struct Blocks {
    pub first: u32,
    pub end: u32,
}

/// How many bytes the device has.
pub(crate) fn device_len(config: &Config) -> u64
    ensures is { result ≡ config.now.size * config.now.blocks }
    ensures small { result ≤ 2 ^ 44 }
{
    u64::from(config.size()) * u64::from(config.blocks())
}

/// Whether a request reads or changes bytes, and is served.
fn is_served(config: &Config, request: &Request) -> bool
    ensures { result ≡ is_served config.now request.now }
{
    has_range(request.kind) && error(request, device_len(config)) == 0 && request.len > 0
}

/// The blocks of which a request reads or changes a byte. None where it does neither, or isn't served.
pub(crate) fn blocks_of(config: &Config, request: &Request) -> Blocks
    ensures first { result.first ≡ first_of config.now request.now }
    ensures end { result.end ≡ end_of config.now request.now }
    ensures order { result.first ≤ result.end }
    ensures within { result.end ≤ config.now.blocks }
    ensures most { result.end ≤ 268435456 }
    ensures reached { (k : ℕ) → result.first ≤ k → k < result.end → Reaches config.now request.now k }
{
    if !is_served(config, request) {
        return Blocks { first: 0, end: 0 };
    }
    let size = u64::from(config.size());
    let end = request.offset + u64::from(request.len);
    Blocks {
        first: (request.offset / size) as u32,
        end: end.div_ceil(size) as u32,
    }
}

/// A request's bytes of one block: from where to where they stand in the block, and among all bytes of the request.
#[derive(Clone, Copy)]
pub(crate) struct Piece {
    pub at: usize,
    pub end: usize,
    pub from: usize,
    pub to: usize,
}

/// A request's bytes of a block that it reads or writes.
pub(crate) fn piece_of(config: &Config, request: &Request, block: u32) -> Piece
    requires { Reaches config.now request.now block }
    ensures is { result ≡ piece_in config.now request.now block }
    ensures fits { IsPiece config.now.size request.now.len result }
{
    let size = u64::from(config.size());
    let first = u64::from(block) * size;
    let len = u64::from(request.len);
    let end = (request.offset + len).saturating_sub(first);
    let after = (first + size).saturating_sub(request.offset);
    Piece {
        at: request.offset.saturating_sub(first) as usize,
        end: end.min(size) as usize,
        from: first.saturating_sub(request.offset) as usize,
        to: after.min(len) as usize,
    }
}
