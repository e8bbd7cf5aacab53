//! Which blocks a range of bytes touches, and which of its bytes each of them has.
ghost use Rattle.std.specs.Prelude.{◌≡◌, ◌↔◌, ◌+◌, ◌-◌, ◌*◌, ◌≤◌, ◌<◌, ℕ, IsTrue};
ghost use Rattle.std.specs.List.{range_with_len};
ghost use Rattle.block_device.specs.Ranges.{touched_by, Reaches};
ghost use Rattle.block_device.specs.Pieces.{piece_in, IsPiece};

use quorum_rules::Config;

/// Blocks, from a first one up to an end that is none of them.
#[derive(Clone, Copy, Debug, PartialEq, Eq)]
pub struct Blocks {
    pub first: u32,
    pub end: u32,
}

/// The bytes of a range that one block has: from where to where they stand in the block, and among all bytes of the range.
#[derive(Clone, Copy, Debug, PartialEq, Eq)]
pub struct Piece {
    pub at: usize,
    pub end: usize,
    pub from: usize,
    pub to: usize,
}

impl Piece {
    /// Whether it is all of a block of this size.
    pub fn is_whole(&self, size: u32) -> bool
        ensures { IsTrue result ↔ ((self.now.at ≡ 0) × (self.now.end ≡ size)) }
    {
        self.at == 0 && self.end == size as usize
    }
}

/// How many bytes the device has.
pub fn device_len(config: &Config) -> u64
    ensures is { result ≡ config.now.size * config.now.blocks }
    ensures small { result ≤ 17592186044416 }
{
    u64::from(config.size()) * u64::from(config.blocks())
}

/// The blocks of which a range has a byte.
pub fn blocks_of(config: &Config, start: u64, len: u64) -> Blocks
    requires { start + len ≤ config.now.size * config.now.blocks }
    ensures touched { touched_by config.now start len
        ≡ range_with_len result.first (result.end - result.first) }
    ensures order { result.first ≤ result.end }
    ensures begins { result.first * config.now.size ≤ start }
    ensures ends { 0 < len → start + len ≤ result.end * config.now.size }
    ensures within { result.end ≤ config.now.blocks }
    ensures most { result.end ≤ 268435456 }
    ensures reached { (k : ℕ) → result.first ≤ k → k < result.end → Reaches config.now start len k }
{
    let size = u64::from(config.size());
    if len == 0 {
        return Blocks { first: 0, end: 0 };
    }
    let last = start + len - 1;
    Blocks {
        first: (start / size) as u32,
        end: (last / size) as u32 + 1,
    }
}

/// The bytes of a range that a block has of which it has some.
pub fn piece_of(config: &Config, start: u64, len: u64, block: u32) -> Piece
    requires { Reaches config.now start len block }
    ensures is { result ≡ piece_in config.now.size start len block }
    ensures fits { IsPiece config.now.size len result }
{
    let size = u64::from(config.size());
    let first = u64::from(block) * size;
    let end = (start + len).saturating_sub(first);
    let after = (first + size).saturating_sub(start);
    Piece {
        at: start.saturating_sub(first) as usize,
        end: end.min(size) as usize,
        from: first.saturating_sub(start) as usize,
        to: after.min(len) as usize,
    }
}
