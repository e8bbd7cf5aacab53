ghost use Rattle.std.specs.Prelude.{◌≡◌, IfOk, length};
ghost use Rattle.gf_field.specs.Fragments.{AreParts, string_len};
ghost use Rattle.cross_sum.specs.Parts.{numbers, strings};

use cross_sum::{Bytes, NoMemory, Part};
use std::alloc::Global;

pub fn part(alloc: Global, number: u8, bytes: &[u8]) -> Result<Part, NoMemory>
    ensures number { IfOk result (λ part. part.number ≡ number) }
    ensures bytes { IfOk result (λ part. part.bytes ≡ bytes.now) }
{
    let bytes = Bytes::of(alloc, bytes)?;
    Ok(Part { number, bytes })
}

fn are_these(shares: &[Bytes], expected: &[&[u8]]) -> bool {
    for (share, bytes) in shares.iter().zip(expected) {
        if share.as_slice() != *bytes {
            return false;
        }
    }
    shares.len() == expected.len()
}

/// How many fragments there are and how many of them give the block, blocks, and their fragments. The last row of the last block
/// is padded.
const BLOCKS: &[(u32, u32, &[u8], &[&[u8]])] = &[
    (
        5,
        2,
        &[0x01, 0x00],
        &[&[0x01], &[0x00], &[0x03], &[0x02], &[0x05]],
    ),
    (
        5,
        2,
        &[0x80, 0x00],
        &[&[0x80], &[0x00], &[0x9d], &[0x1d], &[0xba]],
    ),
    (3, 2, &[1, 2, 3], &[&[1, 2], &[3, 0], &[5, 6]]),
];

fn plain_gives(
    alloc: Global,
    n: u32,
    m: u32,
    block: &Bytes,
    expected: &[&[u8]],
) -> Result<bool, NoMemory> {
    let Some(code) = ida_code::Code::new(n, m) else {
        return Ok(false);
    };
    let shares = code.encode(alloc, block)?;
    Ok(are_these(shares.as_slice(), expected))
}

fn lanes_give(
    alloc: Global,
    n: u32,
    m: u32,
    block: &Bytes,
    expected: &[&[u8]],
) -> Result<bool, NoMemory> {
    let Some(code) = ida_lanes::Code::new(n, m) else {
        return Ok(false);
    };
    let shares = code.encode(alloc, block)?;
    Ok(are_these(shares.as_slice(), expected))
}

fn both_give(
    alloc: Global,
    n: u32,
    m: u32,
    block: &[u8],
    expected: &[&[u8]],
) -> Result<bool, NoMemory> {
    let block = Bytes::of(alloc, block)?;
    Ok(plain_gives(alloc, n, m, &block, expected)? && lanes_give(alloc, n, m, &block, expected)?)
}

#[test]
fn blocks_have_their_fragments(rt: HostRuntime) {
    for (n, m, block, expected) in BLOCKS {
        let both_give = both_give(rt.alloc(), *n, *m, block, expected);
        assert!(rt; both_give == Ok(true), "{block:?}");
    }
}

fn plain_decodes(
    alloc: Global,
    n: u32,
    m: u32,
    parts: &[Part],
    block: &[u8],
) -> Result<bool, NoMemory>
    requires { AreParts n m (string_len m (length block.now)) (numbers parts.now)
        (strings parts.now) }
{
    let Some(code) = ida_code::Code::new(n, m) else {
        return Ok(false);
    };
    let found = code.decode(alloc, block.len(), parts)?;
    Ok(found.as_slice() == block)
}

fn lanes_decode(
    alloc: Global,
    n: u32,
    m: u32,
    parts: &[Part],
    block: &[u8],
) -> Result<bool, NoMemory>
    requires { AreParts n m (string_len m (length block.now)) (numbers parts.now)
        (strings parts.now) }
{
    let Some(code) = ida_lanes::Code::new(n, m) else {
        return Ok(false);
    };
    let found = code.decode(alloc, block.len(), parts)?;
    Ok(found.as_slice() == block)
}

/// Whether the parts decode to the block by both codes.
pub fn both_decode(
    alloc: Global,
    n: u32,
    m: u32,
    parts: &[Part],
    block: &[u8],
) -> Result<bool, NoMemory>
    requires { AreParts n m (string_len m (length block.now)) (numbers parts.now)
        (strings parts.now) }
{
    Ok(plain_decodes(alloc, n, m, parts, block)? && lanes_decode(alloc, n, m, parts, block)?)
}

fn two_of_five_decode(alloc: Global) -> Result<bool, NoMemory> {
    let parts = [part(alloc, 3, &[0x1d])?, part(alloc, 4, &[0xba])?];
    both_decode(alloc, 5, 2, &parts, &[0x80, 0x00])
}

fn padded_rows_decode(alloc: Global) -> Result<bool, NoMemory> {
    let parts = [part(alloc, 2, &[5, 6])?, part(alloc, 0, &[1, 2])?];
    both_decode(alloc, 3, 2, &parts, &[1, 2, 3])
}

#[test]
fn two_fragments_give_the_block(rt: HostRuntime) {
    let two_of_five = two_of_five_decode(rt.alloc());
    let padded = padded_rows_decode(rt.alloc());
    assert!(rt; two_of_five == Ok(true) && padded == Ok(true));
}
