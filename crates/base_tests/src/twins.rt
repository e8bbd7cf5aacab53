ghost use Rattle.std.specs.Prelude.{◌≡◌, ◌<◌, IfOk, IfSome, length};
ghost use Rattle.gf_field.specs.Fragments.{AreParts};
ghost use Rattle.cross_sum.specs.Parts.{numbers, strings};

use crate::vectors::both_decode;
use cross_sum::{Bytes, NoMemory, Part, Shares};
use lists::{Copied, ItemList};
use std::alloc::Global;

/// The shares of these numbers as parts: none unless the numbers are `m` ascending ones below `n`,
/// each of a share of `len` bytes.
fn parts_of(
    alloc: Global,
    n: u8,
    m: u8,
    len: usize,
    chosen: &[u8],
    shares: &[Bytes],
) -> Result<Option<ItemList<Part>>, NoMemory>
    ensures { IfOk result (λ found.
        IfSome found (λ parts. AreParts n m len (numbers parts) (strings parts))) }
{
    let mut parts = ItemList::new(alloc);
    let mut least = 0;
    for number in chosen {
        if *number < least || n <= *number {
            return Ok(None);
        }
        let Some(share) = shares.get(*number as usize) else {
            return Ok(None);
        };
        if share.len() != len {
            return Ok(None);
        }
        let bytes = share.copy()?;
        parts.push(Part {
            number: *number,
            bytes,
        })?;
        least = *number + 1;
    }
    if parts.len() != m as usize {
        return Ok(None);
    }
    Ok(Some(parts))
}

/// The numbers of the bits of a mask.
fn bits(alloc: Global, mask: u32) -> Result<Vec<u8>, NoMemory> {
    let mut numbers = Vec::new(alloc);
    for k in 0..8u8 {
        if mask >> k & 1 == 1 {
            numbers.push(k)?;
        }
    }
    Ok(numbers)
}

/// A block whose byte `j` is `(7j + 3) mod 256`.
fn block_of(alloc: Global, size: usize) -> Result<Bytes, NoMemory>
    ensures { IfOk result (λ block. length block ≡ size) }
{
    let mut bytes = Vec::with_capacity(alloc, size)?;
    let mut byte = 3u8;
    for _ in 0..size {
        bytes.push(byte)?;
        byte = byte.wrapping_add(7);
    }
    Bytes::shared(bytes)
}

/// Whether the shares of a mask's numbers give the block by both codes: none where these are not `m` of the shares.
fn decodes(
    alloc: Global,
    n: u8,
    m: u8,
    mask: u32,
    block: &Bytes,
    shares: &[Bytes],
) -> Result<Option<bool>, NoMemory> {
    if m == 0 {
        return Ok(None);
    }
    let chosen = bits(alloc, mask)?;
    let len = block.len().div_ceil(m as usize);
    let Some(parts) = parts_of(alloc, n, m, len, chosen.as_slice(), shares)? else {
        return Ok(None);
    };
    let decodes = both_decode(
        alloc,
        n as u32,
        m as u32,
        parts.as_slice(),
        block.as_slice(),
    )?;
    Ok(Some(decodes))
}

/// How many choices of `m` shares give back the block, and how many do not.
fn counted(
    alloc: Global,
    n: u8,
    m: u8,
    block: &Bytes,
    shares: &[Bytes],
) -> Result<(u32, u32), NoMemory> {
    let mut good = 0u32;
    let mut bad = 0u32;
    for mask in 0..64u32 {
        match decodes(alloc, n, m, mask, block, shares)? {
            Some(true) => good = good.wrapping_add(1),
            Some(false) => bad = bad.wrapping_add(1),
            None => {}
        }
    }
    Ok((good, bad))
}

fn lanes_shares(alloc: Global, n: u8, m: u8, block: &Bytes) -> Result<Shares, NoMemory> {
    match ida_lanes::Code::new(n as u32, m as u32) {
        Some(code) => code.encode(alloc, block),
        None => Ok(Shares::new(alloc)),
    }
}

/// The same of a block of this size.
fn decoded(alloc: Global, n: u8, m: u8, size: usize) -> Result<(u32, u32), NoMemory> {
    let block = block_of(alloc, size)?;
    let shares = lanes_shares(alloc, n, m, &block)?;
    counted(alloc, n, m, &block, shares.as_slice())
}

/// The same of blocks of up to 40 bytes and of up to six shares.
fn all_decoded(alloc: Global) -> Result<(u32, u32), NoMemory> {
    let mut total = (0u32, 0u32);
    for n in 1..=6u8 {
        for m in 1..=n {
            for size in 1..=40usize {
                let (good, bad) = decoded(alloc, n, m, size)?;
                total = (total.0.wrapping_add(good), total.1.wrapping_add(bad));
            }
        }
    }
    Ok(total)
}

#[test]
fn every_choice_of_fragments_gives_the_block(rt: HostRuntime) {
    // 2^n - 1 choices of some of n fragments, for n from 1 to 6, and 40 sizes.
    assert_eq!(rt; all_decoded(rt.alloc()), Ok((120 * 40, 0)));
}

fn plain_shares(alloc: Global, n: u8, m: u8, block: &Bytes) -> Result<Shares, NoMemory> {
    match ida_code::Code::new(n as u32, m as u32) {
        Some(code) => code.encode(alloc, block),
        None => Ok(Shares::new(alloc)),
    }
}

fn are_same(shares: &[Bytes], others: &[Bytes]) -> bool {
    for (share, other) in shares.iter().zip(others) {
        if !share.same(other) {
            return false;
        }
    }
    shares.len() == others.len()
}

/// Whether both codes give the same shares of a block, as many as there are to be.
fn same_shares(alloc: Global, n: u8, m: u8, size: usize) -> Result<bool, NoMemory> {
    let block = block_of(alloc, size)?;
    let plain = plain_shares(alloc, n, m, &block)?;
    let lanes = lanes_shares(alloc, n, m, &block)?;
    Ok(plain.len() == n as usize && are_same(plain.as_slice(), lanes.as_slice()))
}

/// How many blocks of up to 130 bytes have the same shares, for up to five shares.
fn same_count(alloc: Global) -> Result<u32, NoMemory> {
    let mut count = 0u32;
    for n in 1..=5u8 {
        for m in 1..=n {
            for size in 1..=130usize {
                if same_shares(alloc, n, m, size)? {
                    count = count.wrapping_add(1);
                }
            }
        }
    }
    Ok(count)
}

#[test]
fn both_codes_give_the_same_shares(rt: HostRuntime) {
    // 15 pairs of a number of shares and how many of them give the block, and 130 sizes.
    assert_eq!(rt; same_count(rt.alloc()), Ok(15 * 130));
}
