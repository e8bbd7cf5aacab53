ghost use Rattle.std.specs.Prelude.{◌≡◌, length};
ghost use Rattle.gf_field.specs.Fragments.{AreParts, string_len};
ghost use Rattle.cross_sum.specs.Parts.{numbers, strings};

use crate::vectors::part;
use cross_sum::{Bytes, CrossSum, Hash, NoMemory};
use frag_check::{
    Checked, Code, Part, Shares, Summed, Verdict, checked_block, summed_block, verdict_of,
};
use std::alloc::Global;

/// The fragments of a block, and their cross checksum: none where there is no such code.
fn summed(alloc: Global, n: u32, m: u32, block: &[u8]) -> Result<Option<Summed>, NoMemory> {
    let block = Bytes::of(alloc, block)?;
    match Code::new(n, m) {
        Some(code) => Ok(Some(summed_block(alloc, &code, &block)?)),
        None => Ok(None),
    }
}

/// The digest and the verifier of the cross checksum of a block's one fragment.
fn digests(alloc: Global, block: &[u8]) -> Result<Option<[Hash; 2]>, NoMemory> {
    match summed(alloc, 1, 1, block)? {
        Some(made) if made.shares.len() == 1 && made.sum.len() == 1 => {
            Ok(Some([made.sum.entry(0), made.sum.verifier()]))
        }
        _ => Ok(None),
    }
}

#[test]
fn digests_of_one_fragment(rt: HostRuntime) {
    let digest = [
        0xbau8, 0x78, 0x16, 0xbf, 0x8f, 0x01, 0xcf, 0xea, 0x41, 0x41, 0x40, 0xde, 0x5d, 0xae, 0x22,
        0x23, 0xb0, 0x03, 0x61, 0xa3, 0x96, 0x17, 0x7a, 0x9c, 0xb4, 0x10, 0xff, 0x61, 0xf2, 0x00,
        0x15, 0xad,
    ];
    let verifier = [
        0x4fu8, 0x8b, 0x42, 0xc2, 0x2d, 0xd3, 0x72, 0x9b, 0x51, 0x9b, 0xa6, 0xf6, 0x8d, 0x2d, 0xa7,
        0xcc, 0x5b, 0x2d, 0x60, 0x6d, 0x05, 0xda, 0xed, 0x5a, 0xd5, 0x12, 0x8c, 0xc0, 0x3e, 0x6c,
        0x63, 0x58,
    ];
    let digests = digests(rt.alloc(), b"abc");
    assert!(rt; digests == Ok(Some([digest, verifier])));
}

/// Whether parts show a block of two bytes under a cross checksum, and this one: none stands for no block.
fn show(
    alloc: Global,
    code: &Code,
    sum: &CrossSum,
    parts: &[Part],
    block: Option<&[u8]>,
) -> Result<bool, NoMemory>
    requires parts { AreParts code.now.n code.now.m (string_len code.now.m 2)
        (numbers parts.now) (strings parts.now) }
    requires digests { length sum.now ≡ code.now.n }
{
    match verdict_of(alloc, code, 2, sum, parts)? {
        Verdict::Sound(found) => Ok(block == Some(found.as_slice())),
        Verdict::Poisonous => Ok(block.is_none()),
    }
}

fn are_same(shares: &Shares, others: &Shares) -> bool {
    for (share, other) in shares.as_slice().iter().zip(others.as_slice()) {
        if !share.same(other) {
            return false;
        }
    }
    shares.len() == others.len()
}

fn are_of(found: &Checked, block: &[u8], shares: &Shares) -> bool {
    found.block.as_slice() == block && are_same(&found.shares, shares)
}

/// Whether parts give back a block of two bytes with the fragments that were made of it.
fn give_back(
    alloc: Global,
    code: &Code,
    made: &Summed,
    parts: &[Part],
    block: &[u8],
) -> Result<bool, NoMemory>
    requires parts { AreParts code.now.n code.now.m (string_len code.now.m 2)
        (numbers parts.now) (strings parts.now) }
    requires digests { length made.now.sum ≡ code.now.n }
{
    match checked_block(alloc, code, 2, &made.sum, parts, &[])? {
        Some(found) => Ok(are_of(&found, block, &made.shares)),
        None => Ok(false),
    }
}

/// Whether fragments 3 and 4 of five show the block that they were made of.
fn are_sound(alloc: Global, made: &Summed) -> Result<bool, NoMemory> {
    let block = [0x80, 0x00].as_slice();
    let parts = [part(alloc, 3, &[0x1d])?, part(alloc, 4, &[0xba])?];
    match Code::new(5, 2) {
        Some(code) if made.sum.len() == 5 => {
            Ok(
                show(alloc, &code, &made.sum, &parts, Some(block))?
                    && give_back(alloc, &code, made, &parts, block)?,
            )
        }
        _ => Ok(false),
    }
}

fn block_is_sound(alloc: Global) -> Result<bool, NoMemory> {
    match summed(alloc, 5, 2, &[0x80, 0x00])? {
        Some(made) => Ok(are_sound(alloc, &made)? && made.shares.len() == 5),
        None => Ok(false),
    }
}

#[test]
fn fragments_of_a_block_are_sound(rt: HostRuntime) {
    assert!(rt; block_is_sound(rt.alloc()) == Ok(true));
}

fn add_mixed(alloc: Global, fragments: &mut Shares) -> Result<(), NoMemory> {
    for byte in [0x0a, 0x0b, 0x0a, 0x0b, 0x0a].as_slice() {
        fragments.push(Bytes::of(alloc, &[*byte])?)?;
    }
    Ok(())
}

/// The cross checksum of fragments of two blocks.
fn mixed(alloc: Global) -> Result<CrossSum, NoMemory> {
    let mut fragments = Shares::new(alloc);
    add_mixed(alloc, &mut fragments)?;
    CrossSum::of_fragments(alloc, fragments.as_slice())
}

/// Whether fragments 0 and 1 of five show no block under a cross checksum, and give none back.
fn are_poisonous(alloc: Global, sum: &CrossSum) -> Result<bool, NoMemory> {
    let parts = [part(alloc, 0, &[0x0a])?, part(alloc, 1, &[0x0b])?];
    match Code::new(5, 2) {
        Some(code) if sum.len() == 5 => {
            let found = checked_block(alloc, &code, 2, sum, &parts, &[])?;
            Ok(found.is_none() && show(alloc, &code, sum, &parts, None)?)
        }
        _ => Ok(false),
    }
}

#[test]
fn fragments_of_two_blocks_are_poisonous(rt: HostRuntime) -> Result<(), NoMemory> {
    let sum = mixed(rt.alloc())?;
    let are_poisonous = are_poisonous(rt.alloc(), &sum);
    assert!(rt; are_poisonous == Ok(true));
    Ok(())
}
