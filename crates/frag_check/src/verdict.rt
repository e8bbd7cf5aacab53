ghost use Rattle.std.specs.Prelude.{◌≡◌, ◌≢◌, ◌↔◌, IfOk, IfSome, IfNone, IsTrue, length, map};
ghost use Rattle.std.specs.List.{AllByRecursion};
ghost use Rattle.gf_field.specs.Fragments.{AreParts, string_len, decoded, fragments_of};
ghost use Rattle.cross_sum.specs.Digest.{digest};
ghost use Rattle.cross_sum.specs.Parts.{numbers, strings};
ghost use Rattle.ida_code.specs.Sums.{sum_of};
ghost use Rattle.frag_check.specs.Verdict.{IsVerdict};
ghost use Rattle.frag_check.specs.Known.{HasItsDigest, IsAmong};

use cross_sum::{Bytes, CrossSum, NoMemory, Part, Shares};
use ida_lanes::Code;
use std::alloc::Global;

/// What parts show under a cross checksum.
#[derive(Drop)]
pub enum Verdict {
    /// The block that they decode to, whose fragments have these digests.
    Sound(Bytes),
    /// The fragments of the block that they decode to have other digests.
    Poisonous,
}

/// A block with its fragments.
#[derive(Drop)]
pub struct Checked {
    pub block: Bytes,
    pub shares: Shares,
}

/// Whether `m` parts are fragments of the block of `size` bytes that they decode to, by the digests
/// of all its fragments: those of `sum`.
pub fn verdict_of(
    alloc: Global,
    code: &Code,
    size: usize,
    sum: &CrossSum,
    parts: &[Part],
) -> Result<Verdict, NoMemory>
    requires parts { AreParts code.now.n code.now.m (string_len code.now.m size)
        (numbers parts.now) (strings parts.now) }
    requires digests { length sum.now ≡ code.now.n }
    ensures { IfOk result (IsVerdict code.now.n code.now.m size (numbers parts.now)
        (strings parts.now) sum.now) }
{
    match checked_block(alloc, code, size, sum, parts, &[])? {
        Some(sound) => Ok(Verdict::Sound(sound.block)),
        None => Ok(Verdict::Poisonous),
    }
}

/// The block that `m` parts decode to with its fragments, to repair others with: none where the
/// digests of these aren't those of `sum`. The digests of `known` parts were found in `sum` before,
/// so a fragment that is one of them isn't digested again.
pub fn checked_block(
    alloc: Global,
    code: &Code,
    size: usize,
    sum: &CrossSum,
    parts: &[Part],
    known: &[Part],
) -> Result<Option<Checked>, NoMemory>
    requires parts { AreParts code.now.n code.now.m (string_len code.now.m size)
        (numbers parts.now) (strings parts.now) }
    requires digests { length sum.now ≡ code.now.n }
    requires known { AllByRecursion (HasItsDigest sum.now) known.now }
    ensures block { IfOk result (λ found.
        IfSome found (λ c.
        c.block ≡ decoded code.now.m size (numbers parts.now) (strings parts.now))) }
    ensures shares { IfOk result (λ found.
        IfSome found (λ c. c.shares ≡ fragments_of code.now.n code.now.m c.block)) }
    ensures sound { IfOk result (λ found.
        IfSome found (λ c. sum_of code.now.n code.now.m c.block ≡ sum.now)) }
    ensures poisonous { IfOk result (λ found. IfNone found
        (sum_of code.now.n code.now.m
        (decoded code.now.m size (numbers parts.now) (strings parts.now)) ≢ sum.now)) }
{
    let block = code.decode(alloc, size, parts)?;
    let shares = code.encode(alloc, &block)?;
    if have_digests(shares.as_slice(), sum, known) {
        Ok(Some(Checked { block, shares }))
    } else {
        Ok(None)
    }
}

/// Whether the digests of the fragments, one each, are those of `sum`.
fn have_digests(shares: &[Bytes], sum: &CrossSum, known: &[Part]) -> bool
    requires count { length shares.now ≡ length sum.now }
    requires known { AllByRecursion (HasItsDigest sum.now) known.now }
    ensures { IsTrue result ↔ (map digest shares.now ≡ sum.now) }
{
    for (i, share) in shares.iter().enumerate() {
        if !is_among(known, i, share) && !sum.matches(i, share.as_slice()) {
            return false;
        }
    }
    true
}

/// Whether one of the parts has this number and these bytes.
fn is_among(parts: &[Part], number: usize, bytes: &Bytes) -> bool
    ensures { IsTrue result → IsAmong parts.now number bytes.now }
{
    for part in parts {
        if usize::from(part.number) == number && part.bytes.as_slice() == bytes.as_slice() {
            return true;
        }
    }
    false
}
