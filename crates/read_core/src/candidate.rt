ghost use Rattle.std.specs.Prelude.{◌≡◌, ◌≢◌, ◌≤◌, ◌&&◌, not, map, take, length, IfOk, IfSome, IfNone, option_copied};
ghost use Rattle.std.specs.List.{AllByRecursion};
ghost use Rattle.gf_field.specs.Fragments.{fragments_of};
ghost use Rattle.ida_code.specs.Sums.{sum_of};
ghost use Rattle.protocol.specs.Operations.{is_answered, is_there, sum_of_first, part_of, only_if};
ghost use Rattle.candidate_class.specs.Stamps.{is_stamp};
ghost use Rattle.frag_check.specs.Known.{HasItsDigest};
ghost use Rattle.read_core.specs.Candidates.{found_in, carriers_in, invalid_in, ArePartsIn, decoded_in, shown_parts, CarryWhole};

use candidate_class::is_stamp;
use cross_sum::{CrossSum, Part};
use frag_check::{Checked, checked_block, code_of};
use lists::{Copied, NoMemory};
use quorum_rules::Config;
use run_words::Nodes;
use stamp_order::Stamp;
use std::alloc::Global;
use wire_forms::{Reply, Version};

/// The nodes that answered, and whose answers aren't valid.
pub(crate) fn invalid_nodes(
    alloc: Global,
    answers: &[Option<Reply>],
    stamps: &[Option<Stamp>],
) -> Result<Nodes, NoMemory>
    requires places { length stamps.now ≡ length answers.now }
    requires few { length answers.now ≤ 16 }
    ensures { IfOk result (λ nodes. nodes ≡ invalid_in answers.now stamps.now) }
{
    let mut nodes = Nodes::new(alloc);
    for (i, answer) in answers.iter().enumerate() {
        if is_invalid(answer, &stamps[i]) {
            nodes.push(i as u8)?;
        }
    }
    Ok(nodes)
}

// Whether there is an answer that isn't valid.
fn is_invalid(answer: &Option<Reply>, stamp: &Option<Stamp>) -> bool
    ensures { result ≡ (is_answered answer.now && not (is_there stamp.now)) }
{
    match (answer, stamp) {
        (Some(_), None) => true,
        _ => false,
    }
}

/// The fragments of the first `m` nodes whose valid answers carry the stamp.
pub(crate) fn parts_of(
    alloc: Global,
    answers: &[Option<Reply>],
    stamps: &[Option<Stamp>],
    stamp: &Stamp,
    m: usize,
) -> Result<Vec<Part>, NoMemory>
    requires places { length stamps.now ≡ length answers.now }
    requires few { length answers.now ≤ 16 }
    ensures { IfOk result (λ parts. shown_parts parts.items
        ≡ map part_of (take m (carriers_in answers.now stamps.now stamp.now))) }
{
    let mut parts = Vec::new(alloc);
    for (i, answer) in answers.iter().enumerate() {
        if let Some(version) = carried(answer, &stamps[i], stamp) {
            if parts.len() < m {
                parts.push(Part {
                    number: i as u8,
                    bytes: version.fragment.copy()?,
                })?;
            }
        }
    }
    Ok(parts)
}

/// The cross checksum of the first node whose valid answer carries the stamp, and one of no digest where there is none.
pub(crate) fn least_sum(
    alloc: Global,
    answers: &[Option<Reply>],
    stamps: &[Option<Stamp>],
    stamp: &Stamp,
) -> Result<CrossSum, NoMemory>
    requires places { length stamps.now ≡ length answers.now }
    ensures { IfOk result (λ sum. sum
        ≡ sum_of_first (carriers_in answers.now stamps.now stamp.now)) }
{
    for (i, answer) in answers.iter().enumerate() {
        if let Some(version) = carried(answer, &stamps[i], stamp) {
            return version.sum.copy();
        }
    }
    CrossSum::of_hashes(alloc, &[])
}

/// The fragments that came with the stamp in valid answers under just this cross checksum: their
/// digests are the ones in it.
pub(crate) fn known_parts(
    alloc: Global,
    answers: &[Option<Reply>],
    stamps: &[Option<Stamp>],
    stamp: &Stamp,
    sum: &CrossSum,
) -> Result<Vec<Part>, NoMemory>
    requires places { length stamps.now ≡ length answers.now }
    requires few { length answers.now ≤ 16 }
    requires whole { CarryWhole answers.now stamps.now stamp.now }
    ensures { IfOk result (λ parts. AllByRecursion (HasItsDigest sum.now) parts.items) }
{
    let mut parts = Vec::new(alloc);
    for (i, answer) in answers.iter().enumerate() {
        if let Some(version) = carried(answer, &stamps[i], stamp) {
            if version.sum.same(sum) {
                parts.push(Part {
                    number: i as u8,
                    bytes: version.fragment.copy()?,
                })?;
            }
        }
    }
    Ok(parts)
}

/// The version of an answer whose stamp, if it's valid, is this one.
fn carried<'a>(answer: &'a Option<Reply>, of: &Option<Stamp>, stamp: &Stamp) -> Option<&'a Version>
    ensures { option_copied result ≡ only_if (is_stamp stamp.now of.now) (found_in answer.now) }
{
    if !is_stamp(stamp, of) {
        return None;
    }
    match answer {
        Some(Reply::Found(version)) => Some(version),
        _ => None,
    }
}

/// The block that `m` fragments decode to, with all its fragments: none where their digests aren't those of `sum`, which has those
/// of the known ones.
pub(crate) fn checked(
    alloc: Global,
    config: &Config,
    sum: &CrossSum,
    parts: &[Part],
    known: &[Part],
) -> Result<Option<Checked>, NoMemory>
    requires parts { ArePartsIn config.now parts.now }
    requires digests { length sum.now ≡ config.now.n }
    requires known { AllByRecursion (HasItsDigest sum.now) known.now }
    ensures block { IfOk result (λ found. IfSome found
        (λ c. c.block ≡ decoded_in config.now parts.now)) }
    ensures shares { IfOk result (λ found. IfSome found
        (λ c. c.shares ≡ fragments_of config.now.n config.now.m c.block)) }
    ensures sound { IfOk result (λ found. IfSome found
        (λ c. sum_of config.now.n config.now.m c.block ≡ sum.now)) }
    ensures poisonous { IfOk result (λ found. IfNone found
        (sum_of config.now.n config.now.m (decoded_in config.now parts.now) ≢ sum.now)) }
{
    checked_block(
        alloc,
        &code_of(config),
        config.size() as usize,
        sum,
        parts,
        known,
    )
}
