ghost use Rattle.std.specs.Prelude.{◌≡◌, ◌<◌, ◌||◌, length, map, IfOk, true, false};
ghost use Rattle.stamp_order.specs.Stamps.{has, same_stamp};
ghost use Rattle.protocol.specs.Nodes.{refusal};
ghost use Rattle.protocol.specs.Instance.{setting};
ghost use Rattle.slab_index.specs.Kept.{greatest_kept, keeps_stamp};
ghost use Rattle.slab_engine.specs.Plans.{later_slot, read_plan, write_plan, plan_in, plan_at};
ghost use Rattle.slab_engine.specs.Batches.{AreAdding};
ghost use Rattle.slab_engine.specs.Seen.{listed};

use crate::free::is_listed;
use lists::NoMemory;
use quorum_rules::Config;
use slab_index::kept::same;
use slab_index::{Kept, SlabIndex, greatest_in, keeps, latest_time};
use stamp_order::{Bound, Stamp};
use std::alloc::Global;
use wire_forms::{Ask, Reason, Request, Version};

/// What comes of an ask.
#[derive(Clone, Copy, Debug, PartialEq, Eq)]
pub enum Plan {
    /// Nothing: the node doesn't answer for the block.
    Silent,
    /// The greatest time.
    Tells(u64),
    /// The first version is found.
    First,
    /// No version is in the bound.
    Empty,
    /// The version that this slot has is found, once it is read.
    Reads(Kept),
    /// The version is kept already.
    Acks,
    /// The version is refused.
    Refuses(Reason),
    /// The version is added.
    Adds,
}

/// What comes of asks, each by itself, where these blocks are answered for.
pub fn plan_all(
    alloc: Global,
    config: &Config,
    number: u8,
    first: &Stamp,
    answers: &[bool],
    index: &SlabIndex,
    asks: &[Ask],
) -> Result<Vec<Plan>, NoMemory>
    requires number { number < config.now.n }
    requires blocks { length index.now ≡ config.now.blocks }
    requires answers { length answers.now ≡ config.now.blocks }
    ensures { IfOk result (λ plans. plans.items ≡ map (plan_at (setting config.now) number
        first.now (listed answers.now) index.now) asks.now) }
{
    let mut plans = Vec::with_capacity(alloc, asks.len())?;
    for ask in asks {
        plans.push(plan_one(config, number, first, answers, index, ask))?;
    }
    Ok(plans)
}

// What comes of one ask.
fn plan_one(
    config: &Config,
    number: u8,
    first: &Stamp,
    answers: &[bool],
    index: &SlabIndex,
    ask: &Ask,
) -> Plan
    requires number { number < config.now.n }
    requires blocks { length index.now ≡ config.now.blocks }
    requires answers { length answers.now ≡ config.now.blocks }
    ensures { result ≡ plan_at (setting config.now) number first.now (listed answers.now) index.now
        ask.now }
{
    if is_listed(answers, ask.block) {
        plan_of(config, number, first, index.kept(ask.block), &ask.request)
    } else {
        Plan::Silent
    }
}

// What comes of an ask for a block of which a node keeps the first version and those of slots.
fn plan_of(config: &Config, number: u8, first: &Stamp, kept: &[Kept], request: &Request) -> Plan
    requires { number < config.now.n }
    ensures { result ≡ plan_in (setting config.now) number first.now kept.now request.now }
{
    match request {
        Request::Time => Plan::Tells(latest_time(kept)),
        Request::Read(bound) => plan_of_read(first, kept, bound),
        Request::Write(version) => plan_of_write(config, number, first, kept, version),
    }
}

// What comes of a read.
fn plan_of_read(first: &Stamp, kept: &[Kept], bound: &Bound) -> Plan
    ensures { result ≡ read_plan (has bound.now first.now)
        (later_slot first.now bound.now (greatest_kept bound.now kept.now)) }
{
    match slot_to_read(first, kept, bound) {
        Some(kept) => Plan::Reads(kept),
        None => {
            if bound.has(first) {
                Plan::First
            } else {
                Plan::Empty
            }
        }
    }
}

/// The slot of the greatest version in the bound, where that isn't the first version.
pub(crate) fn slot_to_read(first: &Stamp, kept: &[Kept], bound: &Bound) -> Option<Kept>
    ensures { result ≡ later_slot first.now bound.now (greatest_kept bound.now kept.now) }
{
    match greatest_in(kept, bound) {
        None => None,
        Some(greatest) => {
            if bound.has(first) && Bound::AtMost(*first).has(&greatest.stamp()) {
                None
            } else {
                Some(greatest)
            }
        }
    }
}

// What comes of a write.
fn plan_of_write(
    config: &Config,
    number: u8,
    first: &Stamp,
    kept: &[Kept],
    version: &Version,
) -> Plan
    requires { number < config.now.n }
    ensures { result ≡ write_plan (refusal (setting config.now) number version.now)
        (same_stamp first.now version.now.stamp || keeps_stamp kept.now version.now.stamp) }
{
    match refusal_of(config, number, version) {
        Some(reason) => Plan::Refuses(reason),
        None => {
            if same(first, &version.stamp) || keeps(kept, &version.stamp) {
                Plan::Acks
            } else {
                Plan::Adds
            }
        }
    }
}

// Why a node refuses a version: its lengths, its time, its verifier, or its fragment's digest.
fn refusal_of(config: &Config, number: u8, version: &Version) -> Option<Reason>
    requires { number < config.now.n }
    ensures { result ≡ refusal (setting config.now) number version.now }
{
    let n = config.n() as usize;
    let share = config.share() as usize;
    if version.sum.len() != n || version.fragment.len() != share {
        return Some(Reason::BadLength);
    }
    if version.stamp.time == 0 {
        return Some(Reason::TimeZero);
    }
    if version.stamp.verifier != version.sum.verifier() {
        return Some(Reason::BadVerifier);
    }
    if !version
        .sum
        .matches(usize::from(number), version.fragment.as_slice())
    {
        return Some(Reason::BadDigest);
    }
    None
}

/// The numbers of the asks by which a version is added, in their order.
pub fn adding(alloc: Global, plans: &[Plan]) -> Result<Vec<usize>, NoMemory>
    ensures { IfOk result (λ added. AreAdding plans.now added.items) }
{
    let mut added = Vec::new(alloc);
    for (i, plan) in plans.iter().enumerate() {
        if is_adding(plan) {
            added.push(i)?;
        }
    }
    Ok(added)
}

// Whether a version is added.
fn is_adding(plan: &Plan) -> bool
    ensures yes { result ≡ true → plan.now ≡ Plan.Adds }
    ensures not { result ≡ false → plan.now ≡ Plan.Adds → ⊥ }
{
    matches!(plan, Plan::Adds)
}
