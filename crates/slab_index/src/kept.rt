ghost use Rattle.std.specs.Prelude.{◌≡◌, if◌then◌else◌, Some};
ghost use Rattle.stamp_order.specs.Stamps.{has, same_stamp};
ghost use Rattle.slab_index.specs.Kept.{stamp_of, later_kept, greatest_kept, keeps_stamp, latest_time};
ghost use Rattle.slab_index.specs.Slots.{kept_of};

use slab_layout::Head;
use stamp_order::{Bound, Stamp};

/// A version that a slot has, but for its data, in 64 bytes.
#[derive(Clone, Copy, Debug, PartialEq, Eq)]
pub struct Kept {
    /// The slot, counted from 0.
    pub slot: u32,
    /// The client of the stamp.
    pub client: u32,
    /// The time of the stamp.
    pub time: u64,
    /// Later versions of the node have greater numbers.
    pub number: u64,
    /// What the slot's data are held against.
    pub data_check: u64,
    /// The verifier of the stamp.
    pub verifier: [u8; 32],
}

impl Kept {
    /// What the head of a slot tells.
    pub fn of(slot: u32, head: &Head) -> Kept
        ensures { result ≡ kept_of slot head.now }
    {
        Kept {
            slot,
            client: head.stamp.client,
            time: head.stamp.time,
            number: head.number,
            data_check: head.data_check,
            verifier: head.stamp.verifier,
        }
    }

    /// The version's stamp.
    pub fn stamp(&self) -> Stamp
        ensures { result ≡ stamp_of self.now }
    {
        Stamp {
            time: self.time,
            client: self.client,
            verifier: self.verifier,
        }
    }
}

/// The one of greatest stamp in the bound.
#[tactic(auto, using(crate::proofs::lemmas::Telling::last_first))]
pub fn greatest_in(kept: &[Kept], bound: &Bound) -> Option<Kept>
    ensures { result ≡ greatest_kept bound.now kept.now }
{
    let mut greatest: Option<Kept> = None;
    for i in 0..kept.len() {
        greatest = counted(kept[kept.len() - 1 - i], bound, greatest);
    }
    greatest
}

// One more that may be in the bound.
fn counted(one: Kept, bound: &Bound, greatest: Option<Kept>) -> Option<Kept>
    ensures { result ≡ (if has bound.now (stamp_of one) then Some (later_kept one greatest)
        else greatest) }
{
    if bound.has(&one.stamp()) {
        Some(later(one, greatest))
    } else {
        greatest
    }
}

// The one of greater stamp.
fn later(one: Kept, other: Option<Kept>) -> Kept
    ensures { result ≡ later_kept one other }
{
    match other {
        None => one,
        Some(other) => {
            if Bound::AtMost(one.stamp()).has(&other.stamp()) {
                one
            } else {
                other
            }
        }
    }
}

/// Whether one has this stamp.
#[tactic(auto, using(crate::proofs::lemmas::Telling::last_first))]
pub fn keeps(kept: &[Kept], stamp: &Stamp) -> bool
    ensures { result ≡ keeps_stamp kept.now stamp.now }
{
    let mut found = false;
    for i in 0..kept.len() {
        found = same(&kept[kept.len() - 1 - i].stamp(), stamp) || found;
    }
    found
}

/// Whether they are one stamp.
#[tactic(auto, using(node_core::proofs::lemmas::Changes::same_by_fields))]
pub fn same(stamp: &Stamp, other: &Stamp) -> bool
    ensures { result ≡ same_stamp stamp.now other.now }
{
    stamp.cmp(other).is_eq()
}

/// The greatest time of their stamps, or 0 where there are none.
#[tactic(auto, using(crate::proofs::lemmas::Telling::last_first))]
pub fn latest_time(kept: &[Kept]) -> u64
    ensures { result ≡ latest_time kept.now }
{
    let mut time = 0u64;
    for i in 0..kept.len() {
        time = kept[kept.len() - 1 - i].time.max(time);
    }
    time
}
