ghost use Rattle.std.specs.Prelude.{◌≡◌, ◌<◌, ◌≤◌, ◌^◌, ◌↔◌, length};
ghost use Rattle.stamp_order.specs.Stamps.{up_to};
ghost use Rattle.protocol.specs.Count.{count};
ghost use Rattle.protocol.specs.Reach.{reaches, reach, greater, if_reached, highest};
ghost use Rattle.protocol.specs.Operations.{is_there};
ghost use Rattle.candidate_class.specs.Stamps.{stamp_at, is_stamp};

use stamp_order::Stamp;

/// The greatest of the stamps that at least `repairable` of them reach, in that they are it or greater. `repairable` is at
/// least 1.
pub fn pivot_of(stamps: &[Option<Stamp>], repairable: u32) -> Option<Stamp>
    requires few { length stamps.now < 2 ^ 32 }
    requires some { 1 ≤ repairable }
    ensures value { result ≡ highest up_to (length stamps.now) (stamp_at stamps.now) repairable }
    ensures none { (result ≡ None)
        ↔ (count (length stamps.now) (λ i. is_there (stamp_at stamps.now i)) < repairable) }
{
    let mut pivot = None;
    for stamp in stamps {
        pivot = greater(pivot, if_reached(stamps, repairable, stamp));
    }
    pivot
}

/// How many of the stamps are this one.
pub fn support_of(stamps: &[Option<Stamp>], stamp: &Stamp) -> u32
    requires { length stamps.now < 2 ^ 32 }
    ensures { result ≡ count (length stamps.now) (λ i. is_stamp stamp.now (stamp_at stamps.now i)) }
{
    let mut support = 0;
    for other in stamps {
        if is_stamp(stamp, other) {
            support += 1;
        }
    }
    support
}

// The stamp, if at least `repairable` of them reach it.
fn if_reached(stamps: &[Option<Stamp>], repairable: u32, stamp: &Option<Stamp>) -> Option<Stamp>
    requires { length stamps.now < 2 ^ 32 }
    ensures { result ≡ if_reached up_to (length stamps.now) (stamp_at stamps.now) repairable
        stamp.now }
{
    match stamp {
        Some(stamp) => {
            if reach_of(stamps, stamp) >= repairable {
                Some(*stamp)
            } else {
                None
            }
        }
        None => None,
    }
}

// How many of the stamps are this one or greater.
fn reach_of(stamps: &[Option<Stamp>], stamp: &Stamp) -> u32
    requires { length stamps.now < 2 ^ 32 }
    ensures { result ≡ reach up_to (length stamps.now) (stamp_at stamps.now) stamp.now }
{
    let mut reach = 0;
    for other in stamps {
        if reaches(stamp, other) {
            reach += 1;
        }
    }
    reach
}

fn reaches(stamp: &Stamp, other: &Option<Stamp>) -> bool
    ensures { result ≡ reaches up_to stamp.now other.now }
{
    match other {
        Some(other) => stamp.cmp(other).is_le(),
        None => false,
    }
}

/// Whether there is a stamp, and it's this one.
pub fn is_stamp(stamp: &Stamp, other: &Option<Stamp>) -> bool
    ensures { result ≡ is_stamp stamp.now other.now }
{
    match other {
        Some(other) => other.cmp(stamp).is_eq(),
        None => false,
    }
}

fn greater(one: Option<Stamp>, other: Option<Stamp>) -> Option<Stamp>
    ensures { result ≡ greater up_to one other }
{
    match (one, other) {
        (Some(x), Some(y)) => { if x.cmp(&y).is_le() { Some(y) } else { Some(x) } }
        (Some(x), None) => Some(x),
        (None, y) => y,
    }
}
