//! Which versions a prune drops.

ghost use Rattle.std.specs.Prelude.{◌≡◌};
ghost use Rattle.protocol.specs.Setting.{Setting};
ghost use Rattle.slab_engine.specs.Prunes.{greatest_stamp_of, is_stamp, stays_by, PrunesAreTold};

use crate::plan::slot_to_read;
use slab_index::Kept;
use slab_index::kept::same;
use stamp_order::{Bound, Stamp};

/// The greatest stamp in a bound, of the first version and those of slots.
pub fn greatest_stamp(first: &Stamp, kept: &[Kept], bound: &Bound) -> Option<Stamp>
    ensures { result ≡ greatest_stamp_of first.now bound.now kept.now }
{
    match slot_to_read(first, kept, bound) {
        Some(kept) => Some(kept.stamp()),
        None => { if bound.has(first) { Some(*first) } else { None } }
    }
}

/// Whether a prune by a stamp keeps a version, where the greatest stamp up to the prune's is known.
pub fn stays(first: &Stamp, greatest: &Option<Stamp>, stamp: &Stamp, one: &Stamp) -> bool
    ensures { result ≡ stays_by first.now greatest.now stamp.now one.now }
{
    same(one, first) || is_it(one, greatest) || Bound::Below(*one).has(stamp)
}

// Whether this is the stamp.
fn is_it(stamp: &Stamp, greatest: &Option<Stamp>) -> bool
    ensures { result ≡ is_stamp stamp.now greatest.now }
{
    match greatest {
        Some(other) => same(other, stamp),
        None => false,
    }
}

/// A slot's version outlives a prune exactly where `stays` says so.
pub fn prunes_are_told()
    ensures { (s : Setting) → PrunesAreTold s }
{}
