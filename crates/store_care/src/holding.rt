ghost use Rattle.std.specs.Prelude.{◌≡◌, ◌<◌, ◌↔◌, IsTrue, IfOk, Some, option_copied, slice_get};
ghost use Rattle.store_care.specs.Holdings.{IsBeside, IsMade, holding_of, is_made, newest_in};

use disk_model::Disk;
use frag_check::Summed;
use lists::NoMemory;
use stamp_order::{Bound, Stamp};
use std::cmp::Ordering;
use version_disk::StoredNode;
use wire_forms::{Ask, Reply, Request, Version};

/// What a node holds of a block, beside what a read of it gave.
#[derive(Clone, Copy, Debug, PartialEq, Eq)]
pub enum Holding {
    /// Its newest version is the one that the read gave.
    Sound,
    /// Its newest version is an older one.
    Older,
    /// Its newest version is a newer one, of a write that didn't reach enough nodes.
    Newer,
    /// Its newest version has the stamp that the read gave, and another fragment or cross checksum.
    False,
}

/// The newest version that a node keeps of a block.
pub(crate) fn newest<D: Disk>(node: &StoredNode<D>, block: u32) -> Result<Option<Version>, NoMemory>
    requires { block < node.now.node.config.blocks }
    ensures { IfOk result (λ version. version ≡ newest_in node.now.node block) }
{
    let ask = Ask {
        block,
        request: Request::Read(Bound::All),
    };
    match node.reply_to(&ask)? {
        Reply::Found(version) => Ok(Some(version)),
        _ => Ok(None),
    }
}

/// What the node of a seat is, whose newest version of a block this is, beside a read of it that gave this stamp and a value with these
/// fragments. Where there are none the value is that of the first version.
pub fn compared(version: &Version, seat: usize, stamp: &Stamp, made: Option<&Summed>) -> Holding
    ensures beside { IsBeside seat stamp.now (option_copied made.entry) version.now result }
    ensures holding { result ≡ holding_of seat stamp.now (option_copied made.entry) version.now }
{
    match version.stamp.cmp(stamp) {
        Ordering::Less => Holding::Older,
        Ordering::Greater => Holding::Newer,
        Ordering::Equal => {
            if is_made(version, seat, made) {
                Holding::Sound
            } else {
                Holding::False
            }
        }
    }
}

// Whether a version's cross checksum and fragment are those of a value at this node; where there are none, any are.
fn is_made(version: &Version, seat: usize, made: Option<&Summed>) -> bool
    ensures made { IsTrue result ↔ IsMade seat (option_copied made.entry) version.now }
    ensures test { result ≡ is_made seat (option_copied made.entry) version.now }
{
    match made {
        Some(summed) => is_of(version, seat, summed),
        None => true,
    }
}

// Whether a version's cross checksum and fragment are those of a value at this node.
fn is_of(version: &Version, seat: usize, summed: &Summed) -> bool
    ensures { IsTrue result ↔ ((version.now.sum ≡ summed.now.sum)
        × (slice_get summed.now.shares seat ≡ Some version.now.fragment)) }
{
    match summed.shares.get(seat) {
        Some(share) => share.same(&version.fragment) && version.sum.same(&summed.sum),
        None => false,
    }
}
