ghost use Rattle.std.specs.Prelude.{◌≡◌, ◌≤◌, ◌+◌, ◌-◌, ◌*◌, ◌∷◌, [], ◌++◌, true, List, length, OnOk, slice_index};
ghost use Rattle.outside_io.specs.Causes.{HasCause};
ghost use Rattle.disk_model.specs.Crash.{LeavesOnly};
ghost use Rattle.node_core.specs.Seen.{SeenNode};
ghost use Rattle.slot_disk.specs.Slots.{Slot, body_len, IsPieceOf, pieces_of};
ghost use Rattle.version_disk.specs.Batches.{AreWritten, IsFrom};
ghost use Rattle.version_disk.specs.Deeds.{Deed, after_deeds, AreDone, AreDoneInPart};
ghost use Rattle.version_disk.specs.Stored.{all_fit};
ghost use Rattle.version_disk.specs.Held.{after_slot, played, held, slots_of};
ghost use Rattle.version_disk.specs.Kept.{IsKept, IsGoodIn, AreGoodIn, HoldsOneOf, HoldsFirstOf};

use disk_model::{Disk, DiskFault};
use quorum_rules::Config;
use slot_disk::body::body_size;
use slot_disk::slots::add_slots;

// Writes the pieces of so many good slots behind the others. The disk then holds the state of the node after those slots.
pub(crate) fn keep_slots<D: Disk>(
    disk: &mut D,
    config: &Config,
    number: u8,
    count: u64,
    more: u64,
    piece: &mut [u8],
) -> Result<(), DiskFault>
    requires kept { IsKept D.pending D.seen config.now number
        (held config.now number (D.seen disk.old)) count disk.old }
    requires some { 1 ≤ more }
    requires whole { length piece.old ≡ more * (body_len config.now + 1) }
    requires zero { slice_index piece.old (length piece.old - 1) ≡ 0 }
    requires room { (count + more) * (body_len config.now + 1) + 1 ≤ D.most disk.old }
    ensures kept { (slots : List Slot) → AreGoodIn config.now number slots → length slots ≡ more
        → piece.old ≡ pieces_of slots → OnOk result (IsKept D.pending D.seen config.now number
        (played (held config.now number (D.seen disk.old)) slots) (count + more) disk.new) }
    ensures slots { (slots : List Slot) → AreGoodIn config.now number slots → length slots ≡ more
        → piece.old ≡ pieces_of slots → OnOk result
        (slots_of config.now (D.seen disk.new) ≡ slots_of config.now (D.seen disk.old) ++ slots) }
    ensures room { D.most disk.new ≡ D.most disk.old }
    // what a crash at any moment of the call leaves holds the state after the first few of the slots
    ensures any_moment { (slots : List Slot) → AreGoodIn config.now number slots
        → length slots ≡ more → piece.old ≡ pieces_of slots
        → LeavesOnly D.moment D.left_since disk.old disk.new
        (HoldsFirstOf config.now number (slots_of config.now (D.seen disk.old))
        (held config.now number (D.seen disk.old)) slots) }
    ensures cause { HasCause D.last (D.faults disk.old) (D.faults disk.new) result }
{
    add_slots(disk, body_size(config), count, more, piece)
}

// Writes the piece of one good slot.
pub(crate) fn keep_slot<D: Disk>(
    disk: &mut D,
    config: &Config,
    number: u8,
    count: u64,
    piece: &mut [u8],
) -> Result<(), DiskFault>
    requires kept { IsKept D.pending D.seen config.now number
        (held config.now number (D.seen disk.old)) count disk.old }
    requires whole { length piece.old ≡ body_len config.now + 1 }
    requires zero { slice_index piece.old (body_len config.now) ≡ 0 }
    requires room { (count + 1) * (body_len config.now + 1) + 1 ≤ D.most disk.old }
    ensures kept { (s : Slot) → IsGoodIn config.now number s → IsPieceOf s piece.old → OnOk result
        (IsKept D.pending D.seen config.now number
        (after_slot (held config.now number (D.seen disk.old)) s) (count + 1) disk.new) }
    ensures slots { (s : Slot) → IsGoodIn config.now number s → IsPieceOf s piece.old → OnOk result
        (slots_of config.now (D.seen disk.new) ≡ slots_of config.now (D.seen disk.old) ++ s ∷ []) }
    ensures room { D.most disk.new ≡ D.most disk.old }
    // what a crash at any moment of the call leaves holds the state before it or that after it
    ensures any_moment { (s : Slot) → IsGoodIn config.now number s → IsPieceOf s piece.old
        → LeavesOnly D.moment D.left_since disk.old disk.new
        (HoldsOneOf config.now number (slots_of config.now (D.seen disk.old))
        (held config.now number (D.seen disk.old))
        (after_slot (held config.now number (D.seen disk.old)) s)) }
    ensures cause { HasCause D.last (D.faults disk.old) (D.faults disk.new) result }
{
    keep_slots(disk, config, number, count, 1, piece)
}

// Writes the pieces of the slots that deeds write behind the others, if there are any. The disk then holds the node after the deeds.
pub(crate) fn keep_deeds<D: Disk>(
    disk: &mut D,
    config: &Config,
    number: u8,
    count: u64,
    more: u64,
    pieces: &mut [u8],
) -> Result<(), DiskFault>
    requires kept { IsKept D.pending D.seen config.now number
        (held config.now number (D.seen disk.old)) count disk.old }
    requires written { (start : SeenNode) × (deeds : List Deed)
        × IsFrom config.now number (D.seen disk.old) start
        × AreWritten start deeds pieces.old more }
    requires room { all_fit (body_len config.now) count more (D.most disk.old) ≡ true }
    ensures kept { (start : SeenNode) (deeds : List Deed)
        → IsFrom config.now number (D.seen disk.old) start → AreWritten start deeds pieces.old more
        → OnOk result (IsKept D.pending D.seen start.config start.number (after_deeds start deeds)
        (count + more) disk.new) }
    ensures done { (start : SeenNode) (deeds : List Deed)
        → IsFrom config.now number (D.seen disk.old) start → AreWritten start deeds pieces.old more
        → OnOk result (AreDone start.config start.number start deeds (D.seen disk.old)
        (D.seen disk.new)) }
    ensures untouched { more ≡ 0 → disk.new ≡ disk.old }
    ensures room { D.most disk.new ≡ D.most disk.old }
    // what a crash at any moment of the call leaves holds the state after the first few of the deeds
    ensures any_moment { (start : SeenNode) (deeds : List Deed)
        → IsFrom config.now number (D.seen disk.old) start → AreWritten start deeds pieces.old more
        → LeavesOnly D.moment D.left_since disk.old disk.new
        (AreDoneInPart start.config start.number start deeds (D.seen disk.old)) }
    ensures cause { HasCause D.last (D.faults disk.old) (D.faults disk.new) result }
{
    if more == 0 {
        return Ok(());
    }
    keep_slots(disk, config, number, count, more, pieces)
}
