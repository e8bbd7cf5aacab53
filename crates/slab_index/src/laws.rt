//! What slots tell of the versions that they have.

ghost use Rattle.slab_index.specs.Kept.{SlotsTell};
ghost use Rattle.slab_index.specs.Slots.{SlotsHoldVersions, SameSlots, OneMoreSlot, OneSlotLess, SlotsAreCounted};
ghost use Rattle.slab_index.specs.declared.kept.Kept.{Kept as SeenKept};
ghost use Rattle.std.specs.Prelude.{List, ℕ, Bool};
ghost use Rattle.protocol.specs.Messages.{Version};
ghost use Rattle.slab_layout.specs.declared.shape.Shape.{Shape};

/// Of versions that have the stamps of their slots, the slots tell which is the greatest in a bound, which stamps are
/// kept, and the greatest time.
pub fn slots_tell()
    ensures { (version : SeenKept → Version) (kept : List SeenKept) → SlotsTell version kept }
{}

/// The slots of a block have its versions, in the order in which the node keeps them.
pub fn slots_hold_versions()
    ensures hold { (shape : Shape) (marked : ℕ → Bool) (bytes : List ℕ) (block : ℕ)
        → SlotsHoldVersions shape marked bytes block }
    ensures counted { (shape : Shape) → SlotsAreCounted shape }
{}

/// How the slots of a block change as one comes or goes.
pub fn slots_change()
    ensures same { (shape : Shape) → SameSlots shape }
    ensures one_more { (shape : Shape) → OneMoreSlot shape }
    ensures one_less { (shape : Shape) → OneSlotLess shape }
{}
