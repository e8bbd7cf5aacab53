//! What holds of slots. The law is a function with nothing to do.

ghost use Rattle.std.specs.Prelude.{ℕ, List};
ghost use Rattle.slot_disk.specs.Bodies.{AreInOrder};

/// Slot k begins at k slots' length, and the slots that count are those from slot 0 to before the first that isn't open.
pub fn slots_in_order()
    ensures { (body : ℕ) (bytes : List ℕ) → AreInOrder body bytes }
{}
