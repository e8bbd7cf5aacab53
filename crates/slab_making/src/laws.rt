//! What a new slab holds. The law is a function with nothing to do.

ghost use Rattle.std.specs.Prelude.{ℕ, List, Bool};
ghost use Rattle.quorum_rules.specs.Limits.{Numbers};
ghost use Rattle.slab_making.specs.Made.{NewSlabsAreNew};

/// The node in a new slab keeps the first version of each block.
pub fn new_slabs_are_new()
    ensures { (c : Numbers) (number key : ℕ) (answers : Bool) (bytes : List ℕ)
        → NewSlabsAreNew c number key answers bytes }
{}
