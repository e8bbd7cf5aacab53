//! What a crash leaves of a node in a slab. Each law is a function with nothing to do.

ghost use Rattle.std.specs.Prelude.{ℕ, List};
ghost use Rattle.quorum_rules.specs.Limits.{Numbers};
ghost use Rattle.slab_node.specs.Renewals.{RenewalsRenew, WrittenRenewalsRenew};
ghost use Rattle.slab_node.specs.Rules.{FreeSlotsDontCount, MarksAnswer, FreedMarksPrune, GoingMarksMayStay, UncountedSlotsDontCount, BatchesAnswer, WrittenBatchesAnswer};

/// Whatever becomes of heads and data that are written into free slots, the node is as it was.
pub fn free_slots_dont_count()
    ensures { (c : Numbers) (number : ℕ) (old left : List ℕ)
        → FreeSlotsDontCount c number old left }
{}

/// Whatever becomes of the marks of a batch, each block is as it was or its ask was answered.
pub fn marks_answer()
    ensures { (c : Numbers) (number : ℕ) (old left : List ℕ) → MarksAnswer c number old left }
{}

/// Whatever becomes of marks that are taken away, each version that goes is one that the prune drops, and each that
/// doesn't is kept as it was.
pub fn freed_marks_prune()
    ensures pruned { (c : Numbers) (number : ℕ) (old left : List ℕ)
        → FreedMarksPrune c number old left }
    ensures going { (c : Numbers) (number : ℕ) (old left : List ℕ)
        → GoingMarksMayStay c number old left }
{}

/// Whatever is written into slots that don't count, the node is as it was, and so if marks are taken away of slots that
/// count all the same.
pub fn uncounted_slots_dont_count()
    ensures { (c : Numbers) (number : ℕ) (old left : List ℕ)
        → UncountedSlotsDontCount c number old left }
{}

/// Whatever a batch leaves at any step, the node has dropped some of what was going, and then answered some of the
/// asks. Where it was written whole, all asks are answered, and what was going is there as long as it counts.
pub fn batches_answer()
    ensures whole { (c : Numbers) (number : ℕ) (old left : List ℕ)
        → WrittenBatchesAnswer c number old left }
    ensures cut_off { (c : Numbers) (number : ℕ) (old left : List ℕ) → BatchesAnswer c number old left }
{}

/// Whatever a renewal leaves at any step, each of its blocks has its old versions, or isn't answered for, or has what the
/// batch has of it; and all other blocks are as they were.
pub fn renewals_renew()
    ensures whole { (c : Numbers) (number : ℕ) (old left : List ℕ)
        → WrittenRenewalsRenew c number old left }
    ensures cut_off { (c : Numbers) (number : ℕ) (old left : List ℕ) → RenewalsRenew c number old left }
{}
