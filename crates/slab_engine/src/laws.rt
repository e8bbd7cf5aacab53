//! Laws of plans and of versions that leave. Each is a function with nothing to do.

ghost use Rattle.slab_engine.specs.Laws.{PlansTell, LeavingMayGo};
ghost use Rattle.slab_engine.specs.Written.{BatchesAreAnswers, BatchesAreRemembered, WrittenBatchesAreDone, CrashesLeavePart};

/// A plan is what the versions of the slots make a node reply and add, whatever versions with the slots' stamps these are.
pub fn plans_tell()
    ensures { PlansTell }
{}

/// Where versions that leave count no longer, the node has dropped some of them, and kept all others.
pub fn leaving_may_go()
    ensures { LeavingMayGo }
{}

/// Where a batch that was made of asks is there and counts, and nothing else changed, the node has answered the asks.
pub fn batches_are_answers()
    ensures { BatchesAreAnswers }
{}

/// The node then remembers what its slab tells, as `remember` leaves it, and what left is cleared.
pub fn batches_are_remembered()
    ensures { BatchesAreRemembered }
{}

/// A batch that was made of asks, and is written as `slab_node::write_over` writes it, answers the asks; and the node
/// remembers what its slab tells.
pub fn written_batches_are_done()
    ensures { WrittenBatchesAreDone }
{}

/// A crash at any moment of `slab_node::write_over` leaves a node that has dropped some of what was leaving, and then
/// answered some of the asks.
pub fn crashes_leave_part()
    ensures { CrashesLeavePart }
{}
