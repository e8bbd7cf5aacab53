//! The life of a block whose nodes may be out of reach, lost, lying and rebuilt.
//!
//! A life is a list of turns, never two at once, with what each node keeps after each turn. Operations end, or are
//! cut off; nodes prune; a node goes out of reach and comes back; it is lost, or begins to lie, and is rebuilt. At
//! any one time at most `b` nodes lie. A node that was rebuilt counts as correct again, so nodes may be replaced for
//! ever.
//!
//! `specs/Turns.antt` has the turns, `specs/Lives.antt` says which of them may follow one another, and
//! `specs/Strings.antt` which strings are compared by digest. The laws are contracts of functions that do nothing.
#![tactic(auto)]

ghost use Rattle.protocol.specs.Laws.{InEachCluster};
ghost use Rattle.block_turns.specs.Laws.{LivesAreLinearizable, AcknowledgedAreDone, LatestAreBlocks};
ghost use Rattle.block_turns.specs.Settled.{SettledLivesBeginAnew, SettledLivesForget, HeldBlocksSettle, HeldBlocksStay};
ghost use Rattle.block_turns.specs.Settled.{HeldLivesBeginAnew, HeldLivesForget};
ghost use Rattle.block_turns.specs.Growing.{LivesBegin, LivesGoOn, EarlierAreLives, EarlierDoNotClash};
ghost use Rattle.block_turns.specs.Growing.{LateAsksAreTaken, NothingIsTaken, MoreIsTaken, PrunesKeepSome, UndonePrunesKeepAll};
ghost use Rattle.block_turns.specs.AllBlocks.{LivesAreLinearAsOne, LivesAreDurable, OneLifeIsDurable};

/// The operations of a life are linearizable, in the order of their turns, where no two different strings of the life
/// share a digest. What was acknowledged was done: no read was outvoted, and no write ran out of times.
pub fn lives_are_linearizable()
    ensures linear { InEachCluster LivesAreLinearizable }
    ensures done { InEachCluster AcknowledgedAreDone }
    // what was read or written last is a block, under the first stamp or one of a later time
    ensures latest { InEachCluster LatestAreBlocks }
{
    protocol::laws::cluster();
}

/// A life begins with no turn, and goes on by each turn that may come next. A beginning of a life is a life. A node
/// that comes back may have done late, in any order, what phases had asked. A prune may be done in part.
pub fn lives_grow()
    ensures begin { InEachCluster LivesBegin }
    ensures go_on { InEachCluster LivesGoOn }
    ensures earlier { InEachCluster EarlierAreLives }
    ensures earlier_apart { InEachCluster EarlierDoNotClash }
    ensures late { InEachCluster LateAsksAreTaken }
    ensures nothing { InEachCluster NothingIsTaken }
    ensures more { InEachCluster MoreIsTaken }
    ensures prunes { InEachCluster PrunesKeepSome }
    ensures undone { InEachCluster UndonePrunesKeepAll }
{}

/// A block is settled right after an acknowledged operation if no node keeps a version above its stamp, or may still
/// store one; lying and lost nodes don't matter. From then on no write that was cut off before takes effect: later
/// operations are linearizable by themselves. After a crash nobody knows the latest value. Then it is enough that `n-t`
/// nodes keep one stamp and none keeps a greater one. The next operation settles the block if it is acknowledged
/// (`held`). If operations are cut off before one is acknowledged, still nothing that was cut off earlier takes effect
/// (`held_anew`, `held_forgotten`).
pub fn settled_lives()
    ensures anew { InEachCluster SettledLivesBeginAnew }
    ensures forgotten { InEachCluster SettledLivesForget }
    ensures held { InEachCluster HeldBlocksSettle }
    ensures stays { InEachCluster HeldBlocksStay }
    ensures held_anew { InEachCluster HeldLivesBeginAnew }
    ensures held_forgotten { InEachCluster HeldLivesForget }
{
    linear_runs::laws::reads();
    protocol::laws::cluster();
}

/// The operations on all blocks are linearizable in one order, and durably so, where the turns of all blocks are
/// numbered in one sequence.
pub fn lives_together()
    ensures as_one { InEachCluster LivesAreLinearAsOne }
    ensures durable { InEachCluster LivesAreDurable }
    ensures one_durable { InEachCluster OneLifeIsDurable }
{
    linear_runs::laws::together();
    lives_are_linearizable();
}
