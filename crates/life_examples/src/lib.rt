//! Lives of one block, worked out turn by turn: on three nodes, of which one may be missing and none may lie, and on five,
//! of which one may be missing and one may lie.
//!
//! The settings are toys: one byte a block, each node keeps it whole, and a digest is a string's length and its
//! beginning.
#![tactic(auto)]

ghost use Rattle.std.specs.Prelude.{◌++◌};
ghost use Rattle.protocol.specs.Setting.{IsValid};
ghost use Rattle.block_turns.specs.Lives.{IsLife};
ghost use Rattle.block_turns.specs.Strings.{NoClash};
ghost use Rattle.life_examples.specs.Examples.{three_nodes, two_disks_replaced};
ghost use Rattle.life_examples.specs.Examples.{cut_off_and_settled, IsSettledThen, before_late, after_late, KeepNoMore};
ghost use Rattle.life_examples.specs.Examples.{TooEarlyIsRead, NoneAnswersTooEarly};
ghost use Rattle.life_examples.specs.Examples.{before_rebuilt, after_rebuilt, IsHeldThen};
ghost use Rattle.life_examples.specs.Examples.{five_nodes, two_liars_replaced, NoTwoLie};

/// Two disks are replaced one after the other: that is a life (`is`, `apart`). So is one in which a node is out of
/// reach, a write is cut off, and the block is settled (`then`, `settled`).
///
/// Three counterexamples show what the definitions must exclude. What a node may still store counts for settling: a
/// later read could return it, though no node keeps it yet (`late`, `keep_no_more`). A new disk that answers before
/// it is rebuilt would make a read return zeros after an acknowledged write (`too_early`); that is not a life
/// (`refused`). What is held is forgotten if enough nodes are rebuilt before an operation is acknowledged: a read then
/// returns what was acknowledged before it (`held`, `rebuilt`, `rebuilt_apart`).
///
/// On five nodes one begins to lie and is rebuilt, and then another one: that is a life (`liars`, `liars_apart`), though
/// two have lied. It is none where both lie at once (`one_liar`).
pub fn example_lives()
    ensures valid { IsValid three_nodes }
    ensures is { IsLife three_nodes 0 two_disks_replaced }
    ensures apart { NoClash three_nodes two_disks_replaced }
    ensures then { IsLife three_nodes 0 cut_off_and_settled }
    ensures then_apart { NoClash three_nodes cut_off_and_settled }
    ensures settled { IsSettledThen }
    ensures late { IsLife three_nodes 0 (before_late ++ after_late) }
    ensures keep_no_more { KeepNoMore }
    ensures too_early { TooEarlyIsRead }
    ensures refused { NoneAnswersTooEarly }
    ensures held { IsHeldThen }
    ensures rebuilt { IsLife three_nodes 0 (before_rebuilt ++ after_rebuilt) }
    ensures rebuilt_apart { NoClash three_nodes (before_rebuilt ++ after_rebuilt) }
    ensures five { IsValid five_nodes }
    ensures liars { IsLife five_nodes 0 two_liars_replaced }
    ensures liars_apart { NoClash five_nodes two_liars_replaced }
    ensures one_liar { NoTwoLie }
{
    linear_runs::laws::reads();
}
