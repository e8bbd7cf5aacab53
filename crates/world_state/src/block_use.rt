//! What a prune of a block goes by, kept as operations start and end.

ghost use Rattle.std.specs.Prelude.{◌≡◌, Some, IfSome, if◌then◌else◌};
ghost use Rattle.stamp_order.specs.Stamps.{up_to};
ghost use Rattle.protocol.specs.World.{stamp_given, greater_stamp};
ghost use Rattle.world_state.specs.BlockUses.{one_less, IsAtWork};

use run_words::Outcome;
use stamp_order::Stamp;

/// Who works on a block, and what reads of it gave.
#[derive(Clone, Copy)]
pub struct BlockUse {
    /// How many clients that haven't crashed have an operation on the block under way.
    pub at_work: u32,
    /// The greatest stamp that a completed read of the block gave.
    pub given: Option<Stamp>,
}

/// Nobody works on the block, and no read of it has completed.
pub(crate) const UNUSED: BlockUse = BlockUse {
    at_work: 0,
    given: None,
};

/// One client less works on the block, if there is one.
pub(crate) fn leave(uses: &mut Vec<BlockUse>, block: Option<u32>)
    requires { IfSome block (IsAtWork uses.old.items) }
    ensures { uses.new.items ≡ one_less uses.old.items block }
{
    if let Some(block) = block {
        uses[block as usize].at_work -= 1;
    }
}

/// The stamp that the operation gave, if it is a read that gave one.
pub(crate) fn stamp_given(outcome: &Outcome) -> Option<Stamp>
    ensures { result ≡ stamp_given (Some outcome.now) }
{
    match outcome {
        Outcome::Gave { stamp, .. } => Some(*stamp),
        _ => None,
    }
}

/// The greater of the two, where there are two.
pub(crate) fn greater(x: Option<Stamp>, y: Option<Stamp>) -> Option<Stamp>
    ensures { result ≡ greater_stamp x y }
{
    match (x, y) {
        (Some(x), Some(y)) => Some(later(x, y)),
        (x, None) => x,
        (None, y) => y,
    }
}

/// The greater of the two.
fn later(x: Stamp, y: Stamp) -> Stamp
    ensures { result ≡ (if up_to x y then y else x) }
{
    if x.cmp(&y).is_le() { y } else { x }
}
