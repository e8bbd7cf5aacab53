//! The laws of a store's life, each the contract of a function that does nothing.
ghost use Rattle.std.specs.Prelude.{ℕ};
ghost use Rattle.quorum_rules.specs.Limits.{Numbers};
ghost use Rattle.store_device.specs.Lives.{LivesAreLinearizable, LivesAreLinearizableAsOne, LivesAreDurable};
ghost use Rattle.store_device.specs.Lives.{AcknowledgedWritesAreRead};
ghost use Rattle.store_device.specs.Arrays.{LivesAreArrays, AcknowledgedAreDone};
ghost use Rattle.store_device.specs.Calls.{CallsGoOn, CallsKeepStores};
ghost use Rattle.store_device.specs.Steps.{StepsGoOn, StepsRemember};
ghost use Rattle.store_device.specs.Settled.{SettledBlocksForget, HeldBlocksSettle, HeldBlocksForget, CallsStayHeld, StoresHold};
ghost use Rattle.store_device.specs.Sessions.{LivesBegin, NodesAreLost, NodesAreRebuilt, NodesAreReplaced, StoresOpen};
ghost use Rattle.store_device.specs.Sessions.{NodesAreGone, NodesAreBack, NodesFail, NodesAreChanged};
ghost use Rattle.store_device.specs.Sessions.{StepsAreLives, StoresAreLeft, CrashesAreLives, CallsAcknowledge, CallsKeepPresent};

use disk_model::Disk;

/// A store's operations are linearizable over all its sessions: block by block, in one order of all blocks, and durably so. No two
/// different strings of a block's life may share a digest. At any one time nodes may be missing, and of each block at most `b` may lie.
/// A node whose blocks were rebuilt counts as correct again, so disks may be replaced for ever.
pub fn stores_are_linearizable()
    ensures by_block { (c : Numbers) → LivesAreLinearizable c }
    ensures as_one { (c : Numbers) → LivesAreLinearizableAsOne c }
    ensures durable { (c : Numbers) → LivesAreDurable c }
{
    block_turns::lives_are_linearizable();
    block_turns::lives_together();
}

/// A read that follows an acknowledged write of its block returns what was written, if every other write of the block that began before
/// the read was acknowledged and didn't begin after that write. A write that wasn't acknowledged may take effect later.
pub fn acknowledged_writes_are_read()
    ensures { (c : Numbers) → AcknowledgedWritesAreRead c }
{
    stores_are_linearizable();
    linear_runs::laws::reads();
}

/// Every acknowledged operation was done: a read returned a value, and a write wrote. If all operations of a life were acknowledged, reads
/// return what a plain array of blocks holds, which holds zeros at first.
pub fn lives_are_arrays()
    ensures done { (c : Numbers) → AcknowledgedAreDone c }
    ensures arrays { (c : Numbers) → LivesAreArrays c }
{
    block_turns::lives_are_linearizable();
    stores_are_linearizable();
    acknowledged_writes_are_read();
    linear_runs::laws::reads();
}

/// A block is settled when no node keeps a version above what its latest acknowledged operation read or wrote, or may still store one;
/// lying and lost nodes don't matter. A later read returns that value, or one that a later write was to write: no write that was cut off
/// before takes effect. After a crash nobody knows the latest value. Then it is enough that `n-t` nodes that are up keep one stamp and none
/// keeps a greater one (`holds`): the first operation on the block settles it, if it is acknowledged (`settles`). If operations on it are
/// cut off first, still nothing that was cut off before takes effect (`held_forgets`), over whatever calls follow (`calls`).
pub fn settled_blocks_forget<D: Disk>()
    ensures forgets { (c : Numbers) → SettledBlocksForget c }
    ensures settles { (c : Numbers) → HeldBlocksSettle c }
    ensures held_forgets { (c : Numbers) → HeldBlocksForget c }
    ensures calls { (c : Numbers) → CallsStayHeld c }
    ensures holds { StoresHold D.pending D.seen }
{
    block_turns::settled_lives();
}

/// Calls after calls are calls, and leave a store of the same cluster. Steps after steps are steps. What a store remembers behind them are
/// stamps of acknowledged operations, each of its block, if it was so before.
pub fn calls_follow<D: Disk>()
    ensures calls { CallsGoOn D.pending D.seen D.most D.moment D.left_since }
    ensures keep { CallsKeepStores D.pending D.seen D.most D.moment D.left_since }
    ensures steps { StepsGoOn D.pending D.seen D.most D.moment D.left_since }
    ensures remember { StepsRemember D.pending D.seen D.most D.moment D.left_since }
{}

/// A store's life goes on over calls, and between them over nodes that go on on other disks or are taken out; and over a crash at any
/// moment of a call. What a session, or its crash, leaves on disks can be opened again: a node that is up must keep what it is known to
/// keep, and be present; every other node answers nothing.
pub fn sessions_are_lives<D: Disk>()
    ensures opens { StoresOpen D.pending D.seen }
    ensures steps { StepsAreLives D.pending D.seen D.most D.moment D.left_since }
    ensures left { StoresAreLeft D.pending D.seen }
    ensures crashed { CrashesAreLives D.pending D.seen D.most D.moment D.left_since }
    ensures acknowledged { CallsAcknowledge D.pending D.seen }
    ensures present { CallsKeepPresent D.pending D.seen }
{}

/// A life begins with nodes that keep the first version of each block. A node may be lost at any time, and may keep anything then. It is
/// present again on each block for which it keeps the first version and that of the latest acknowledged operation. So a node may get another
/// disk that keeps these of all blocks. A node may be out of
/// reach, and come back with what it kept. It may begin to lie about a block if then at most `b` nodes do. What lying and lost nodes keep
/// may change.
pub fn nodes_are_rebuilt()
    ensures begin { (c : Numbers) → LivesBegin c }
    ensures lost { (c : Numbers) → NodesAreLost c }
    ensures rebuilt { (c : Numbers) → NodesAreRebuilt c }
    ensures replaced { (c : Numbers) → NodesAreReplaced c }
    ensures gone { (c : Numbers) → NodesAreGone c }
    ensures back { (c : Numbers) → NodesAreBack c }
    ensures fail { (c : Numbers) → NodesFail c }
    ensures changed { (c : Numbers) → NodesAreChanged c }
{}
