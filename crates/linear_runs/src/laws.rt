//! The laws, each the contract of a function that does nothing.
ghost use Rattle.std.specs.Prelude.{ℕ, List};
ghost use Rattle.protocol.specs.Instance.{InEachRun};
ghost use Rattle.linear_runs.specs.Linear.{Operation};
ghost use Rattle.linear_runs.specs.Meaning.{ReadsAreWritten, ReadsAreFresh, BlocksComeTogether};
ghost use Rattle.linear_runs.specs.Laws.{IsLinearizable, IsLinearizableAsOne};
ghost use Rattle.linear_runs.specs.Laws.{IsDurablyLinearizable, EndedAreKept};
ghost use Rattle.linear_runs.specs.Laws.{UnknownWereLied, AllAreKnown};

/// Where no two different strings that were seen share a digest, each run is linearizable (Herlihy and Wing 1990): each block
/// alone, and so all blocks in one order.
pub fn linearizable()
    ensures by_block { InEachRun IsLinearizable }
    ensures as_one { InEachRun IsLinearizableAsOne }
{
    protocol::laws::safety();
    protocol::laws::one_history();
    protocol::laws::records();
}

/// And durably so (Izraelevitz, Mendes and Scott 2016), whichever nodes and clients crash and come back: the operations are
/// linearizable as if there had been no crash, and one that a crash of its client cut off never ends, so that it may have
/// taken place or not. What has ended stays, whatever follows.
pub fn durable()
    ensures durable { InEachRun IsDurablyLinearizable }
    ensures kept { InEachRun EndedAreKept }
{
    protocol::laws::runs();
    protocol::laws::records();
    protocol::laws::later_worlds();
    linearizable();
}

/// A write that no correct client made and a read saw was lied on its block, under a stamp that is for its value. So where no
/// client lies, each operation of a run is one of a correct client.
pub fn known()
    ensures lied { InEachRun UnknownWereLied }
    ensures all { InEachRun AllAreKnown }
{
    protocol::laws::safety();
    protocol::laws::one_history();
    protocol::laws::records();
    protocol::laws::bounds();
    protocol::laws::later_worlds();
    protocol::laws::pools();
}

/// Of any operations that are linearizable: a read gives the first value or one whose write began before the read ended. A
/// read that began after a write or a read of its block had ended gives the value of this one, or of a write that hadn't
/// ended before this one began: it is neither stale nor goes back.
pub fn reads()
    ensures written { (zeros : List ℕ) (ops : List Operation) → ReadsAreWritten zeros ops }
    ensures fresh { (zeros : List ℕ) (ops : List Operation) → ReadsAreFresh zeros ops }
{}

/// Of any operations of which none ended before it began: where those on each block are linearizable, all are in one order.
pub fn together()
    ensures { (zeros : List ℕ) (ops : List Operation) → BlocksComeTogether zeros ops }
{}
