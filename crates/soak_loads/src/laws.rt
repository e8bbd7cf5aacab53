//! Laws of loads and of runs, each the contract of a function that does nothing.

ghost use Rattle.protocol.specs.Instance.{InEachRun};
ghost use Rattle.soak_loads.specs.Loads.{LoadsAreDone, LoadsArePlain, OwnersAreDone, OwnersArePlain};
ghost use Rattle.soak_loads.specs.Serial.{SerialRunsArePlain};
ghost use Rattle.soak_loads.specs.Owners.{BlocksHaveOneClient};

/// A plan that a number makes has nothing but reads and writes of blocks, and all of one block are of one client.
pub fn blocks_have_one_client()
    ensures { BlocksHaveOneClient }
{}

/// Where the operations of each block come one after another, a run's history is that of these operations on plain registers,
/// done in that order: the i-th write on a block has time i, and a read has stamp and value of the last write before it. So the
/// history's lines don't depend on the places at which the operations stood.
pub fn serial_histories()
    ensures { InEachRun SerialRunsArePlain }
{
    protocol::laws::cluster();
    protocol::laws::safety();
    protocol::laws::one_history();
    protocol::laws::bounds();
    protocol::laws::origins();
    protocol::laws::completion();
    protocol::laws::order();
    protocol::laws::records();
    protocol::laws::marks();
}

/// A plan in which no client lies or crashes and each block has one client: whatever turns the threads of its run took, all its
/// operations are done and no write is spent. Where no two strings that were seen clash, the line of the run is that of its
/// operations done one after another on plain registers.
pub fn owned_plans()
    ensures done { OwnersAreDone }
    ensures plain { OwnersArePlain }
{
    serial_histories();
    protocol::laws::records();
    plan_followed::laws::followed_plans();
    journal_records::laws::complete_histories();
    journal_records::laws::steady_records();
}

/// A plan that a number makes is such a plan.
pub fn plain_loads()
    ensures done { LoadsAreDone }
    ensures plain { LoadsArePlain }
{
    owned_plans();
    blocks_have_one_client();
}
