//! Laws of the records of runs, each the contract of a function that does nothing.

ghost use Rattle.protocol.specs.Instance.{InEachRun};
ghost use Rattle.journal_records.specs.Open.{RecordsTellTasks, TasksAreRecorded, RecordsAreOfCorrect};
ghost use Rattle.journal_records.specs.Lines.{LinesAreThere, LinesAreCounted, LastPlaceIsCount};
ghost use Rattle.journal_records.specs.Records.{WorldsHaveAllRecords, RecordsAreThose};
ghost use Rattle.journal_records.specs.Few.{RecordsFitHistory};
ghost use Rattle.journal_records.specs.Shown.{HistoriesAreComplete};
ghost use Rattle.journal_records.specs.Steady.{RecordsAreSteady};
ghost use Rattle.journal_records.specs.Told.{LinesAreTold};

/// A record without an outcome is of what its client has under way, crashed or not, unless the client came back; and what a
/// client has under way has its record. Each record is of a correct client.
pub fn open_records()
    ensures tell { InEachRun (λ s w. RecordsTellTasks w) }
    ensures recorded { InEachRun (λ s w. TasksAreRecorded w) }
    ensures correct { InEachRun RecordsAreOfCorrect }
{
    protocol::laws::refusals();
    protocol::laws::runs();
    protocol::laws::replacements();
}

/// Journals of a run in threads have lines, which are a run. There are as many lines as numbers, and the last world has the
/// place of that count.
pub fn merged_lines()
    ensures there { LinesAreThere }
    ensures counted { LinesAreCounted }
    ensures place { LastPlaceIsCount }
{
    journals::laws::merged_runs();
    journals::laws::one_merge();
}

/// The records of the last world of a run in threads are all that its clients' journals tell. So any list of just these by start
/// is the list of its records.
pub fn all_records()
    ensures had { WorldsHaveAllRecords }
    ensures are { RecordsAreThose }
{
    open_records();
    protocol::laws::records();
    journals::laws::merged_runs();
}

/// The records of a plan's run are fewer than 2^31, and the rounds of its reads fewer than 2^64: a plan has at most 64 clients and
/// 4,000 block operations, and a client begins no more rounds than its journal has entries.
pub fn few_records()
    ensures { RecordsFitHistory }
{
    plan_followed::laws::followed_plans();
}

/// In the run of a plan's journals each step of each client that neither lies nor crashed in it was done to its end, in order, and
/// stands in the history or among the writes that ended as spent. A client crashes only where the plan has it crash, after just so
/// many asks. A write is spent only where the times that liars sent leave it none.
pub fn complete_histories()
    ensures { HistoriesAreComplete }
{
    protocol::laws::bounds();
    protocol::laws::records();
    protocol::laws::spent();
    journals::laws::merged_runs();
    plan_followed::laws::followed_plans();
}

/// In a run of a plan in which no client lies or crashed no operation is left open: the records are those of the operations
/// that the clients ended, and each client's came one after another.
pub fn steady_records()
    ensures { RecordsAreSteady }
{
    open_records();
    journals::laws::merged_runs();
    plan_followed::laws::followed_plans();
}

/// The lines of a plan's journals are of the kinds that tell what threads did, and name clients, nodes, blocks and values of the
/// plan's cluster, where a script can describe it.
pub fn told_lines()
    ensures { LinesAreTold }
{
    protocol::laws::cluster();
    journals::laws::fitting_lines();
    plan_followed::laws::plans();
    plan_followed::laws::followed_plans();
}
