//! The report of a run of a plan.

ghost use Rattle.std.specs.Prelude.{IfOk, ◌≤◌, ◌^◌, map};
ghost use Rattle.protocol.specs.Seen.{record_of};
ghost use Rattle.journals.specs.Records.{AreTold};
ghost use Rattle.plan_followed.specs.Followed.{AreOfPlan};
ghost use Rattle.command_texts.specs.Runs.{RunsPlan, TellsPlan};

use cross_sum::Bytes;
use history_book::print;
use history_making::History;
use journal_records::by_start;
use journals::Journals;
use lists::{ItemList, NoMemory};
use plan_words::Plan;
use run_words::Record;
use script_run::history_of_records;
use std::alloc::Global;
use wire_forms::First;

/// The history of the run that the journals tell, for which so many numbers were drawn. They are those of a run of the plan. The
/// records are those that the journals tell, one client's after another's, so none of the run's lines is played.
pub(crate) fn told_history(
    alloc: Global,
    plan: &Plan,
    journals: &Journals,
    records: ItemList<Record>,
    drawn: u64,
) -> Result<History, NoMemory>
    requires run { AreOfPlan plan.now journals.now drawn }
    requires records { AreTold journals.now (map record_of records) }
    requires clock { drawn ≤ 2 ^ 56 }
    ensures { IfOk result (TellsPlan plan.now journals.now) }
{
    plan_followed::laws::followed_plans();
    journal_records::laws::merged_lines();
    journal_records::laws::all_records();
    journal_records::laws::few_records();
    let records = by_start(records);
    let first = First::of(alloc, &journals.config)?;
    let history = history_of_records(alloc, records.as_slice(), &first.stamp)?;
    Ok(history)
}

/// The report of that history, which has each operation of each client that neither lies nor crashed in the run.
pub fn run_text(
    alloc: Global,
    plan: &Plan,
    journals: &Journals,
    records: ItemList<Record>,
    drawn: u64,
) -> Result<Bytes, NoMemory>
    requires run { AreOfPlan plan.now journals.now drawn }
    requires records { AreTold journals.now (map record_of records) }
    requires clock { drawn ≤ 2 ^ 56 }
    ensures { IfOk result (RunsPlan plan.now journals.now) }
{
    journal_records::laws::complete_histories();
    let history = told_history(alloc, plan, journals, records, drawn)?;
    let text = print(alloc, &history)?;
    Ok(text)
}
