//! What is told of a load: the line of a run of the plan that a number makes.

ghost use Rattle.std.specs.Prelude.{◌≡◌, ◌≤◌, ◌^◌, IfOk, map};
ghost use Rattle.protocol.specs.Seen.{record_of};
ghost use Rattle.journals.specs.Records.{AreTold};
ghost use Rattle.plan_words.specs.Plans.{Fits};
ghost use Rattle.plan_followed.specs.Followed.{AreOfPlan};
ghost use Rattle.command_texts.specs.Loads.{load_of as load_told, TellsLoad};

use crate::report::told_history;
use cross_sum::Bytes;
use journals::Journals;
use lists::{ItemList, NoMemory};
use plan_words::Plan;
use run_words::Record;
use soak_loads::{plan_of, print_soak};
use std::alloc::Global;

/// How many clients a load has.
const CLIENTS: u32 = 4;

/// How many operations a load has.
const OPERATIONS: u32 = 200;

/// The load of a number: the plan that the number makes for 4 clients and 200 operations. `NoMemory` is the only refusal.
pub fn load_of(alloc: Global, number: u64) -> Result<Plan, NoMemory>
    ensures is { IfOk result (λ plan. plan ≡ load_told number) }
    ensures fits { IfOk result Fits }
{
    plan_of(alloc, number, CLIENTS, OPERATIONS)
}

/// The line of the run that the journals tell, for which so many numbers were drawn. They are those of a run of the number's load,
/// and the records are those that they tell, one client's after another's.
pub fn load_text(
    alloc: Global,
    number: u64,
    load: &Plan,
    journals: &Journals,
    records: ItemList<Record>,
    drawn: u64,
) -> Result<Bytes, NoMemory>
    requires load { load.now ≡ load_told number }
    requires run { AreOfPlan load.now journals.now drawn }
    requires records { AreTold journals.now (map record_of records) }
    requires clock { drawn ≤ 2 ^ 56 }
    ensures { IfOk result (TellsLoad number journals.now) }
{
    soak_loads::laws::plain_loads();
    let history = told_history(alloc, load, journals, records, drawn)?;
    let text = print_soak(alloc, number, &history)?;
    Ok(text)
}
