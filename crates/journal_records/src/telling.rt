//! The records of all clients in one order.

ghost use Rattle.std.specs.Prelude.{map};
ghost use Rattle.std.specs.List.Sorted.{IsPermutation, IsNonDecreasingBy};
ghost use Rattle.protocol.specs.Report.{Ascend};
ghost use Rattle.protocol.specs.Seen.{record_of};
ghost use Rattle.journals.specs.declared.whole.Journals.{Journals};
ghost use Rattle.journals.specs.Steps.{Conduct};
ghost use Rattle.journals.specs.Journals.{AreOfRun};
ghost use Rattle.journals.specs.Records.{AreTold};
ghost use Rattle.journal_records.specs.Records.{AreAllRecords};

use lists::ItemList;
use run_words::Record;

/// Records in the order of their starts. Those that the journals of a run in threads tell, one client's after another's, are then
/// all records of the run.
pub fn by_start(records: ItemList<Record>) -> ItemList<Record>
    ensures { (conduct : Conduct) (j : Journals) → AreOfRun conduct j →
        Ascend (map (λ d. d.client) j.desks) → AreTold j (map record_of records) →
        AreAllRecords j (map record_of result) }
{
    let mut records = records.into_vec();
    sort(records.as_mut_slice());
    ItemList::from_vec(records)
}

/// Puts records in the order of their starts.
fn sort(records: &mut [Record])
    ensures sorted { IsNonDecreasingBy (λ r. r.start) records.new }
    ensures permutation { IsPermutation records.old records.new }
{
    records.sort_unstable_by_key(|record| record.start);
}
