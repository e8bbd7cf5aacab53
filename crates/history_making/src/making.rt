ghost use Rattle.std.specs.Prelude.{List, map, IfOk};
ghost use Rattle.protocol.specs.Seen.{record_of};
ghost use Rattle.protocol.specs.History.{Entry as FullEntry};
ghost use Rattle.history_making.specs.Numbers.{HaveNumbers};
ghost use Rattle.history_making.specs.Tellings.{Tells, AreRecords};

use crate::History;
use crate::counts::{counts_of, spent_writes};
use crate::sweep::entries;
use lists::NoMemory;
use run_words::Record;
use stamp_order::Stamp;
use std::alloc::Global;

/// The history of a run's records, in a cluster whose blocks have this first stamp: each completed read and write, each pending
/// write whose stamp a completed read of its block gave, and a foreign write for each other stamp that such a read gave, the
/// first stamp aside, with the value of the first of these reads. `NoMemory` comes only where no memory is found.
pub fn history_of(alloc: Global, records: &[Record], first: &Stamp) -> Result<History, NoMemory>
    requires { AreRecords (map record_of records.now) first.now }
    ensures tells { IfOk result (λ history. (h : List FullEntry)
        × Tells (map record_of records.now) first.now h history) }
    ensures numbers { IfOk result (λ history. HaveNumbers history) }
{
    let entries = entries(alloc, records, first)?;
    let spent = spent_writes(alloc, records)?;
    Ok(History::new(entries, spent, counts_of(records)))
}
