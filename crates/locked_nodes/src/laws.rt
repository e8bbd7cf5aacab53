//! What the journals of cells are, each the contract of a function that does nothing.

ghost use Rattle.locked_nodes.specs.Shards.{OneCell, SeveralCells, SeveralCalm};
ghost use Rattle.locked_nodes.specs.Conduct.{EntriesGo, HeldComeAgain};
ghost use Rattle.locked_nodes.specs.Joined.{JoinHas, JoinCounts, JoinAscends, JoinKeeps, JoinGrows};

/// A cell's journal is a kept journal of its node. Where a node has several cells, with no crash count, their entries by number
/// are one, since asks on different blocks don't touch each other's versions; such a node doesn't crash and holds nothing back.
pub fn kept_journals()
    ensures one { OneCell }
    ensures several { SeveralCells }
    ensures calm { SeveralCalm }
{}

/// What a kept journal of a node tells. Each entry goes by the node's nature and its crash count: who doesn't lie answers and
/// delivers; who lies tells what its rule says; a crash comes once, at the first call or late delivery after as many asks were
/// served as are counted, and never where none are; after it nothing is served, told or pruned. The asks that were held back
/// came late in the order in which they were held, but for the last, which are held back still.
pub fn conduct()
    ensures entries { EntriesGo }
    ensures held { HeldComeAgain }
{}

/// What two journals joined by number are. They have the entries of both, each as often; they ascend where both do and have no
/// number in common; what a test keeps of one journal alone it keeps of both; and they grow at the end as both grow there.
pub fn joined_journals()
    ensures has { JoinHas }
    ensures counts { JoinCounts }
    ensures ascends { JoinAscends }
    ensures keeps { JoinKeeps }
    ensures grows { JoinGrows }
{}
