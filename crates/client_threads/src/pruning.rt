//! Nodes prune between phases.
ghost use Rattle.std.specs.Prelude.{◌≡◌, ◌≤◌, ◌<◌, All, None, IfOk, OnOk};
ghost use Rattle.std.specs.List.{AllZip};
ghost use Rattle.locked_nodes.specs.Cells.{KeptCell};
ghost use Rattle.locked_nodes.specs.CellShards.{cell_shards_of};
ghost use Rattle.phase_threads.specs.Standing.{ArePlanned};
ghost use Rattle.client_threads.specs.Met.{IsKeeper};
ghost use Rattle.client_threads.specs.Pruned.{IsOpenCell, HasMorePrunes, IsServed, ArePlaces, NodePruned, OthersStay, AllPruned, reopened};

use crate::state::know_cells;
use event_clock::{Clock, Pass};
use lists::NoMemory;
use locked_nodes::{CellRefusal, CellShard, NodeCell, place_of, shards_in};
use phase_threads::laws::phases_work;
use plan_followed::BlockStamp;
use plan_words::Plan;
use std::alloc::Global;

/// Lets each of the plan's nodes prune these blocks, in order, node by node. It hands the cells back with the refusal that came,
/// if one did.
pub(crate) fn prune_all(
    alloc: Global,
    plan: &Plan,
    clock: &Clock,
    keeper: &mut Pass,
    cells: Vec<NodeCell>,
    prunings: &[BlockStamp],
) -> Result<(Vec<NodeCell>, Option<CellRefusal>), NoMemory>
    requires keeper { keeper.old.clock ≡ clock.now }
    requires planned { ArePlanned plan.now clock.now cells.items }
    requires known { All KeptCell cells.items }
    requires seen { All (λ c. c.pass.seen ≤ keeper.old.seen) cells.items }
    requires blocks { All (λ x. x.block < plan.now.config.blocks) prunings.now }
    ensures keeper { IsKeeper keeper.old keeper.new }
    ensures some { IfOk result (λ r. AllZip HasMorePrunes (reopened cells.items) r.0.items) }
    ensures all { IfOk result (λ r.
        r.1 ≡ None → AllPruned plan.now keeper.old.seen prunings.now cells.items r.0.items) }
    ensures seen { IfOk result (λ r. All (λ c. c.pass.seen ≤ keeper.new.seen) r.0.items) }
    ensures kept { IfOk result (λ r. All KeptCell r.0.items) }
{
    let mut cells = reopen(alloc, cells)?;
    let refused = prune_nodes(alloc, plan, clock, keeper, cells.as_mut_slice(), prunings).err();
    know_cells(cells.as_slice());
    Ok((cells, refused))
}

// The cells under charters by which prunes may follow.
fn reopen(alloc: Global, cells: Vec<NodeCell>) -> Result<Vec<NodeCell>, NoMemory>
    ensures cells { IfOk result (λ opened. opened.items ≡ reopened cells.items) }
    ensures kept { IfOk result (λ opened. All KeptCell opened.items) }
{
    let mut opened = Vec::new(alloc);
    for cell in cells {
        let cell = cell.go_on(true);
        cell.known();
        opened.push(cell)?;
    }
    Ok(opened)
}

// Lets all nodes prune, in order, until one refuses.
fn prune_nodes(
    alloc: Global,
    plan: &Plan,
    clock: &Clock,
    keeper: &mut Pass,
    cells: &mut [NodeCell],
    prunings: &[BlockStamp],
) -> Result<(), CellRefusal>
    requires keeper { keeper.old.clock ≡ clock.now }
    requires planned { ArePlanned plan.now clock.now cells.old }
    requires known { All KeptCell cells.old }
    requires cells { All (IsOpenCell clock.now keeper.old.seen prunings.now) cells.old }
    ensures keeper { IsKeeper keeper.old keeper.new }
    ensures cells { All (IsOpenCell clock.now keeper.new.seen prunings.now) cells.new }
    ensures some { AllZip HasMorePrunes cells.old cells.new }
    ensures all { OnOk result
        (AllPruned plan.now keeper.old.seen prunings.now cells.old cells.new) }
{
    phases_work();
    let cell_shards = shards_in(alloc, cells)?;
    for node in 0..plan.config.n() as u8 {
        prune(
            alloc,
            clock,
            keeper,
            cells,
            cell_shards.as_slice(),
            node,
            prunings,
        )?;
    }
    Ok(())
}

// Lets one node prune these blocks, in order, each in its cell.
fn prune(
    alloc: Global,
    clock: &Clock,
    keeper: &mut Pass,
    cells: &mut [NodeCell],
    cell_shards: &[CellShard],
    node: u8,
    prunings: &[BlockStamp],
) -> Result<(), CellRefusal>
    requires keeper { keeper.old.clock ≡ clock.now }
    requires cells { All (IsOpenCell clock.now keeper.old.seen prunings.now) cells.old }
    requires cell_shards { cell_shards.now ≡ cell_shards_of cells.old }
    requires served { IsServed cell_shards.now node }
    ensures keeper { IsKeeper keeper.old keeper.new }
    ensures cells { All (IsOpenCell clock.now keeper.new.seen prunings.now) cells.new }
    ensures some { AllZip HasMorePrunes cells.old cells.new }
    ensures all { OnOk result (NodePruned keeper.old.seen prunings.now node cells.old cells.new) }
    ensures others { OthersStay node cells.old cells.new }
{
    let places = places_of(alloc, cell_shards, node)?;
    for pruning in prunings {
        let place = places[pruning.block as usize % places.len()];
        let _pruning = cells[place].prune(clock, keeper, pruning.block, &pruning.stamp)?;
    }
    Ok(())
}

// The places of a node's cells, by shard.
fn places_of(alloc: Global, cell_shards: &[CellShard], node: u8) -> Result<Vec<usize>, NoMemory>
    requires { IsServed cell_shards.now node }
    ensures { IfOk result (λ places. ArePlaces cell_shards.now node places.items) }
{
    let shards = cell_shards[place_of(cell_shards, node, 0)].shards;
    let mut places = Vec::new(alloc);
    for shard in 0..shards {
        places.push(place_of(cell_shards, node, shard))?;
    }
    Ok(places)
}
