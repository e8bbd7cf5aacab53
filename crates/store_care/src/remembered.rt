//! Pruning by the stamps that a store remembers, for which no block is read.
ghost use Rattle.std.specs.Prelude.{◌≡◌, ◌<◌, List, All, filter, map, IfOk, OnOk, OnErr};
ghost use Rattle.std.specs.Ordering.{nat_cmp};
ghost use Rattle.std.specs.BTreeMap.{IsOrdered};
ghost use Rattle.quorum_rules.specs.Limits.{Numbers};
ghost use Rattle.store_device.specs.Stores.{AreOfDevice};
ghost use Rattle.store_device.specs.Calls.{Call, Leads};
ghost use Rattle.store_device.specs.Seating.{ArePrunesApart};
ghost use Rattle.store_device.specs.Steps.{IsTended};
ghost use Rattle.store_care.specs.Pruning.{is_overfull};
ghost use Rattle.store_care.specs.Remembered.{AreGroupsOf, HasPrunedRemembered, latest, prune_of};

use crate::pruning::is_overfull;
use disk_model::Disk;
use lists::NoMemory;
use stamp_order::Stamp;
use std::alloc::Global;
use std::collections::BTreeMap;
use std::thread::Threads;
use store_device::Store;
use version_disk::Prune;

/// How many blocks are pruned in one call at most.
const MOST_PRUNES: usize = 64;

/// Has each node that is up prune the blocks of which the store remembers stamps, and some node that is up keeps more than so many versions, each
/// by its latest stamp. Then it forgets all stamps. No block is read. A node that finds no room for a group of prunes, or too little memory,
/// keeps these blocks as they are. `NoMemory` if there is none for the list of blocks: then nothing was done, and nothing is forgotten.
pub fn prune_acknowledged<D: Disk + Send, R: Threads + Sync>(
    rt: &R,
    alloc: Global,
    store: &mut Store<D>,
    most: usize,
) -> Result<(), NoMemory>
    ensures config { store.new.config ≡ store.old.config }
    // what it did to the store
    ensures pruned { OnOk result (HasPrunedRemembered D.pending D.seen D.most D.moment D.left_since most
        store.old store.new) }
    ensures err { OnErr result (store.new ≡ store.old) }
    // so the store is looked after: nothing is read or written, and each prune is by a stamp that the store remembered of the block
    ensures tended { IsTended D.pending D.seen D.most D.moment D.left_since store.old store.new }
{
    let latest = latest_of(alloc, store.acknowledged())?;
    let prunes = overfull_of(alloc, store, &latest, most)?;
    prune_groups(rt, store, &prunes);
    store.forget_acknowledged();
    Ok(())
}

// Prunes blocks, as many in a call as may be.
fn prune_groups<D: Disk + Send, R: Threads + Sync>(rt: &R, store: &mut Store<D>, prunes: &[Prune])
    requires there { All (λ p. p.block < store.old.config.blocks) prunes.now }
    requires apart { ArePrunesApart prunes.now }
    ensures config { store.new.config ≡ store.old.config }
    ensures calls { (calls : List (Call D))
        × Leads D.pending D.seen D.most D.moment D.left_since store.old calls store.new
        × AreGroupsOf prunes.now calls }
{
    for group in 0..prunes.len().div_ceil(MOST_PRUNES) {
        let first = prunes.len().min(group.saturating_mul(MOST_PRUNES));
        let end = first + MOST_PRUNES.min(prunes.len() - first);
        let _starved = store.prune_all(rt, &prunes[first..end]);
    }
}

// Those of the prunes of whose blocks some node that is up keeps more than so many versions.
fn overfull_of<D: Disk>(
    alloc: Global,
    store: &mut Store<D>,
    prunes: &[Prune],
    most: usize,
) -> Result<Vec<Prune>, NoMemory>
    requires { All (λ p. p.block < store.old.config.blocks) prunes.now }
    ensures same { store.new ≡ store.old }
    ensures overfull { IfOk result (λ found. found.items
        ≡ filter (λ p. is_overfull store.old most p.block) prunes.now) }
{
    let mut found = Vec::new(alloc);
    for prune in prunes {
        if is_overfull(store, prune.block, most) {
            found.push(*prune)?;
        }
    }
    Ok(found)
}

// Of each block the latest of the prunes, ascending.
fn latest_of(alloc: Global, prunes: &[Prune]) -> Result<Vec<Prune>, NoMemory>
    ensures latest { IfOk result (λ found. found.items ≡ latest prunes.now) }
    ensures apart { IfOk result (λ found. ArePrunesApart found.items) }
    ensures there { IfOk result (λ found. (c : Numbers) → AreOfDevice c prunes.now → AreOfDevice c found.items) }
{
    let mut stamps = BTreeMap::new(alloc);
    for prune in prunes {
        stamps.insert(prune.block, prune.stamp)?;
    }
    as_prunes(alloc, stamps)
}

// A prune of each block.
fn as_prunes(alloc: Global, stamps: BTreeMap<u32, Stamp>) -> Result<Vec<Prune>, NoMemory>
    ensures prunes { IfOk result (λ prunes. prunes.items ≡ map prune_of stamps.entries) }
    ensures ascending { IsOrdered nat_cmp stamps }
{
    let _ascending = stamps.len();
    let prunes: Vec<Prune> = stamps
        .into_iter()
        .map(|(block, stamp)| Prune { block, stamp })
        .collect(alloc)?;
    Ok(prunes)
}
