ghost use Rattle.std.specs.Prelude.{◌≡◌, IfErr};
ghost use Rattle.std.specs.List.{list_any};
ghost use Rattle.store_care.specs.Tallies.{is_lacking};
ghost use Rattle.pasis_store.specs.Ends.{IsUnderstood, scrub_end};

use crate::compacting::compact_due;
use crate::folder::FileStore;
use crate::groups::{Group, ends_tenth, group_count, group_of};
use crate::opening::open_store;
use crate::settling::settle;
use crate::telling::tell;
use lists::NoMemory;
use std::alloc::Global;
use std::thread::Threads;
use store_care::{Care, NodeTally, prune_acknowledged, prune_due};
use store_words::{Found, JournalBytes, Notice, Refusal, ScrubLine, Status, write_scrubbed};

/// How many versions a node keeps of a block that isn't pruned: the first, and one more.
const MOST_VERSIONS: usize = 2;

/// Reads every block, restores every node that is up, prunes, settles what is left and compacts, and tells of each node what was found.
pub fn scrub<T: Threads + Sync>(
    rt: &HostRuntime,
    threads: &T,
    folders: &[String],
) -> Result<Status, Refusal>
    ensures { IfErr result IsUnderstood }
{
    let mut store = open_store(rt, folders)?;
    let before = lens(rt.alloc(), &store)?;
    let care = look_at_all(rt, threads, &mut store)?;
    settle(rt, threads, &mut store)?;
    compact_due(rt, folders, &mut store);
    let lines = lines_of(rt.alloc(), &mut store, &before, &care)?;
    if write_scrubbed(&mut rt.stdout(), &lines).is_err() {
        return Ok(Status::Failed);
    }
    end_of(&care)
}

// How a scrub ends that counted this.
fn end_of(care: &Care) -> Result<Status, Refusal>
    ensures { result ≡ scrub_end care.now.failed (list_any is_lacking care.now.tallies.items) }
{
    match care.failed {
        0 => Ok(Status::of_scrub(is_lacking(&care.tallies))),
        blocks => Err(Refusal::Unread { blocks }),
    }
}

// Whether some node didn't hold what was read.
fn is_lacking(tallies: &[NodeTally]) -> bool
    ensures { result ≡ list_any is_lacking tallies.now }
{
    tallies.iter().any(|tally| tally.is_lacking())
}

// How long each node's journal is; 0 where none sits there.
fn lens(alloc: Global, store: &FileStore) -> Result<Vec<u64>, NoMemory> {
    let mut lens = Vec::new(alloc);
    for seat in 0..store.config().n() as usize {
        lens.push(len(store, seat))?;
    }
    Ok(lens)
}

fn len(store: &FileStore, seat: usize) -> u64 {
    match store.node(seat) {
        Some(node) => node.journal_len().now,
        None => 0,
    }
}

fn look_at_all<T: Threads + Sync>(
    rt: &HostRuntime,
    threads: &T,
    store: &mut FileStore,
) -> Result<Care, NoMemory> {
    let mut care = Care::new(rt.alloc(), store.config().n() as usize)?;
    let groups = group_count(store.config());
    for number in 0..groups {
        let done = look_at(rt, threads, store, &mut care, number)?;
        if ends_tenth(number, groups) {
            let blocks = store.config().blocks();
            tell(rt, &Notice::Looked { done, blocks });
        }
    }
    Ok(care)
}

// Looks at the blocks of a group, and prunes them by the stamps that the reads gave. Gives how many blocks that and the groups before it have.
fn look_at<T: Threads + Sync>(
    rt: &HostRuntime,
    threads: &T,
    store: &mut FileStore,
    care: &mut Care,
    number: u32,
) -> Result<u32, NoMemory> {
    let Group { first, count } = group_of(store.config(), number);
    care.look(threads, rt.alloc(), store, first, count)?;
    prune_acknowledged(threads, rt.alloc(), store, MOST_VERSIONS)?;
    prune_due(threads, rt.alloc(), store, first, count, MOST_VERSIONS)?;
    Ok(first + count)
}

// A line for each node.
fn lines_of(
    alloc: Global,
    store: &mut FileStore,
    before: &[u64],
    care: &Care,
) -> Result<Vec<ScrubLine>, NoMemory> {
    let mut lines = Vec::new(alloc);
    for (node, tally) in care.tallies.iter().enumerate() {
        let was = before.get(node).copied().unwrap_or(0);
        lines.push(line_of(store, node, was, tally))?;
    }
    Ok(lines)
}

fn line_of(store: &mut FileStore, node: usize, was: u64, tally: &NodeTally) -> ScrubLine {
    if !store.is_up(node) {
        return ScrubLine::Down { node };
    }
    let found = Found {
        stale: tally.older,
        wrong: tally.wrong,
        unfinished: tally.newer,
        restored: tally.restored,
    };
    let is = len(store, node);
    let bytes = JournalBytes { was, is };
    ScrubLine::Up { node, found, bytes }
}
