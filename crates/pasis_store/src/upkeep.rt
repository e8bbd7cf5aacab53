//! What is done for a store between the rounds of a session.
ghost use Rattle.std.specs.Prelude.{◌≡◌, true, false, OnOk};
ghost use Rattle.pasis_store.specs.Upkeep.{HasPrunedRemembered, IsPrunedFirst, IsTended, is_due, is_full, served_since, since_then};

use crate::compacting::compact_due;
use crate::folder::FileStore;
use crate::telling::tell;
use block_device::device_len;
use lists::NoMemory;
use quorum_rules::Config;
use std::thread::Threads;
use store_care::{prune_acknowledged, prune_all};
use store_words::{Down, Notice};

/// How many bytes of requests are served, at least, before the store is looked after again.
const LEAST_BYTES: u64 = 1 << 20;

/// How many versions a node keeps of a block before that is pruned.
const MOST_VERSIONS: usize = 5;

/// How many stamps of acknowledged operations a store remembers before their blocks are pruned.
const MOST_STAMPS: usize = 65_536;

/// What is known of a store that is served: who was up, and how many bytes of requests were served since it was looked after.
#[derive(Drop)]
pub struct Upkeep {
    was_up: Vec<bool>,
    since: u64,
}

impl Upkeep {
    /// Of a store that was just opened.
    pub fn new(rt: &HostRuntime, store: &FileStore) -> Result<Upkeep, NoMemory> {
        let mut was_up = Vec::new(rt.alloc());
        for seat in 0..store.config().n() as usize {
            was_up.push(store.is_up(seat))?;
        }
        Ok(Upkeep { was_up, since: 0 })
    }

    /// So many bytes of requests were served since this was last called. Where enough were, and no request waits, the blocks are pruned of
    /// which nodes keep many versions, by the stamps that the store remembers, or else by those of reads; and the journals that are due are
    /// written anew. Where only many stamps are remembered, and no request waits, just their blocks are pruned. Tells of each node whose disk
    /// has failed.
    #[tactic(auto, using(crate::proofs::Journals::not_tended))]
    pub fn tend<T: Threads + Sync>(
        &mut self,
        rt: &HostRuntime,
        threads: &T,
        folders: &[String],
        store: &mut FileStore,
        served: usize,
        is_ready: bool,
    ) -> Result<(), NoMemory>
        ensures tended { IsTended store.old store.new }
        ensures config { store.new.config ≡ store.old.config }
        // where it is due all blocks are gone through first
        ensures due { is_due store.old.config (served_since self.old.since served) is_ready ≡ true
            → OnOk result (IsPrunedFirst 5 store.old store.new) }
        // where it isn't, but many stamps are remembered, those of their blocks are pruned of which nodes keep many versions
        ensures full { is_due store.old.config (served_since self.old.since served) is_ready ≡ false
            → is_full store.old is_ready ≡ true → OnOk result (HasPrunedRemembered 5 store.old store.new) }
        // and else nothing at all is done to it
        ensures not_due { is_due store.old.config (served_since self.old.since served) is_ready ≡ false
            → is_full store.old is_ready ≡ false → store.new ≡ store.old }
        ensures since { self.new.since
            ≡ since_then store.old.config (served_since self.old.since served) is_ready }
    {
        self.since = self.since.saturating_add(served as u64);
        self.tell_failed(rt, store);
        if !is_due(store.config(), self.since, is_ready) {
            return prune_full(rt, threads, store, is_ready);
        }
        self.since = 0;
        look_after(rt, threads, folders, store)
    }

    // Tells of each node whose disk has failed since this was last called.
    fn tell_failed(&mut self, rt: &HostRuntime, store: &FileStore)
        ensures { self.new.since ≡ self.old.since }
    {
        for (node, was_up) in self.was_up.iter_mut().enumerate() {
            if *was_up && !store.is_up(node) {
                *was_up = false;
                let why = Down::Fault;
                tell(rt, &Notice::Down { node, why });
            }
        }
    }
}

// Whether a store is to be looked after, of which so many bytes were served since it was: no request waits, and enough were.
fn is_due(config: &Config, since: u64, is_ready: bool) -> bool
    ensures { result ≡ is_due config.now since is_ready }
{
    !is_ready && since >= LEAST_BYTES.max(device_len(config))
}

// Whether the store remembers many stamps, and no request waits.
fn is_full(store: &FileStore, is_ready: bool) -> bool
    ensures { result ≡ is_full store.now is_ready }
{
    !is_ready && store.acknowledged().len() >= MOST_STAMPS
}

// Where the store remembers many stamps and no request waits, prunes those of their blocks of which nodes keep many versions.
#[tactic(auto, using(crate::proofs::Journals::not_tended))]
fn prune_full<T: Threads + Sync>(
    rt: &HostRuntime,
    threads: &T,
    store: &mut FileStore,
    is_ready: bool,
) -> Result<(), NoMemory>
    ensures tended { IsTended store.old store.new }
    ensures config { store.new.config ≡ store.old.config }
    ensures full { is_full store.old is_ready ≡ true
        → OnOk result (HasPrunedRemembered 5 store.old store.new) }
    ensures not_full { is_full store.old is_ready ≡ false → store.new ≡ store.old }
{
    if !is_full(store, is_ready) {
        return Ok(());
    }
    prune_acknowledged(threads, rt.alloc(), store, MOST_VERSIONS)
}

// Prunes the blocks of which nodes keep many versions, by the stamps that the store remembers, or else by those of reads, and writes the
// journals anew that are due.
fn look_after<T: Threads + Sync>(
    rt: &HostRuntime,
    threads: &T,
    folders: &[String],
    store: &mut FileStore,
) -> Result<(), NoMemory>
    ensures tended { IsTended store.old store.new }
    ensures pruned { OnOk result (IsPrunedFirst 5 store.old store.new) }
    ensures config { store.new.config ≡ store.old.config }
{
    prune_acknowledged(threads, rt.alloc(), store, MOST_VERSIONS)?;
    prune_all(threads, rt.alloc(), store, MOST_VERSIONS)?;
    // The blocks that were read just now were pruned as well.
    store.forget_acknowledged();
    compact_due(rt, folders, store);
    Ok(())
}
