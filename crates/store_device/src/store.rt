ghost use Rattle.std.specs.Prelude.{◌≡◌, ◌≤◌, true, is_some, All, length, IfOk};
ghost use Rattle.std.specs.Option.{option_map};
ghost use Rattle.std.specs.Result.{result_ok};
ghost use Rattle.wire_forms.specs.Ops.{Fits};
ghost use Rattle.store_device.specs.Stores.{IsStore};
ghost use Rattle.store_device.specs.Told.{AreApart};
ghost use Rattle.store_device.specs.Going.{store_of};
ghost use Rattle.store_device.specs.Calls.{HasPerformed};

use crate::phase::{ThreadCounts, carry_out};
use crate::seat::{Seat, seat_all};
use client_core::{Client, Outcome};
use disk_model::Disk;
use lists::NoMemory;
use quorum_rules::Config;
use std::alloc::Global;
use std::marker::Model;
use std::thread::Threads;
use version_disk::{Prune, StoredNode};
use wire_forms::Op;

/// How many operations a batch has at most.
pub const MOST_OPERATIONS: usize = 64;

/// A device over nodes on disks. Contracts see the cluster's numbers, for each number of a node that node, where one sits there, and by which
/// stamps of acknowledged operations blocks may be pruned.
#[derive(Drop)]
pub struct Store<D: Disk> {
    pub(crate) alloc: Global,
    pub(crate) config: Config,
    /// An idle client, from which each operation's own client is made.
    idle: Client,
    pub(crate) seats: Vec<Seat<D>>,
    pub(crate) threads: ThreadCounts,
    pub(crate) acknowledged: Vec<Prune>,
}

impl<D: Disk> Model for Store<D> {
    ghost use Rattle.std.specs.Prelude.{◌≡◌, map};
    ghost use Rattle.store_device.specs.Stores.{SeenStore, AreOfDevice, IsStore};
    ghost use Rattle.store_device.specs.Going.{store_with};

    ghost Value = { SeenStore D };

    ghost view = { λ s. store_with s.config (map (λ seat. seat.node) s.seats.items) s.acknowledged.items };

    ghost invariant = { λ s. IsStore D.pending D.seen
        (store_with s.config (map (λ seat. seat.node) s.seats.items) s.acknowledged.items)
        × (s.idle.config ≡ s.config) × AreOfDevice s.config s.acknowledged.items };
}

impl<D: Disk> Store<D> {
    /// A store over these nodes: for each number of a node the node, or None where it is gone. A node that isn't broken is one of the
    /// cluster, of the number of its place, on a disk that has it safe from a crash, as `StoredNode::open` gives one.
    pub fn new(
        alloc: Global,
        config: &Config,
        nodes: Vec<Option<StoredNode<D>>>,
    ) -> Result<Store<D>, NoMemory>
    where
        D: Drop,
        requires { IsStore D.pending D.seen (store_of config.now nodes.items) }
        ensures { IfOk result (λ store. store ≡ store_of config.now nodes.items) }
    {
        let idle = Client::new(alloc, config, 0)?;
        let seats = seat_all(alloc, nodes)?;
        let threads = ThreadCounts {
            nodes: seats.len(),
            operations: seats.len(),
        };
        Ok(Store {
            alloc,
            config: *config,
            idle,
            seats,
            threads,
            acknowledged: Vec::new(alloc),
        })
    }

    /// From now on operations hear what nodes answered in so many threads at most, which is best as many as there are processors. At first
    /// it is as many as nodes.
    pub fn hear_in(&mut self, threads: usize)
        ensures { self.new ≡ self.old }
    {
        self.threads.operations = threads;
    }

    /// Reads and writes blocks, each by a client of its own, in step: in each phase the nodes that write do so at once, in threads, and then
    /// the operations hear what was answered at once, in threads too.
    /// Gives how each operation ended, in order; None where too few nodes answered, or where it had not ended after a million phases:
    /// then a write may have taken place or not. So it may where no memory was found, by the caller or by a node that is up, and then
    /// nothing is told of any of them.
    pub fn perform<R: Threads + Sync>(
        &mut self,
        rt: &R,
        ops: &[Op],
    ) -> Result<Vec<Option<Outcome>>, NoMemory>
    where
        D: Send,
        requires few { length ops.now ≤ 64 }
        requires fits { All (Fits self.old.config) ops.now }
        requires apart { AreApart ops.now }
        // What the call was in a store's life, after it and at any moment of it. Each operation was completed or given up as it is told.
        // Every node that is up was handed what all operations ask, phase by phase. All of them have an outcome if at least n-t nodes are
        // up in the end and have room for a slot for each operation, and nodes keep fewer than some 499,000 versions of each block. The
        // store is still one of its cluster, on disks that have what its nodes keep. It remembers the stamp of each operation that was
        // acknowledged.
        ensures performed { HasPerformed D.pending D.seen D.most D.moment D.left_since ops.now
            (option_map (λ outcomes. outcomes.items) (result_ok result)) self.old self.new }
        ensures config { self.new.config ≡ self.old.config }
    {
        let Store {
            alloc,
            config,
            idle,
            seats,
            threads,
            acknowledged,
        } = self;
        carry_out(rt, *alloc, *threads, config, idle, seats, acknowledged, ops)
    }
}
