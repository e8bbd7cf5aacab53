//! Who sits on a store's seats, and prunes of blocks.
ghost use Rattle.std.specs.Prelude.{◌≡◌, ◌≤◌, ◌<◌, ◌⊎◌, ℕ, true, false, All, replicate, length, slice_index_or, MatchOption, IfSome, IfOk, IfErr, OnOk, OnErr, Some, None, Err};
ghost use Rattle.quorum_rules.specs.Limits.{IsValid};
ghost use Rattle.version_disk.specs.Held.{held, first_bad};
ghost use Rattle.version_disk.specs.Stored.{Stored};
ghost use Rattle.store_device.specs.Stores.{IsSound, seat_at, is_up};
ghost use Rattle.store_device.specs.Calls.{HasPruned};
ghost use Rattle.store_device.specs.Seating.{with_seat, HasBlocks, ArePrunesApart, PrunesIn, HasTried, TriesIn};
ghost use Rattle.store_device.specs.Seating.{PrunesWholly, IsOpened};
ghost use Rattle.version_disk.specs.Opened.{IfSlotOf, IfFaultOf, disk_of};
ghost use Rattle.outside_io.specs.Causes.{Rose};
ghost use Rattle.store_device.specs.Answered.{is_memory};

use crate::seat::{Seat, none_starved};
use crate::store::Store;
use disk_model::Disk;
use lists::NoMemory;
use quorum_rules::Config;
use std::alloc::Global;
use std::thread::{Threads, for_each_mut};
use version_disk::{OpenRefusal, Prune, StoreRefusal, StoredNode};

impl<D: Disk> Store<D> {
    /// The cluster's numbers.
    pub fn config(&self) -> &Config
        ensures { result.now ≡ self.now.config }
    {
        &self.config
    }

    /// The node that sits at a seat, if one does.
    pub fn node(&self, seat: usize) -> Option<&StoredNode<D>>
        ensures node { MatchOption result (seat_at self.now seat ≡ None)
            (λ node. seat_at self.now seat ≡ Some node.now) }
        // one that is up is a node of the cluster
        ensures config { IfSome result (λ node. is_up (seat_at self.now seat) ≡ true
            → node.now.node.config ≡ self.now.config) }
        ensures number { IfSome result (λ node. is_up (seat_at self.now seat) ≡ true
            → node.now.node.number ≡ seat) }
    {
        self.seats.get(seat)?.node.as_ref()
    }

    /// Whether a node sits there whose disk hasn't failed.
    pub fn is_up(&self, seat: usize) -> bool
        ensures { result ≡ is_up (seat_at self.now seat) }
    {
        match self.node(seat) {
            Some(node) => !node.is_broken(),
            None => false,
        }
    }

    /// Takes the node from a seat, if one sits there. Nobody sits there then.
    pub fn take_node(&mut self, seat: usize) -> Option<StoredNode<D>>
        ensures node { result ≡ seat_at self.old seat }
        ensures gone { self.new ≡ with_seat self.old seat None }
    {
        self.seats.get_mut(seat)?.node.take()
    }

    /// Has each node that is up prune blocks, each by the stamp of an acknowledged operation, while no operation is under way; the nodes
    /// at once. A node that has no room for that stays as it is.
    /// `NoMemory` if a node found too little memory; that node stays as it is as well.
    pub fn prune_all<R: Threads + Sync>(&mut self, rt: &R, prunes: &[Prune]) -> Result<(), NoMemory>
    where
        D: Send,
        requires there { All (λ p. p.block < self.old.config.blocks) prunes.now }
        requires apart { ArePrunesApart prunes.now }
        ensures config { self.new.config ≡ self.old.config }
        ensures seats { (i : ℕ) → PrunesIn D.pending D.seen prunes.now (seat_at self.old i) (seat_at self.new i) }
        // each node that is up in the end, and has room for a slot for each prune, has pruned all the blocks
        ensures whole { OnOk result ((i : ℕ)
            → PrunesWholly D.pending D.seen D.most prunes.now false (seat_at self.old i) (seat_at self.new i)) }
        // What the call was in a store's life, after it and at any moment of it: each node keeps of each block what it kept, or what the
        // block's prune leaves of that. A node that isn't up stays as it is.
        ensures pruned { HasPruned D.pending D.seen D.most D.moment D.left_since prunes.now self.old self.new }
    {
        let Store { seats, threads, .. } = self;
        prune_seats(rt, threads.nodes, seats, prunes)
    }
}

impl<D: Disk + Drop> Store<D> {
    /// A store of a cluster of whose nodes none sits there yet.
    pub fn empty(alloc: Global, config: &Config) -> Result<Store<D>, NoMemory>
        ensures config { IfOk result (λ store. store.config ≡ config.now) }
        ensures nobody { IfOk result (λ store. store.seats ≡ replicate config.now.n None) }
    {
        let nodes = nobody(alloc, config)?;
        Store::new(alloc, config, nodes)
    }

    /// Opens a disk as the node of a seat, and seats it. `Damaged` tells the first slot that this node didn't write. `DiskFault` comes where
    /// the disk failed, or has no room for a byte.
    pub fn seat_disk(&mut self, alloc: Global, seat: u8, disk: D) -> Result<(), OpenRefusal<D>>
        requires there { seat < self.old.config.n }
        ensures config { self.new.config ≡ self.old.config }
        ensures seated { OnOk result ((node : Stored D) × (self.new ≡ with_seat self.old seat (Some node))
            × (node.node ≡ held self.old.config seat (D.seen disk)) × (node.broken ≡ false)
            × IsSound D.pending D.seen self.old.config seat node) }
        // the disk holds its slots still, which are all good
        ensures opened { OnOk result ((node : Stored D) × (self.new ≡ with_seat self.old seat (Some node))
            × IsOpened D.pending D.seen D.most D.moment D.left_since D.faults self.old.config seat disk node) }
        ensures damaged { IfErr result
            (IfSlotOf (λ slot. first_bad self.old.config seat (D.seen disk) ≡ Some slot)) }
        // the disk that is given back
        ensures later { IfErr result (λ why. D.faults disk ≤ D.faults (disk_of (Err why))) }
        ensures cause { IfErr result (λ why. IfFaultOf
            ((D.most disk ≡ 0) ⊎ Rose D.last (D.faults disk) (D.faults (disk_of (Err why)))) why) }
        ensures up { OnOk result (is_up (seat_at self.new seat) ≡ true) }
        ensures err { OnErr result (self.new ≡ self.old) }
    {
        if disk.room() == 0 {
            return Err(OpenRefusal::DiskFault(disk));
        }
        let node = StoredNode::open(alloc, &self.config, seat, disk)?;
        self.seat_node(usize::from(seat), node);
        Ok(())
    }

    /// Seats a node, in the place of the one that sits there, if one does.
    pub fn seat_node(&mut self, seat: usize, node: StoredNode<D>)
        requires there { seat < self.old.config.n }
        requires sound { node.broken ≡ false → IsSound D.pending D.seen self.old.config seat node }
        ensures { self.new ≡ with_seat self.old seat (Some node) }
    {
        self.seats[seat].node = Some(node);
    }
}

/// Nobody, for each node of a cluster.
fn nobody<D: Disk + Drop>(
    alloc: Global,
    config: &Config,
) -> Result<Vec<Option<StoredNode<D>>>, NoMemory>
    ensures nodes { IfOk result (λ nodes. nodes.items ≡ replicate config.now.n None) }
    ensures valid { IsValid config.now }
{
    let mut nodes = Vec::new(alloc);
    for _ in 0..config.n() {
        nodes.push(None)?;
    }
    Ok(nodes)
}

/// Has each node that is up prune the blocks, in so many threads at most, and sees that none found too little memory.
fn prune_seats<D: Disk + Send, R: Threads + Sync>(
    rt: &R,
    threads: usize,
    seats: &mut [Seat<D>],
    prunes: &[Prune],
) -> Result<(), NoMemory>
    requires blocks { (i : ℕ) (d : _) → i < length seats.old
        → HasBlocks prunes.now (slice_index_or seats.old i d).node }
    ensures count { length seats.new ≡ length seats.old }
    ensures each { (i : ℕ) (d : _) → i < length seats.old
        → TriesIn D.pending D.seen prunes.now D.moment D.left_since
        (slice_index_or seats.old i d).node (slice_index_or seats.new i d).node }
    ensures whole { OnOk result ((i : ℕ) (d : _) → i < length seats.old
        → PrunesWholly D.pending D.seen D.most prunes.now false
        (slice_index_or seats.old i d).node (slice_index_or seats.new i d).node) }
{
    prune_each(rt, threads, seats, prunes);
    none_starved(seats)
}

/// Has each node that is up prune the blocks, in so many threads at most.
fn prune_each<D: Disk + Send, R: Threads + Sync>(
    rt: &R,
    threads: usize,
    seats: &mut [Seat<D>],
    prunes: &[Prune],
)
    requires blocks { (i : ℕ) (d : _) → i < length seats.old
        → HasBlocks prunes.now (slice_index_or seats.old i d).node }
    ensures count { length seats.new ≡ length seats.old }
    ensures each { (i : ℕ) (d : _) → i < length seats.old
        → TriesIn D.pending D.seen prunes.now D.moment D.left_since
        (slice_index_or seats.old i d).node (slice_index_or seats.new i d).node }
    ensures whole { (i : ℕ) (d : _) → i < length seats.old
        → PrunesWholly D.pending D.seen D.most prunes.now (slice_index_or seats.new i d).starved
        (slice_index_or seats.old i d).node (slice_index_or seats.new i d).node }
{
    for_each_mut(
        rt,
        seats,
        threads.max(1),
        &|_: usize, seat: &mut Seat<D>|
            requires { HasBlocks prunes.now seat.old.node }
            ensures tries { TriesIn D.pending D.seen prunes.entry.now D.moment D.left_since
                seat.old.node seat.new.node }
            ensures whole { PrunesWholly D.pending D.seen D.most prunes.entry.now seat.new.starved
                seat.old.node seat.new.node }
        { seat.prune(prunes) },
    );
}

impl<D: Disk> Seat<D> {
    /// Has the node that sits there prune the blocks, if it is up, and notes whether it found too little memory.
    fn prune(&mut self, prunes: &[Prune])
        requires { HasBlocks prunes.now self.old.node }
        ensures tries { TriesIn D.pending D.seen prunes.now D.moment D.left_since self.old.node self.new.node }
        ensures whole { PrunesWholly D.pending D.seen D.most prunes.now self.new.starved self.old.node self.new.node }
    {
        self.starved = prune_in(&mut self.node, prunes);
    }
}

/// Has the node that sits there prune the blocks, if it is up. Gives whether it found too little memory.
fn prune_in<D: Disk>(seat: &mut Option<StoredNode<D>>, prunes: &[Prune]) -> bool
    requires { HasBlocks prunes.now seat.old }
    ensures tries { TriesIn D.pending D.seen prunes.now D.moment D.left_since seat.old seat.new }
    ensures whole { PrunesWholly D.pending D.seen D.most prunes.now result seat.old seat.new }
{
    match seat {
        Some(node) => prune_up(node, prunes),
        None => false,
    }
}

/// Has the node prune the blocks, if it is up. Where no memory or no room is found for that, it stays as it is. Gives whether it found
/// too little memory.
fn prune_up<D: Disk>(node: &mut StoredNode<D>, prunes: &[Prune]) -> bool
    requires { node.old.broken ≡ false
        → All (λ p. p.block < node.old.node.config.blocks) prunes.now }
    ensures down { node.old.broken ≡ true → node.new ≡ node.old }
    ensures up { node.old.broken ≡ false
        → HasTried D.pending D.seen prunes.now D.moment D.left_since node.old node.new }
    ensures whole { PrunesWholly D.pending D.seen D.most prunes.now result (Some node.old) (Some node.new) }
{
    if node.is_broken() {
        return false;
    }
    match node.prune_all(prunes) {
        Ok(()) => false,
        Err(refusal) => is_starved(refusal),
    }
}

/// Whether a node refused for want of memory.
fn is_starved(refusal: StoreRefusal) -> bool
    ensures { result ≡ is_memory refusal }
{
    match refusal {
        StoreRefusal::NoMemory => true,
        StoreRefusal::DiskFault | StoreRefusal::Broken | StoreRefusal::Full => false,
    }
}
