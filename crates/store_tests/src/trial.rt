//! A case that is played: sessions of a store, and what is left of its disks between them.
ghost use Rattle.std.specs.Prelude.{◌≡◌, ◌<◌, All, replicate, None, IfOk};
ghost use Rattle.store_device.specs.Seating.{ArePrunesApart};
ghost use Rattle.store_device.specs.Stores.{IsStore};
ghost use Rattle.store_device.specs.Going.{store_of};

use crate::batch::{all_reads, drawn_batch};
use crate::case::{Case, Pruning, Session};
use crate::changes::changed;
use crate::counts::Counts;
use crate::draws::Draws;
use crate::noted::NotedDisk;
use crate::register::Register;
use crate::unmade::Unmade;
use client_core::Outcome;
use disk_model::{Disk, MemoryDisk};
use lists::NoMemory;
use outside_io::Calls;
use quorum_rules::Config;
use stamp_order::Stamp;
use std::alloc::Global;
use std::thread::Threads;
use store_care::{FilledDisk, fill_disk, later_versions, prune_acknowledged};
use store_device::Store;
use version_disk::{OpenRefusal, Prune, StoredNode};
use wire_forms::Op;

type Device = Store<NotedDisk<MemoryDisk>>;

/// The call of a node's disk that fails.
#[derive(Clone, Copy)]
struct Fault {
    node: u32,
    call: u32,
}

/// What a node's disk holds between two sessions.
#[derive(Drop)]
struct Shelf {
    journal: Vec<u8>,
    /// What it held after earlier sessions, where others may change it.
    older: Vec<Vec<u8>>,
    is_changed: bool,
}

/// A block beside the store.
#[derive(Drop)]
struct Block {
    register: Register,
    /// The greatest stamp that a read gave.
    read: Option<Stamp>,
}

#[derive(Drop)]
struct Trial {
    alloc: Global,
    config: Config,
    draws: Draws,
    shelves: Vec<Shelf>,
    blocks: Vec<Block>,
    counts: Counts,
}

/// Plays a case.
pub fn play<R: Threads + Sync>(rt: &R, alloc: Global, case: &Case) -> Result<Counts, Unmade> {
    let [n, t, b, qc, m, size, blocks] = case.cluster;
    let config = Config::new(n, t, b, qc, m, size, blocks).map_err(|_| Unmade)?;
    if case.turns == 0 {
        return play_once(rt, alloc, case, &config, None, Counts::new());
    }
    let mut counts = Counts::new();
    for node in 0..config.n() {
        for call in 0..case.turns {
            counts = play_once(rt, alloc, case, &config, Some(Fault { node, call }), counts)?;
        }
    }
    Ok(counts)
}

// Plays a case with this fault in its first session, and adds up what comes of it.
fn play_once<R: Threads + Sync>(
    rt: &R,
    alloc: Global,
    case: &Case,
    config: &Config,
    fault: Option<Fault>,
    counts: Counts,
) -> Result<Counts, Unmade> {
    let mut trial = Trial::new(alloc, case, config, counts)?;
    let mut first = fault;
    for _ in 0..case.sessions {
        trial.play_session(rt, &case.session, first.take())?;
    }
    trial.end(rt)?;
    Ok(trial.counts)
}

fn empty_shelf(alloc: Global) -> Shelf {
    Shelf {
        journal: Vec::new(alloc),
        older: Vec::new(alloc),
        is_changed: false,
    }
}

fn blocks_of(alloc: Global, config: &Config) -> Result<Vec<Block>, Unmade> {
    let mut blocks = Vec::new(alloc);
    for _ in 0..config.blocks() {
        blocks.push(Block {
            register: Register::new(alloc, config.size() as usize)?,
            read: None,
        })?;
    }
    Ok(blocks)
}

// No node on any seat.
fn nobody<D: Disk + Drop>(
    alloc: Global,
    config: &Config,
) -> Result<Vec<Option<StoredNode<D>>>, Unmade>
    ensures { IfOk result (λ nodes. IsStore D.pending D.seen
        (store_of config.now nodes.items)) }
{
    let nodes = no_nodes(alloc, config.n())?;
    Ok(nodes)
}

// No node, so many times.
fn no_nodes<D: Disk + Drop>(alloc: Global, count: u32) -> Result<Vec<Option<StoredNode<D>>>, Unmade>
    ensures { IfOk result (λ nodes. nodes.items ≡ replicate count None) }
{
    let mut nodes = Vec::new(alloc);
    for _seat in 0..count {
        nodes.push(None)?;
    }
    Ok(nodes)
}

/// A disk that holds these bytes, where one of its later calls may fail.
fn disk_of(
    alloc: Global,
    bytes: &[u8],
    failing: Option<u32>,
) -> Result<NotedDisk<MemoryDisk>, Unmade> {
    let mut calls = Calls::new(alloc);
    if let Some(call) = failing {
        // behind the two that put the bytes there
        calls.push(u64::from(call).saturating_add(2))?;
    }
    let mut disk = MemoryDisk::new(alloc, calls);
    if disk.write_at(0, bytes).is_err() || disk.sync().is_err() {
        return Err(Unmade);
    }
    Ok(NotedDisk::new(alloc, disk))
}

impl Trial {
    fn new(alloc: Global, case: &Case, config: &Config, counts: Counts) -> Result<Trial, Unmade> {
        let mut draws = Draws::new(case.seed);
        let mut shelves = Vec::new(alloc);
        for _ in 0..config.n() {
            shelves.push(empty_shelf(alloc))?;
        }
        mark_changed(&mut shelves, &mut draws, config.n(), case.session.changed);
        Ok(Trial {
            alloc,
            config: *config,
            draws,
            shelves,
            blocks: blocks_of(alloc, config)?,
            counts,
        })
    }

    fn play_session<R: Threads + Sync>(
        &mut self,
        rt: &R,
        session: &Session,
        fault: Option<Fault>,
    ) -> Result<(), Unmade> {
        if session.replaced > 0 {
            self.replace(rt, session)?;
        }
        self.change()?;
        let away = self.drawn_away(session)?;
        let failing = self.drawn_faults(session, fault)?;
        let mut store = self.open(&away, &failing)?;
        for _ in 0..session.batches {
            self.play_batch(rt, &mut store)?;
            match session.pruning {
                Pruning::Nothing => {}
                Pruning::ByReads => self.prune(rt, &mut store)?,
                Pruning::ByRemembered(most) => {
                    prune_acknowledged(rt, self.alloc, &mut store, most)?;
                }
            }
        }
        self.close(&mut store)
    }

    // Disks are replaced and filled, and from then on others change other journals.
    fn replace<R: Threads + Sync>(&mut self, rt: &R, session: &Session) -> Result<(), Unmade> {
        let config = self.config;
        let are_new = self.drawn_new(session)?;
        let mut store = self.open(&are_new, &[])?;
        for number in 0..config.n() as u8 {
            if are_new.get(usize::from(number)).copied().unwrap_or(false) {
                self.fill(rt, &mut store, number)?;
            }
        }
        self.close(&mut store)?;
        for shelf in &mut self.shelves {
            shelf.is_changed = false;
            shelf.older = Vec::new(self.alloc);
        }
        mark_changed(
            &mut self.shelves,
            &mut self.draws,
            config.n(),
            session.changed,
        );
        Ok(())
    }

    // Whose disks are replaced: those of nodes whose journals others change, and as many others as are drawn.
    fn drawn_new(&mut self, session: &Session) -> Result<Vec<bool>, Unmade> {
        let mut are_new = Vec::new(self.alloc);
        for shelf in &self.shelves {
            are_new.push(shelf.is_changed)?;
        }
        for _ in session.changed..session.replaced {
            let node = self.draws.below(self.config.n()) as usize;
            if let Some(is_new) = are_new.get_mut(node) {
                *is_new = true;
            }
        }
        Ok(are_new)
    }

    // Puts a new disk, filled with what reads of a store give, in the place of a node's.
    fn fill<R: Threads + Sync>(
        &mut self,
        rt: &R,
        store: &mut Device,
        number: u8,
    ) -> Result<(), Unmade> {
        let disk = disk_of(self.alloc, &[], None)?;
        let FilledDisk { filled, node } = fill_disk(rt, self.alloc, store, number, disk)?;
        self.counts.add_filled(&filled);
        if let (Some(node), Some(shelf)) = (node, self.shelves.get_mut(usize::from(number))) {
            shelf.journal = node.into_disk().left(self.alloc, &mut self.draws)?;
        }
        Ok(())
    }

    // Others change journals.
    fn change(&mut self) -> Result<(), Unmade> {
        let mut number: u8 = 0;
        for shelf in &mut self.shelves {
            if shelf.is_changed {
                let Shelf { journal, older, .. } = shelf;
                if let Some(bytes) = changed(
                    self.alloc,
                    &self.config,
                    number,
                    journal,
                    older,
                    &mut self.draws,
                )? {
                    shelf.journal = bytes;
                }
            }
            number = number.wrapping_add(1);
        }
        Ok(())
    }

    // Which nodes are gone.
    fn drawn_away(&mut self, session: &Session) -> Result<Vec<bool>, Unmade> {
        let mut away = vec![in self.alloc; false; self.config.n() as usize]?;
        for _ in 0..self.draws.below(session.gone.saturating_add(1)) {
            let node = self.draws.below(self.config.n()) as usize;
            if let Some(is_away) = away.get_mut(node) {
                *is_away = true;
            }
        }
        Ok(away)
    }

    // For each node the call of its disk that fails, if one does.
    fn drawn_faults(
        &mut self,
        session: &Session,
        fault: Option<Fault>,
    ) -> Result<Vec<Option<u32>>, Unmade> {
        let mut failing = vec![in self.alloc; None; self.config.n() as usize]?;
        if let Some(Fault { node, call }) = fault {
            note(&mut failing, node, call);
        }
        for _ in 0..self.draws.below(session.faults.saturating_add(1)) {
            let node = self.draws.below(self.config.n());
            let call = self.draws.below(session.calls);
            note(&mut failing, node, call);
        }
        Ok(failing)
    }

    // A store of the nodes that aren't gone.
    fn open(&mut self, away: &[bool], failing: &[Option<u32>]) -> Result<Device, Unmade> {
        let config = self.config;
        let mut store = Store::new(self.alloc, &config, nobody(self.alloc, &config)?)?;
        for number in 0..config.n() as u8 {
            let i = usize::from(number);
            if !away.get(i).copied().unwrap_or(false) {
                let call = failing.get(i).copied().unwrap_or(None);
                self.seat(&config, &mut store, number, call)?;
            }
        }
        Ok(store)
    }

    // Opens a node's disk, and gives the node its seat.
    fn seat(
        &mut self,
        config: &Config,
        store: &mut Device,
        number: u8,
        failing: Option<u32>,
    ) -> Result<(), Unmade>
        requires number { number < config.now.n }
        requires config { store.old.config ≡ config.now }
        ensures { store.new.config ≡ store.old.config }
    {
        let i = usize::from(number);
        let Some(shelf) = self.shelves.get_mut(i) else {
            return Ok(());
        };
        let disk = disk_of(self.alloc, &shelf.journal, failing)?;
        match StoredNode::open(self.alloc, config, number, disk) {
            Ok(node) => {
                store.seat_node(i, node);
                return Ok(());
            }
            Err(OpenRefusal::NoMemory(_disk)) => return Err(Unmade),
            Err(
                OpenRefusal::Damaged {
                    slot: _,
                    disk: _disk,
                },
            ) => {}
            Err(OpenRefusal::DiskFault(disk)) => {
                shelf.journal = disk.left(self.alloc, &mut self.draws)?;
            }
        }
        self.counts.add_unopened();
        Ok(())
    }

    fn play_batch<R: Threads + Sync>(&mut self, rt: &R, store: &mut Device) -> Result<(), Unmade> {
        let config = *store.config();
        let ops = drawn_batch(self.alloc, &config, &mut self.draws)?;
        let before = self.count_up(store);
        let outcomes = store.perform(rt, &ops)?;
        self.hear(&ops, &outcomes)?;
        let are_lost = outcomes.iter().all(|outcome| outcome.is_none());
        let are_told = outcomes.iter().all(|outcome| outcome.is_some());
        let wait = self.config.wait();
        if (before < wait && !are_lost) || (self.count_up(store) >= wait && !are_told) {
            self.counts.tell_otherwise();
        }
        Ok(())
    }

    // How many nodes are up.
    fn count_up(&self, store: &mut Device) -> u32
        ensures { store.new.config ≡ store.old.config }
    {
        let mut count: u32 = 0;
        for i in 0..self.config.n() as usize {
            if store.is_up(i) {
                count = count.saturating_add(1);
            }
        }
        count
    }

    // Counts what came of operations, and compares it with the blocks beside the store.
    fn hear(&mut self, ops: &[Op], outcomes: &[Option<Outcome>]) -> Result<(), Unmade> {
        if ops.len() != outcomes.len() {
            self.counts.tell_otherwise();
        }
        for (op, outcome) in ops.iter().zip(outcomes) {
            self.counts.add(self.alloc, outcome)?;
            if !self.may_end(op, outcome)? {
                self.counts.tell_otherwise();
            }
        }
        Ok(())
    }

    fn may_end(&mut self, op: &Op, outcome: &Option<Outcome>) -> Result<bool, Unmade> {
        let number = match op {
            Op::Read { block } | Op::Write { block, .. } => *block as usize,
        };
        let Some(block) = self.blocks.get_mut(number) else {
            return Ok(false);
        };
        let register = &mut block.register;
        match (op, outcome) {
            (Op::Read { .. }, Some(Outcome::Gave { stamp, value, .. })) => {
                block.read = block.read.max(Some(*stamp));
                Ok(register.gave(self.alloc, value.as_slice())?)
            }
            (Op::Write { value, .. }, Some(Outcome::Wrote(_))) => {
                register.wrote(self.alloc, value.as_slice())?;
                Ok(true)
            }
            (Op::Write { value, .. }, None) => {
                register.lost(self.alloc, value.as_slice())?;
                Ok(true)
            }
            (Op::Read { .. }, None) => Ok(true),
            _ => Ok(false),
        }
    }

    // Nodes prune the blocks from a drawn one on, as far as reads have given them.
    fn prune<R: Threads + Sync>(&mut self, rt: &R, store: &mut Device) -> Result<(), Unmade> {
        let first = self.draws.below(self.config.blocks());
        let prunes = prunes_of(self.alloc, &self.blocks, first, store.config().blocks())?;
        let _starved = store.prune_all(rt, &prunes);
        Ok(())
    }

    // Takes the nodes away, and leaves of each disk what a crash may leave.
    fn close(&mut self, store: &mut Device) -> Result<(), Unmade> {
        let up = self.count_up(store);
        self.counts.add_up(up);
        for (i, shelf) in self.shelves.iter_mut().enumerate() {
            let sits = store.node(i).is_some();
            self.counts.add_kept(later_versions(store, i));
            let taken = store.take_node(i);
            if sits != taken.is_some() || store.node(i).is_some() {
                self.counts.tell_otherwise();
            }
            if let Some(node) = taken {
                shelf.journal = node.into_disk().left(self.alloc, &mut self.draws)?;
            }
            if shelf.is_changed {
                let journal = Vec::from_slice(self.alloc, &shelf.journal)?;
                shelf.older.push(journal)?;
            }
        }
        Ok(())
    }

    // All nodes are back, and no disk fails: each block is read twice.
    fn end<R: Threads + Sync>(&mut self, rt: &R) -> Result<(), Unmade> {
        let mut store = self.open(&[], &[])?;
        for _ in 0..2 {
            let config = *store.config();
            let ops = all_reads(self.alloc, &config)?;
            let outcomes = store.perform(rt, &ops)?;
            self.hear(&ops, &outcomes)?;
            if outcomes.iter().any(|outcome| outcome.is_none()) {
                self.counts.tell_otherwise();
            }
        }
        self.close(&mut store)
    }
}

// Others change the journals of nodes that are drawn.
fn mark_changed(shelves: &mut [Shelf], draws: &mut Draws, nodes: u32, changed: u32) {
    for _ in 0..changed {
        let node = draws.below(nodes) as usize;
        if let Some(shelf) = shelves.get_mut(node) {
            shelf.is_changed = true;
        }
    }
}

// Notes that this call of a node's disk fails.
fn note(failing: &mut [Option<u32>], node: u32, call: u32) {
    if let Some(place) = failing.get_mut(node as usize) {
        *place = Some(call);
    }
}

// The prunes of these blocks, by the stamps that reads gave.
fn prunes_of(alloc: Global, blocks: &[Block], first: u32, end: u32) -> Result<Vec<Prune>, NoMemory>
    ensures there { IfOk result (λ prunes. All (λ p. p.block < end) prunes.items) }
    ensures apart { IfOk result (λ prunes. ArePrunesApart prunes.items) }
{
    let mut prunes = Vec::new(alloc);
    for block in first.min(end)..end {
        if let Some(stamp) = stamp_of(blocks, block) {
            prunes.push(Prune { block, stamp })?;
        }
    }
    Ok(prunes)
}

// The greatest stamp that a read gave of a block.
fn stamp_of(blocks: &[Block], block: u32) -> Option<Stamp> {
    blocks.get(block as usize)?.read
}
