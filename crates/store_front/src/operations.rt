//! Block operations, done in batches, and what the store told of them.
ghost use Rattle.std.specs.Prelude.{◌≡◌, ◌<◌, ◌&&◌, ◌==◌, ℕ, List, [], nat_lt, length, map, if◌then◌else◌, IfOk, IfSome, OnOk, All};
ghost use Rattle.std.specs.Ordering.{nat_cmp};
ghost use Rattle.std.specs.List.{zip};
ghost use Rattle.std.specs.BTreeMap.{IsOrdered as HasOrder, insert_entry};
ghost use Rattle.std.specs.BTreeSet.{IsOrdered};
ghost use Rattle.std.specs.Option.{option_copied};
ghost use Rattle.quorum_rules.specs.Limits.{Numbers};
ghost use Rattle.wire_forms.specs.Ops.{Fits};
ghost use Rattle.store_device.specs.Told.{AreApart};
ghost use Rattle.store_device.specs.Calls.{Call, Leads};
ghost use Rattle.store_front.specs.Asking.{told_in, AreAsked, AreHeard};
ghost use Rattle.store_front.specs.Values.{read_of, write_of, AreBlocks, found_with, found_in, written_with, written_in};

use client_core::Outcome;
use cross_sum::Bytes;
use disk_model::Disk;
use lists::NoMemory;
use quorum_rules::Config;
use std::alloc::Global;
use std::collections::{BTreeMap, BTreeSet};
use std::thread::Threads;
use store_device::Store;
use store_device::store::MOST_OPERATIONS;
use wire_forms::Op;

/// What was read of blocks, or is to be written to them.
pub(crate) type Values = BTreeMap<u32, Bytes>;

/// The value of a block, if there is one.
pub(crate) fn value_in(values: &Values, block: u32) -> Option<&Bytes>
    ensures value { option_copied result ≡ read_of values.now block }
    ensures sized { (c : Numbers) → AreBlocks c values.now
        → IfSome result (λ value. length value.now ≡ c.size) }
{
    values.get(&block)
}

/// Puts a value in the place of a block's.
pub(crate) fn put_value(
    values: &mut Values,
    config: &Config,
    block: u32,
    value: Bytes,
) -> Result<(), NoMemory>
    requires block { block < config.now.blocks }
    requires len { length value ≡ config.now.size }
    requires values { AreBlocks config.now values.old }
    ensures put { OnOk result (values.new.entries
        ≡ insert_entry nat_cmp values.old.entries block value) }
    ensures blocks { OnOk result (AreBlocks config.now values.new) }
{
    values.insert(block, value)?;
    Ok(())
}

/// What the block operations of a round came to: the values that reads gave, and the blocks that were written.
#[derive(Drop)]
pub(crate) struct Done {
    pub found: Values,
    pub written: BTreeSet<u32>,
}

impl Done {
    /// Nothing was done.
    fn new(alloc: Global) -> Done
        ensures found { result.found.entries ≡ [] }
        ensures written { result.written.keys ≡ [] }
    {
        Done {
            found: BTreeMap::new(alloc),
            written: BTreeSet::new(alloc),
        }
    }

    /// A read gave this value of a block. What isn't a block of the device is none.
    fn find(&mut self, config: &Config, block: u32, value: Bytes) -> Result<(), NoMemory>
        requires { AreBlocks config.now self.old.found }
        ensures found { OnOk result (self.new.found.entries
            ≡ (if nat_lt block config.now.blocks && length value == config.now.size
            then insert_entry nat_cmp self.old.found.entries block value
            else self.old.found.entries)) }
        ensures blocks { OnOk result (AreBlocks config.now self.new.found) }
        ensures written { self.new.written ≡ self.old.written }
    {
        if block >= config.blocks() || value.len() != config.size() as usize {
            return Ok(());
        }
        put_value(&mut self.found, config, block, value)
    }

    /// Hears what was told of an operation.
    fn hear(&mut self, config: &Config, op: &Op, outcome: Option<Outcome>) -> Result<(), NoMemory>
        requires { AreBlocks config.now self.old.found }
        ensures found { OnOk result (self.new.found.entries
            ≡ found_with config.now self.old.found.entries op.now outcome) }
        ensures valid { OnOk result (AreBlocks config.now self.new.found) }
        ensures written { OnOk result (self.new.written.keys
            ≡ written_with self.old.written.keys op.now outcome) }
    {
        match (op, outcome) {
            (Op::Read { block }, Some(Outcome::Gave { value, .. })) => {
                self.find(config, *block, value)
            }
            (Op::Write { block, .. }, Some(Outcome::Wrote(_))) => {
                self.written.insert(*block)?;
                Ok(())
            }
            _ => Ok(()),
        }
    }

    /// Hears what was told of operations, one after the other.
    fn hear_all(
        &mut self,
        config: &Config,
        ops: &[Op],
        outcomes: Vec<Option<Outcome>>,
    ) -> Result<(), NoMemory>
        requires { AreBlocks config.now self.old.found }
        ensures found { OnOk result (self.new.found.entries
            ≡ found_in config.now self.old.found.entries (zip ops.now outcomes.items)) }
        ensures blocks { OnOk result (AreBlocks config.now self.new.found) }
        ensures written { OnOk result (self.new.written.keys
            ≡ written_in self.old.written.keys (zip ops.now outcomes.items)) }
    {
        for (op, outcome) in ops.iter().zip(outcomes) {
            self.hear(config, op, outcome)?;
        }
        Ok(())
    }
}

/// Performs operations in batches, and hears what was told of each.
fn perform_all<D: Disk + Send, R: Threads + Sync>(
    rt: &R,
    store: &mut Store<D>,
    ops: &[Op],
    done: &mut Done,
) -> Result<(), NoMemory>
    requires fits { All (Fits store.old.config) ops.now }
    requires apart { AreApart ops.now }
    requires blocks { AreBlocks store.old.config done.old.found }
    ensures config { store.new.config ≡ store.old.config }
    ensures blocks { OnOk result (AreBlocks store.old.config done.new.found) }
    ensures calls { (calls : List (Call D))
        × Leads D.pending D.seen D.most D.moment D.left_since store.old calls store.new
        × AreAsked ops.now calls
        × OnOk result (AreHeard ops.now calls
        × (done.new.found.entries
        ≡ found_in store.old.config done.old.found.entries (told_in calls))
        × (done.new.written.keys ≡ written_in done.old.written.keys (told_in calls))) }
{
    let config = *store.config();
    let mut at = 0;
    while at < ops.len() {
        let batch = &ops[at..ops.len().min(at + MOST_OPERATIONS)];
        let outcomes = store.perform(rt, batch)?;
        done.hear_all(&config, batch, outcomes)?;
        at += batch.len();
    }
    Ok(())
}

/// Reads blocks. Gives the value of each of which a read gave one.
pub(crate) fn read_blocks<D: Disk + Send, R: Threads + Sync>(
    rt: &R,
    alloc: Global,
    store: &mut Store<D>,
    blocks: &BTreeSet<u32>,
) -> Result<Done, NoMemory>
    requires { All (λ k. k < store.old.config.blocks) blocks.now.keys }
    ensures config { store.new.config ≡ store.old.config }
    ensures blocks { IfOk result (λ done. AreBlocks store.old.config done.found) }
    ensures calls { (calls : List (Call D))
        × Leads D.pending D.seen D.most D.moment D.left_since store.old calls store.new
        × AreAsked (map Op.Read blocks.now.keys) calls
        × IfOk result (λ done. AreHeard (map Op.Read blocks.now.keys) calls
        × (done.found.entries ≡ found_in store.old.config [] (told_in calls))
        × (done.written.keys ≡ [])) }
{
    let ops = reads_of(alloc, blocks)?;
    let mut done = Done::new(alloc);
    perform_all(rt, store, &ops, &mut done)?;
    Ok(done)
}

/// Writes blocks, and hears which of the writes were done.
pub(crate) fn write_blocks<D: Disk + Send, R: Threads + Sync>(
    rt: &R,
    alloc: Global,
    store: &mut Store<D>,
    values: Values,
    done: &mut Done,
) -> Result<(), NoMemory>
    requires values { AreBlocks store.old.config values }
    requires blocks { AreBlocks store.old.config done.old.found }
    ensures config { store.new.config ≡ store.old.config }
    ensures found { OnOk result (done.new.found.entries ≡ done.old.found.entries) }
    ensures blocks { OnOk result (AreBlocks store.old.config done.new.found) }
    ensures calls { (calls : List (Call D))
        × Leads D.pending D.seen D.most D.moment D.left_since store.old calls store.new
        × AreAsked (map write_of values.entries) calls
        × OnOk result (AreHeard (map write_of values.entries) calls
        × (done.new.written.keys ≡ written_in done.old.written.keys (told_in calls))) }
{
    let ops = writes_of(alloc, values)?;
    perform_all(rt, store, &ops, done)
}

/// A read of each block.
fn reads_of(alloc: Global, blocks: &BTreeSet<u32>) -> Result<Vec<Op>, NoMemory>
    ensures ops { IfOk result (λ ops. ops.items ≡ map Op.Read blocks.now.keys) }
    ensures ascending { IsOrdered nat_cmp blocks.now }
{
    let _ascending = blocks.len();
    let ops: Vec<Op> = blocks
        .iter()
        .map(|block| Op::Read { block: *block })
        .collect(alloc)?;
    Ok(ops)
}

/// A write of each block.
fn writes_of(alloc: Global, values: Values) -> Result<Vec<Op>, NoMemory>
    ensures ops { IfOk result (λ ops. ops.items ≡ map write_of values.entries) }
    ensures ascending { HasOrder nat_cmp values }
{
    let _ascending = values.len();
    let ops: Vec<Op> = values
        .into_iter()
        .map(|(block, value)| Op::Write { block, value })
        .collect(alloc)?;
    Ok(ops)
}
